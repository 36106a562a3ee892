use super::*;
use std::test::Fail;

#[test]
fn items_keep_what_was_put_in(rt: HostRuntime) -> Result<(), Fail> {
    let mut items = Items::new(rt.alloc());
    assert!(rt; items.is_empty());
    for number in 0..3_u8 {
        assert!(rt; items.push(number).is_ok());
    }
    if let Some(item) = items.get_mut(1) {
        *item = 7;
    }
    assert_eq!(rt; items.len(), 3);
    assert_eq!(rt; items.get(1), Some(&7));
    assert!(rt; items.get(3).is_none());
    assert!(rt; items.get_mut(3).is_none());
    assert_eq!(rt; items.as_slice(), [0, 7, 2].as_slice());
    Ok(())
}

#[test]
fn a_box_keeps_its_value(rt: HostRuntime) -> Result<(), Fail> {
    let mut boxed = Boxed::new(rt.alloc(), 5_u8)?;
    *boxed.get_mut() = 6;
    assert_eq!(rt; *boxed.get(), 6);
    assert_eq!(rt; boxed.into_inner(), 6);
    Ok(())
}
