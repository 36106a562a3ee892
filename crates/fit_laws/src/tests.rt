use super::*;

#[test]
fn the_law_is_called() {
    means_fit();
}
