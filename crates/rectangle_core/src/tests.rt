use super::*;
use call_core::{Plain, Steps};
use std::alloc::Global;
use std::test::Fail;
use value_core::{ArrayNode, Memory, Rows};

/// The rows 0, 1, 2 .. of these lengths, each of the numbers 0, 1, 2 .. from where the last one ended.
fn rows_of(alloc: Global, lengths: &[usize]) -> Result<Rows, Memory> {
    let mut rows = Rows::new(alloc);
    let mut next = 0;
    for &length in lengths {
        let mut row = Vec::new(alloc);
        for _ in 0..length {
            row.push(ArrayNode::Number(next))?;
            next = next.wrapping_add(1);
        }
        if let Err(_) = rows.push(row) {
            return Err(Memory);
        }
    }
    Ok(rows)
}

fn grid_of_lengths(alloc: Global, lengths: &[usize]) -> Result<Option<Grid>, Memory> {
    let rows = rows_of(alloc, lengths)?;
    Grid::from_rows(alloc, rows)
}

#[test]
fn rows_of_one_length_are_a_rectangle(rt: HostRuntime) -> Result<(), Fail> {
    let alloc = rt.alloc();
    assert!(rt; grid_of_lengths(alloc, &[])?.is_none());
    assert!(rt; grid_of_lengths(alloc, &[0])?.is_none());
    assert!(rt; grid_of_lengths(alloc, &[2, 1])?.is_none());
    let grid = grid_of_lengths(alloc, &[3, 3])?.ok_or("no rectangle")?;
    assert_eq!(rt; grid.rows(), 2);
    assert_eq!(rt; grid.columns(), 3);
    assert!(rt; matches!(grid.get(1, 0), Some(ArrayNode::Number(3))));
    assert!(rt; matches!(grid.get(1, 2), Some(ArrayNode::Number(5))));
    assert_eq!(rt; grid.elements().len(), 6);
    assert!(rt; grid.get(0, 3).is_none());
    assert!(rt; grid.get(2, 0).is_none());
    Ok(())
}

#[test]
fn a_clone_is_equal(rt: HostRuntime) -> Result<(), Fail> {
    let alloc = rt.alloc();
    let grid = grid_of_lengths(alloc, &[2, 2])?.ok_or("no rectangle")?;
    let other = grid_of_lengths(alloc, &[4])?.ok_or("no rectangle")?;
    let copy = grid.try_clone(alloc)?;
    assert!(rt; copy == grid);
    assert!(rt; copy != other);
    let value = Value::Grid(copy);
    assert!(rt; value.try_clone(alloc)? == value);
    let one = Value::One(ArrayNode::Empty);
    assert!(rt; one.try_clone(alloc)? == one);
    assert!(rt; one != Value::Missing);
    assert!(rt; one != Value::Grid(Grid::of_one(alloc, ArrayNode::Empty)?));
    Ok(())
}

/// A blank at each of more places than a memory has.
#[derive(Drop)]
struct Everywhere;

impl<L> View<L> for Everywhere {
    ghost use Rattle.value_core.specs.declared.array.ArrayNode.TheVariants.{Empty};

    ghost row_count = { λ _. 18446744073709551615 };

    ghost column_count = { λ _. 2 };

    ghost element = { λ _ _ _. Empty };

    fn rows(&self) -> usize {
        usize::MAX
    }

    fn columns(&self) -> usize {
        2
    }

    fn at(
        &self,
        _alloc: Global,
        _row: usize,
        _column: usize,
        steps: &mut Steps<L>,
    ) -> Result<ArrayNode, Memory> {
        steps.tick();
        Ok(ArrayNode::Empty)
    }
}

#[test]
fn what_is_too_large_wants_memory_at_once(rt: HostRuntime) {
    let mut steps = Steps::new(Plain);
    assert!(rt; matches!(grid_of(rt.alloc(), &Everywhere, &mut steps), Err(Memory)));
}
