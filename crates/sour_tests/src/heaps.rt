//! The variables of a frame, and the arrays of a run.

use sour_machine::{Env, Heap};
use sour_syntax::{ArrayId, List, Literal, Value, VarId};
use std::alloc::{AllocError, Global};
use std::test::Fail;

const EIGHT: Value = Value::Plain(Literal::Number(8));

const NIL: Value = Value::Plain(Literal::Nil);

/// The values of a row in which the second variable had one, and the last got one after all were there.
fn row(alloc: Global) -> Result<Env, AllocError> {
    let mut env = Env::new(alloc);
    env.push(NIL)?;
    env.push(EIGHT)?;
    env.extend_to(4)?;
    env.set(VarId(3), EIGHT);
    env.clear(VarId(1));
    Ok(env)
}

#[test]
fn keeps_the_values_of_variables(rt: HostRuntime) -> Result<(), Fail> {
    for (x, value) in [
        (0, Some(NIL)),
        (1, None),
        (2, None),
        (3, Some(EIGHT)),
        (4, None),
    ] {
        let env = row(rt.alloc())?;
        assert!(rt;
            env.get(VarId(x)) == value && env.len() == 4,
            "variable {x}"
        );
    }
    Ok(())
}

/// Makes an array of so many cells, where there is room: its number, its length and the room that is left.
fn add(
    alloc: Global,
    heap: &mut Heap,
    cells: usize,
) -> Result<Option<(ArrayId, Option<u64>, usize)>, AllocError> {
    let cells = List::from_vec(vec![in alloc; NIL; cells]?);
    if cells.len() > heap.room() {
        return Ok(None);
    }
    let array = heap.add(cells)?;
    Ok(Some((array, heap.length(array), heap.room())))
}

/// The same behind an array of two cells.
fn add_second(
    alloc: Global,
    cells: usize,
) -> Result<Option<(ArrayId, Option<u64>, usize)>, AllocError> {
    let mut heap = Heap::new(alloc);
    add(alloc, &mut heap, 2)?;
    add(alloc, &mut heap, cells)
}

#[test]
fn counts_the_cells_of_arrays(rt: HostRuntime) -> Result<(), Fail> {
    for (cells, length, room) in [(0, 0, 4_194_302), (300, 300, 4_194_002)] {
        let added = add_second(rt.alloc(), cells)?;
        assert!(rt;
            added == Some((ArrayId(1), Some(length), room)),
            "of {cells}"
        );
    }
    assert!(rt; add_second(rt.alloc(), 4_194_303)?.is_none());
    Ok(())
}
