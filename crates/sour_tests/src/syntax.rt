//! Lists, labels, names and traps.

use sour_syntax::{Label, Labels, List, Names, Trap, VarId};
use std::alloc::{AllocError, Global};
use std::test::Fail;

/// The list 7, 8, whose second element was 6 at first.
fn seven_and_eight(alloc: Global) -> Result<List<u64>, Fail> {
    let mut list = List::new(alloc);
    list.push(7)?;
    list.push(6)?;
    list.set(1, 8);
    Ok(List::from_vec(list.into_vec()))
}

#[test]
fn a_list_keeps_its_elements_in_order(rt: HostRuntime) -> Result<(), Fail> {
    for (place, item) in [(0, Some(7)), (1, Some(8)), (2, None)] {
        let list = seven_and_eight(rt.alloc())?;
        assert!(rt; list.get(place).copied() == item, "at {place}");
        assert!(rt; list.as_slice().get(place).copied() == item && list.len() == 2);
    }
    Ok(())
}

/// Whether the automatic label of a place is this text: by the label, and by its bytes.
fn is_automatic(alloc: Global, place: u32, text: &str) -> Result<(bool, bool), AllocError> {
    let label = Label::automatic(alloc, place)?;
    let written = Label::from_bytes(Vec::from_slice(alloc, text.as_bytes())?);
    Ok((label.is_same(&written), label.as_bytes() == text.as_bytes()))
}

#[test]
fn an_automatic_label_is_its_place(rt: HostRuntime) -> Result<(), Fail> {
    for (place, text, same) in [
        (0, "_0", true),
        (10, "_10", true),
        (4095, "_4095", true),
        (1, "_11", false),
        (11, "_1", false),
        (0, "_", false),
        (0, "", false),
    ] {
        let found = is_automatic(rt.alloc(), place, text)?;
        assert!(rt; found == (same, same), "{place} and {text}");
    }
    Ok(())
}

/// The number that some names give a further one, which is put behind them where it isn't there yet, and
/// then its place and how many there are; none where there are many.
fn number_in(
    alloc: Global,
    names: &mut Names,
    name: &str,
) -> Result<Option<(VarId, Option<usize>, usize)>, AllocError> {
    if names.len() > 9 {
        return Ok(None);
    }
    let number = names.add(Vec::from_slice(alloc, name.as_bytes())?)?;
    Ok(Some((number, names.place(name.as_bytes()), names.len())))
}

#[test]
fn names_are_numbered_in_the_order_of_first_mention(rt: HostRuntime) -> Result<(), Fail> {
    let mut names = Names::new(rt.alloc());
    for (name, number, place, count) in [
        ("b", 0, 0, 1),
        ("a", 1, 1, 2),
        ("b", 0, 0, 2),
        ("ab", 2, 2, 3),
        ("a", 1, 1, 3),
    ] {
        let found = number_in(rt.alloc(), &mut names, name)?;
        assert!(rt;
            found == Some((VarId(number), Some(place), count)),
            "of {name}"
        );
    }
    assert!(rt; names.place(b"abc").is_none());
    for (place, name) in [(1, Some(&b"a"[..])), (2, Some(&b"ab"[..])), (3, None)] {
        assert!(rt; names.get(place) == name, "at {place}");
    }
    Ok(())
}

#[test]
fn labels_stand_once_in_the_order_of_their_places(rt: HostRuntime) -> Result<(), Fail> {
    let mut labels = Labels::new(rt.alloc());
    for (label, is_new, place) in [("b", true, 0), ("a", true, 1), ("b", false, 0)] {
        let put = labels.add(Vec::from_slice(rt.alloc(), label.as_bytes())?)?;
        assert!(rt;
            put == is_new && labels.place(label.as_bytes()) == Some(place),
            "of {label}"
        );
    }
    assert!(rt; labels.place(b"ab").is_none());
    Ok(())
}

#[test]
fn traps_have_their_numbers(rt: HostRuntime) {
    for (trap, number) in [
        (Trap::BadType, 1),
        (Trap::Overflow, 2),
        (Trap::ZeroDivisor, 3),
        (Trap::Bounds, 4),
        (Trap::NotFunction, 5),
        (Trap::ArgCount, 6),
        (Trap::HeapFull, 7),
        (Trap::InputEnd, 8),
        (Trap::OutputFull, 9),
    ] {
        assert!(rt; trap.number() == number, "{trap:?}");
    }
}
