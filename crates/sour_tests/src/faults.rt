//! The first fault of the names and the scopes of a text.

use crate::jobs::checked;
use sour_scope::ScopeFault;
use sour_syntax::{Label, List};
use std::alloc::{AllocError, Global};
use std::test::Fail;

/// Puts the names of a list, each with a blank before it.
fn put_names(names: &mut Vec<u8>, list: &List<Label>) -> Result<(), AllocError> {
    for name in list.as_slice() {
        names.push(b' ')?;
        names.extend_from_slice(name.as_bytes())?;
    }
    Ok(())
}

/// The names of the two lists of a fault, with `;` between them.
fn names_of(
    alloc: Global,
    first: &List<Label>,
    second: &List<Label>,
) -> Result<Vec<u8>, AllocError> {
    let mut names = Vec::new(alloc);
    put_names(&mut names, first)?;
    names.push(b';')?;
    put_names(&mut names, second)?;
    Ok(names)
}

/// Whether the first fault of a text has this number, this line and these names.
fn has_fault(alloc: Global, text: &str, kind: u32, line: u64, names: &str) -> Result<bool, Fail> {
    match checked(alloc, text.as_bytes())? {
        Ok(_) => Ok(false),
        Err(
            ScopeFault::At {
                kind: found,
                line: place,
                first,
                second,
            },
        ) => {
            let told = names_of(alloc, &first, &second)?;
            Ok(found == kind && place == line && told.as_slice() == names.as_bytes())
        }
        Err(ScopeFault::Memory) => Err(ScopeFault::Memory.into()),
    }
}

#[test]
fn tells_the_first_fault_of_names(rt: HostRuntime) -> Result<(), Fail> {
    for (text, kind, line) in [
        ("fun main()\nver base\nstop\nver base\nstop\nend\n", 1, 4),
        ("fun main()\nver base\nprint x\ngoto out\nend\n", 2, 4),
        ("fun main()\nver base\nprint x\nend\n", 7, 3),
        ("fun main()\nver base\nend\n", 7, 2),
        ("fun f()\nver base\nstop\nend\n", 8, 1),
        (
            "fun f()\nver base\nstop\nend\nfun main(a)\nver base\nstop\nend\n",
            8,
            5,
        ),
    ] {
        assert!(rt; has_fault(rt.alloc(), text, kind, line, ";")?, "{text}");
    }
    Ok(())
}

#[test]
fn tells_the_first_fault_of_scopes(rt: HostRuntime) -> Result<(), Fail> {
    for (text, kind, line, names) in [
        ("fun main()\nver base\nprint x\nstop\nend\n", 3, 3, ";"),
        (
            "fun main()\nver base\nread x\nvar x = 1\nstop\nend\n",
            4,
            4,
            ";",
        ),
        (
            "fun main()\nver base\nvar x = 1\ngoto _0\nend\n",
            5,
            4,
            "; x",
        ),
        (
            "fun main()\nver base\nread k\nbranch k a b\na: goto c
b: var x = 1\ngoto c\nc: return 0\nend\n",
            5,
            7,
            " k; k x",
        ),
        (
            "fun f(p, q)\nver base\ndrop p\ngoto _0\nend\nfun main()\nver base\nstop\nend\n",
            5,
            4,
            " p q; q",
        ),
    ] {
        assert!(rt; has_fault(rt.alloc(), text, kind, line, names)?, "{text}");
    }
    Ok(())
}

/// What an `assume` on line 3 may leave for: at `a`, `x` and `y` are in scope, and `z` isn't.
const TARGET: &str = "\nstop\nver slow\nvar x = 1\nvar y = 2\na: var z = 3\nstop\nend\n";

#[test]
fn tells_the_first_fault_of_exits(rt: HostRuntime) -> Result<(), Fail> {
    for (exit, names) in [
        ("main.slow.a [x = 1]", " x y; x"),
        ("main.slow.a [z = 1, y = 2, x = 3]", " x y; z y x"),
        ("main.slow._0 [x = 1]", "; x"),
        ("main.slow._0 [], main.slow.a x [z = 1]", " y; z"),
        ("main.slow._0 [], main.slow.a x [y = 1, x = 2]", " y; y x"),
    ] {
        let text = format!(in rt.alloc(); "fun main()\nver base\nassume true else {exit}{TARGET}")?;
        assert!(rt;
            has_fault(rt.alloc(), text.as_str(), 6, 3, names)?,
            "{exit}"
        );
    }
    Ok(())
}
