//! Programs, from their texts.

use crate::jobs::seen;
use sour_syntax::{FunId, Program};
use std::test::Fail;

/// An exit of `main` makes a frame at the second line of another version, and one at the third.
const TEXT: &[u8] = b"fun f(a)
ver base
return a
ver other
return 7
end
fun main()
ver fast
var x = 3
assume false else main.slow.one [y = x], main.slow.two x [y = 4]
stop
ver slow
var y = 0
one: var x = y
two: print x
stop
end
";

/// Whether a program has a function of this number with this name and so many versions.
fn has_function(program: &Program, number: u32, name: &str, versions: usize) -> bool {
    match program.function(FunId(number)) {
        Some(function) => {
            function.name.as_bytes() == name.as_bytes() && function.versions.len() == versions
        }
        None => false,
    }
}

#[test]
fn a_program_gives_its_functions(rt: HostRuntime) -> Result<(), Fail> {
    for (number, name, versions, found) in [
        (0, "f", 2, true),
        (1, "main", 2, true),
        (1, "f", 2, false),
        (2, "", 0, false),
    ] {
        let there = seen(rt.alloc(), TEXT, |job| {
            has_function(&job.program, number, name, versions)
        })?;
        assert!(rt; there == found, "function {number}");
    }
    Ok(())
}

#[test]
fn a_program_keeps_where_its_exits_lead(rt: HostRuntime) -> Result<(), Fail> {
    let main = seen(rt.alloc(), TEXT, |job| job.program.main())?;
    for (version, line, number, place) in [
        (0, 1, 0, Some(1)),
        (0, 1, 1, Some(2)),
        (0, 1, 2, None),
        (0, 2, 0, None),
        (1, 1, 0, None),
    ] {
        let found = seen(rt.alloc(), TEXT, |job| {
            job.program.exit_place(main, version, line, number)
        })?;
        assert!(rt;
            found == place,
            "version {version}, line {line}, frame {number}"
        );
    }
    Ok(())
}
