//! The canonical text of a program.

use crate::jobs::job_of;
use sour_printing::print_program;
use std::test::Fail;

/// A text with blanks that no canonical text has, a comment and an input.
const TEXT: &[u8] = b"fun main( ) # no parameters
ver base
var x=-1
a: print x
goto a
end
%inputs
input 7
";

/// Its canonical text.
const PRINTED: &[u8] = b"fun main()
ver base
var x = -1
a: print x
goto a
end
";

#[test]
fn prints_the_program_of_a_text(rt: HostRuntime) -> Result<(), Fail> {
    let job = job_of(rt.alloc(), TEXT)?;
    let printed = print_program(rt.alloc(), &job.program)?;
    assert!(rt; printed.as_slice() == PRINTED);
    Ok(())
}
