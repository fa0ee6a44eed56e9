ghost use Rattle.std.specs.Prelude.{◌≡◌, [], IfOk};
ghost use Rattle.sour_checked.specs.Checked.{IsChecked};
ghost use Rattle.sour_raw.specs.Reads.{Reads};
ghost use Rattle.laws_printing.specs.Named.{raw_of};
ghost use Rattle.laws_printing.specs.Pieces.{job_lines};
ghost use Rattle.laws_printing.specs.Text.{text_of};

use crate::functions::put_functions;
use sour_syntax::Program;
use std::alloc::{AllocError, Global};

/// The canonical text of a program. It reads and checks as this very program, without a plan and
/// without inputs.
pub fn print_program(alloc: Global, program: &Program) -> Result<Vec<u8>, AllocError>
    ensures text { IfOk result (λ bytes. bytes.items ≡ text_of (job_lines (raw_of program.now))) }
    ensures reads { IfOk result (λ bytes. Reads bytes.items (raw_of program.now)) }
    ensures checked { IsChecked (raw_of program.now) program.now [] [] }
{
    let mut text = Vec::new(alloc);
    put_functions(&mut text, program.functions())?;
    Ok(text)
}
