ghost use Rattle.std.specs.Prelude.{◌≡◌, IfOk};
ghost use Rattle.laws_printing.specs.Bundles.{bundle_lines};
ghost use Rattle.laws_printing.specs.Text.{text_of};

use crate::bodies::put_bodies;
use crate::names::function_name;
use sour_bundle::Bundle;
use std::alloc::{AllocError, Global};

/// The text of a bundle.
pub fn print_bundle(alloc: Global, bundle: &Bundle) -> Result<Vec<u8>, AllocError>
    ensures { IfOk result (λ bytes. bytes.items
        ≡ text_of (bundle_lines bundle.now.program.functions bundle.now.view.function
        bundle.now.view.bodies)) }
{
    let functions = bundle.program().functions();
    let mut text = Vec::new(alloc);
    text.extend_from_slice(b"bundle ")?;
    text.extend_from_slice(function_name(functions, bundle.function()))?;
    text.extend_from_slice(b"\n")?;
    put_bodies(&mut text, functions, bundle.bodies())?;
    text.extend_from_slice(b"end\n")?;
    Ok(text)
}
