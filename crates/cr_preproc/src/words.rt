//! The text that is made from a unit's command words.
ghost use Rattle.std.specs.Prelude.{◌≡◌, IfOk};
ghost use Rattle.cr_phase4.specs.Search as spec;

use cr_base::{OutOfMemory, PathText, Unit};
use std::alloc::Global;

// The path of that text, beside all files.
pub fn words_path(alloc: Global, unit: &Unit) -> Result<PathText, OutOfMemory>
    ensures { IfOk result (λ path. path ≡ spec.words_path unit.now) }
{
    let text = format!(in alloc; "words/{}", unit.number)?;
    let path = PathText::apart(alloc, text.as_bytes())?;
    Ok(path)
}
