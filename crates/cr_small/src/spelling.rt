//! The spellings of tokens.
ghost use Rattle.std.specs.Prelude.{◌≡◌, [], slice_index_or};

use cr_base::{Name, NameTable};

/// The text of a name, or nothing where the table doesn't hold it.
pub fn spelling(names: &NameTable, name: Name) -> &[u8]
    ensures { result.now ≡ slice_index_or names.now name.0 [] }
{
    if (name.0 as usize) < names.len() {
        names.text(name)
    } else {
        b""
    }
}
