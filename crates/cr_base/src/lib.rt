//! What every other crate names: want of memory, lists, texts, paths, names, tokens and keys.
#![tactic(auto)]

mod cause;
mod identifiers;
mod key;
mod list;
mod memory;
mod name_table;
mod path;
mod substitution;
mod text;
mod token;
mod unit;

pub use cause::{IllCause, Role};
pub use identifiers::{
    is_digit, is_identifier, is_keyword, is_letter, is_reserved, is_word_byte, starts_name,
};
pub use key::{Key, Kind, RecordKey, TagKind};
pub use list::List;
pub use memory::OutOfMemory;
pub use name_table::{NameTable, texts_stay_distinct};
pub use path::PathText;
pub use substitution::shifted_places_are_where_the_bytes_went;
pub use text::Text;
pub use token::{Name, Origin, PathNo, Place, PpKind, PpTok, Tok, TokKind};
pub use unit::Unit;

#[cfg(test)]
mod tests;
