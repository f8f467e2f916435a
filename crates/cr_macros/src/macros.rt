//! Macros, and what identifiers are taken for.
use cr_base::{List, Name, Place, PpTok, Role};

/// A macro (C11 6.10.3): object-like where `params` is `None`. `variadic` says that `...` stands
/// behind the parameters. The body's tokens are those of the `define` line.
#[derive(Drop)]
pub struct Macro {
    pub name: Name,
    pub params: Option<List<Name>>,
    pub variadic: bool,
    pub body: List<PpTok>,
}

/// What an identifier at a place is taken for, once.
#[derive(Clone, Copy, Debug, PartialEq, Eq, PartialOrd, Ord, Hash)]
pub struct Seen {
    pub place: Place,
    pub role: Role,
}
