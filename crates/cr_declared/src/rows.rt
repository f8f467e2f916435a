//! Declarations and uses as rows, with the paths of their scopes by number.

use cr_base::Name;
use cr_scope::{Decl, Space};

/// A declaration, with the number of its scope's path.
#[derive(Clone, Copy, Debug, PartialEq, Eq)]
pub struct Row {
    pub path: usize,
    pub decl: Decl,
}

/// A name in a name space of one scope: the number of the scope's path, the space and the name.
#[derive(Clone, Copy, Debug, PartialEq, Eq, Hash)]
pub struct Slot {
    pub path: usize,
    pub space: Space,
    pub name: Name,
}

/// What an identifier does that isn't the declaration of a name, and what was asked of it. Tokens are numbers of a unit's
/// tokens from 0, paths numbers of `Paths`, and declarations are counted in the order in which they were made.
#[derive(Clone, Copy, Debug, PartialEq, Eq)]
pub enum UseRow {
    /// The name at a token is looked up in a name space, in the scope of a path, behind a number of declarations. It denotes
    /// one of them, or none.
    LookedUp(Space, u32, usize, usize, Option<usize>),
    /// The name at a token goes to the declaration of a label.
    GoesTo(u32, usize),
    /// The name at a token selects the member that is declared at another.
    Selects(u32, u32),
    /// The name at a token is what the compiler supplies.
    IsBuiltIn(u32),
    /// The name at a token is that of a parameter.
    IsParameter(u32),
    /// Whether the name at a token is a typedef name was asked, in the scope of a path, behind a number of declarations, and
    /// answered.
    WasAsked(u32, usize, usize, bool),
}
