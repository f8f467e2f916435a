//! Which declarations can't be renamed, since one mention would change its meaning (C11 6.2.1, 6.2.2).
#![tactic(auto)]

ghost use Rattle.std.specs.Prelude.{◌↔◌, Contains, IfOk};
ghost use Rattle.cr_capture.specs.Conflicts.{Pair, IsConflict, IsVisible};

mod finding;
mod law;
#[cfg(test)]
mod tests;

use cr_base::{Name, OutOfMemory};
use cr_scope::{DeclNo, Scopes, Space};
pub use law::{
    renaming_keeps_a_new_tag, renaming_keeps_an_ask, renaming_keeps_linkage, renaming_keeps_lookup,
};
use std::alloc::Global;

/// What may change its meaning by a renaming. Each has a token.
#[derive(Clone, Copy, Debug, PartialEq, Eq)]
pub enum Mention {
    /// An identifier that is looked up in a name space, and the declaration that it denotes; none for a tag that the
    /// mention itself declares. A declaration that takes internal linkage from a visible one mentions that one.
    Named(Space, Name, u32, Option<DeclNo>),
    /// An identifier of which it was asked whether it is a typedef name, and that is none: its token declares a
    /// parameter, or else denotes what is built in.
    Asked(Name, u32, bool),
    /// A declaration that is made.
    Declared(DeclNo),
}

/// The conflicts of a mention, where `old` is renamed to `new`: each declaration of `old` whose new name would change
/// what is mentioned, with the token where that is seen.
///
/// The declaration in the mention is visible, and a tag that it declares is declared already. In place of a
/// declaration, None stands for the parameter that an asked token declares.
pub fn conflicts(
    alloc: Global,
    scopes: &Scopes,
    what: Mention,
    old: Name,
    new: Name,
) -> Result<Vec<(Option<DeclNo>, u32)>, OutOfMemory>
    requires { IsVisible scopes.now what }
    ensures { IfOk result (λ found. (x : Pair) → Contains found.items x ↔ IsConflict scopes.now old new x what) }
{
    let mut found = Vec::new(alloc);
    finding::add_conflicts(&mut found, scopes, finding::Names { old, new }, what)?;
    Ok(found)
}
