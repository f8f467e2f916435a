//! The laws that a renaming keeps macro expansion.
#![tactic(auto)]

ghost use Rattle.cr_expand_law.specs.Renaming.{KeepsExpansion};
ghost use Rattle.cr_expand_law.specs.Uses.{KeepsUses};
ghost use Rattle.cr_expand_law.specs.Origins.{KeepsOrigins, UsesKeepOrigins};

/// A renaming of identifiers at some places keeps what a list of preprocessing tokens expands to
/// (C11 6.10.3), where the new name is not reserved, names no macro and captures no parameter, and
/// the identifiers renamed become no macro's name, string or paste. Places are those afterwards.
///
/// It does nothing: its contract is the law.
pub fn renaming_keeps_expansion()
    ensures { KeepsExpansion }
{}

/// The same of each use of a rule of expansion.
///
/// It does nothing: its contract is the law.
pub fn renaming_keeps_each_use()
    ensures { KeepsUses }
{}

/// The tokens that a list of preprocessing tokens expands to come, with their kinds and spellings,
/// from the list, from the bodies of macros, or are made. So do those that a use of a rule puts in.
///
/// It does nothing: its contract is the law.
pub fn expansion_keeps_origins()
    ensures lists { KeepsOrigins }
    ensures uses { UsesKeepOrigins }
{}
