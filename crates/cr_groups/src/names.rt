//! The two names of a renaming.
ghost use Rattle.std.specs.Prelude.{◌≡◌, ◌↔◌, IsTrue};
ghost use Rattle.cr_groups.specs.Rows.{IsOneOf};

use cr_base::Name;

/// The name that an entity has, and the one that it would have.
#[derive(Clone, Copy, Debug, PartialEq, Eq)]
pub struct Names {
    pub old: Name,
    pub new: Name,
}

/// Whether two names are the same.
pub fn is_same(a: Name, b: Name) -> bool
    ensures { IsTrue result ↔ (a ≡ b) }
{
    a.0 == b.0
}

/// Whether a name is one of the two.
pub fn is_one_of(names: Names, name: Name) -> bool
    ensures { IsTrue result ↔ IsOneOf names.old names.new name }
{
    is_same(name, names.old) || is_same(name, names.new)
}
