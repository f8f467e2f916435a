//! What is known of the declarations of a slot.
ghost use Rattle.std.specs.Prelude.{◌≡◌};
ghost use Rattle.std.specs.Option.{option_copied};
ghost use Rattle.cr_groups.specs.Groups.{find_group};
ghost use Rattle.cr_groups.specs.Outward.{is_of};

use cr_base::Key;
use cr_declared::Slot;
use indexmap::IndexMap;

/// The declarations of a slot, which are of one entity: the number of the first one, whether they are of a typedef name,
/// and the entity's key.
#[derive(Drop)]
pub struct Group {
    pub first: usize,
    pub is_typedef: bool,
    pub key: Key,
}

/// Which groups are meant: all, those of typedef names, or those of anything else.
#[derive(Clone, Copy, Debug, PartialEq, Eq)]
pub enum Sort {
    Any,
    Typedef,
    Other,
}

/// A slot's declarations.
pub fn group_at<'a>(groups: &'a IndexMap<Slot, Group>, slot: Slot) -> Option<&'a Group>
    ensures { option_copied result ≡ find_group slot groups.now.entries }
{
    groups.get(&slot)
}

/// Whether a group is of a sort, by whether it is of a typedef name.
pub fn is_of(is_typedef: bool, sort: Sort) -> bool
    ensures { result ≡ is_of is_typedef sort }
{
    match sort {
        Sort::Any => true,
        Sort::Typedef => is_typedef,
        Sort::Other => !is_typedef,
    }
}
