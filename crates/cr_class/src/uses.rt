//! Uses of a name at places.

use cr_base::{Place, Role};

/// What a name at a place is taken for.
#[derive(Clone, Copy, Debug, PartialEq, Eq)]
pub struct Use {
    pub place: Place,
    pub role: Role,
}
