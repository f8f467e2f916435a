//! A member of a record.
use cr_base::Name;
use cr_types::{RecNo, TypeNo};

/// The number of a member in its `Typing`.
#[derive(Clone, Copy, Debug, PartialEq, Eq)]
pub struct MemberNo(pub(crate) usize);

/// A member as it is declared: in which record, by which name, with which type and at which token. One without a name
/// is an anonymous structure or union.
#[derive(Clone, Copy, Debug, PartialEq, Eq)]
pub struct MemberData {
    pub rec: RecNo,
    pub name: Option<Name>,
    pub ty: TypeNo,
    pub token: u32,
}

/// A member with its number among those that are declared in its record.
#[derive(Clone, Copy)]
pub struct Placed {
    pub member: MemberData,
    pub place: usize,
}

/// What a name selects in a record: a member, which was declared at a token.
#[derive(Clone, Copy)]
pub struct Named {
    pub member: MemberNo,
    pub token: u32,
}
