//! What is kept of a record and of its members.
use cr_base::Name;
use cr_types::{RecNo, TypeNo};
use cr_typing::MemberNo;

/// A structure or union: the first token that declares its tag, or its brace where it has none, and which of the two it is.
#[derive(Clone, Copy, Debug, PartialEq, Eq)]
pub struct RecordRow {
    pub token: u32,
    pub is_union: bool,
}

/// What a name selects in a record: a member that is written in it, or in an anonymous record of it (C11 6.7.2.1p13).
#[derive(Clone, Copy, Debug, PartialEq, Eq)]
pub struct Selector {
    pub holder: RecNo,
    pub member: MemberNo,
}

/// A member that a name selects in the record `holder`. It is written in the record `own`, as number `place` of those that
/// are written there.
#[derive(Clone, Copy, Debug, PartialEq, Eq)]
pub struct Member {
    pub holder: RecNo,
    pub own: RecNo,
    pub place: usize,
    pub token: u32,
    pub ty: TypeNo,
    pub name: Name,
}

/// A member that is selected: the token that declares it, and its type.
#[derive(Clone, Copy, Debug, PartialEq, Eq)]
pub struct Selected {
    pub token: u32,
    pub ty: TypeNo,
}
