//! What is known of the conditionals of a file (C11 6.10.1).
use cr_base::Place;

/// The word of a conditional directive.
#[derive(Clone, Copy, Debug, PartialEq, Eq)]
pub enum Word {
    If,
    Ifdef,
    Ifndef,
    Elif,
    Else,
    Endif,
}

/// The group of an open conditional that is read: the one that is taken, one before it, or one behind it.
#[derive(Clone, Copy, Debug, PartialEq, Eq)]
pub enum Group {
    Taken,
    Before,
    Past,
}

/// A conditional that isn't closed: the place of the `#` of its `if`, its group, and whether `else` was
/// there.
#[derive(Clone, Copy, Debug)]
pub struct OpenIf {
    pub hash: Place,
    pub group: Group,
    pub in_else: bool,
}
