//! Why an event isn't bound.
use cr_base::{IllCause, Place};

/// Why an event isn't bound.
#[derive(Clone, Copy, Debug, PartialEq, Eq)]
pub enum SemaFault {
    /// The unit is ill-formed: the cause, and the place of the token where it is.
    Ill(IllCause, Place),
    OutOfMemory,
}
