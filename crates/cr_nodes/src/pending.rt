//! What is known of the alternatives of the next node.

// Those before a number are refused; or that one waits for the reply to an ask; or it is taken.
#[derive(Clone, Copy, Debug, PartialEq, Eq)]
pub enum Pending {
    From(usize),
    Waits(usize),
    Takes(usize),
}
