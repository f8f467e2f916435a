//! What lexing answers.
use cr_base::{List, Place, PpTok};

/// Why no more tokens are given (own rules of this project): `/*` without an end at this place, or
/// one of the nine trigraph sequences of C11 5.2.1.1 at this place, outside comments.
#[derive(Clone, Copy, Debug, PartialEq, Eq)]
pub enum LexFault {
    OpenComment(Place),
    Trigraph(Place),
}

/// The tokens up to the first fault, in order, and that fault.
#[derive(Drop)]
pub struct Lexed {
    pub tokens: List<PpTok>,
    pub fault: Option<LexFault>,
}

/// The next token, or that there is none: at the file's end, or for a fault.
#[derive(Clone, Copy, Debug, PartialEq, Eq)]
pub enum LexStep {
    Token(PpTok),
    End,
    Fault(LexFault),
}
