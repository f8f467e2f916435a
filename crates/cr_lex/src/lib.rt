//! From the bytes of a file to preprocessing tokens (C11 5.1.1.2, phases 1 to 3; 6.4).
#![tactic(auto)]

mod cell;
mod fault;
mod kind;
mod laws;
mod lexer;
mod literal;
mod part;
mod punctuator;
mod scan;
mod spelling;
mod spot;
mod text;

pub use fault::{LexFault, LexStep, Lexed};
pub use kind::token_kind;
pub use laws::{renaming_keeps_lexing, tokens_stand_in_order};
pub use lexer::{Lexer, lex};
pub use spelling::is_unspellable;

#[cfg(test)]
mod tests;
