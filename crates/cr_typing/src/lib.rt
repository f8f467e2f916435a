//! The members of structures and unions, the types of expressions, and what stands at a place of an initialiser
//! (C11 6.7.2.1, 6.5, 6.7.9).
#![tactic(auto)]

mod expressions;
mod fault;
mod initialisers;
mod members;
mod record_members;
#[cfg(test)]
mod tests;
mod typing;

pub use expressions::Op;
pub use fault::TypeFault;
pub use initialisers::{Desig, InitList, ItemKind};
pub use members::{MemberData, MemberNo, Named};
pub use typing::Typing;
