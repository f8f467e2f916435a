//! Which operator a token is.
ghost use Rattle.std.specs.Prelude.{◌≡◌, true};
ghost use Rattle.cr_typing.specs.ExpressionTypes.{is_binary, is_unary};
ghost use Rattle.cr_binding.specs.Expressions.{operator_among, binary_operators, unary_operators, postfix_operators, is_offset, is_arrow};
ghost use Rattle.cr_operands.specs.Kept.{is_postfix, is_index, form_of};

use cr_grammar::NonTerm;
use cr_typing::Op;

// How the operator of a node stands to its operands.
#[derive(Clone, Copy)]
pub enum Form {
    Comma,
    Assignment,
    Conditional,
    Cast,
    Prefix,
    Postfix,
    Primary,
    Infix,
}

pub fn form_of(node: NonTerm) -> Form
    ensures { result ≡ form_of node }
{
    match node {
        NonTerm::ExprMore => Form::Comma,
        NonTerm::AssTail => Form::Assignment,
        NonTerm::CondTail => Form::Conditional,
        NonTerm::CastTail => Form::Cast,
        NonTerm::Unary => Form::Prefix,
        NonTerm::PostTail => Form::Postfix,
        NonTerm::Primary => Form::Primary,
        _ => Form::Infix,
    }
}

// Whether an operator behind its operand takes a second one.
pub fn is_index(of: Op) -> bool
    ensures { result ≡ is_index of }
{
    matches!(of, Op::Index)
}

// The operator between two operands, by its token's text.
pub fn binary_operator(text: &[u8]) -> Op
    ensures op { result ≡ operator_among binary_operators text.now }
    ensures binary { is_binary result ≡ true }
{
    if text == b"+".as_slice() {
        Op::Plus
    } else if text == b"-".as_slice() {
        Op::Minus
    } else {
        Op::Other
    }
}

// The operator in front of an operand.
pub fn unary_operator(text: &[u8]) -> Op
    ensures op { result ≡ operator_among unary_operators text.now }
    ensures unary { is_unary result ≡ true }
{
    if text == b"&".as_slice() {
        Op::Address
    } else if text == b"*".as_slice() {
        Op::Deref
    } else if text == b"++".as_slice() || text == b"--".as_slice() {
        Op::Step
    } else {
        Op::Other
    }
}

// The operator behind an operand.
pub fn postfix_operator(text: &[u8]) -> Op
    ensures op { result ≡ operator_among postfix_operators text.now }
    ensures postfix { is_postfix result ≡ true }
{
    if text == b"[".as_slice() || text == b"<:".as_slice() {
        Op::Index
    } else if text == b"(".as_slice() {
        Op::Call
    } else if text == b"++".as_slice() || text == b"--".as_slice() {
        Op::Step
    } else {
        Op::Other
    }
}

pub fn is_offset(text: &[u8]) -> bool
    ensures { result ≡ is_offset text.now }
{
    text == b"__builtin_offsetof".as_slice()
}

/// Whether a member is selected by an arrow, by the text of the operator (C11 6.5.2.3).
pub fn is_arrow(text: &[u8]) -> bool
    ensures { result ≡ is_arrow text.now }
{
    text == b"->".as_slice()
}
