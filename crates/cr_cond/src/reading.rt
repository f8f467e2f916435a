//! The symbols of tokens, and what is read of them.
ghost use Rattle.std.specs.Prelude.{◌≡◌, [], IfOk, false, slice_index_or};
ghost use Rattle.std.specs.List.{list_any};
ghost use Rattle.cr_cond.specs.Symbols as spec;
ghost use Rattle.cr_cond.specs.Symbols.{lexeme, lexemes, symbols};
ghost use Rattle.cr_cond.specs.Value as values;
ghost use Rattle.cr_cond.specs.Value.{value_of, numbered, IsAnswer};
ghost use Rattle.cr_cond.specs.Machine as machine;
ghost use Rattle.cr_cond.specs.Machine.{parts, run, start};

use crate::CondFault;
use crate::arithmetic::number;
use crate::constant::constant;
use crate::machine::{Hand, Part, finish, step};
use crate::stack::Stack;
use crate::symbol::{Op, Sign, Symbol, Value};
use cr_base::{Name, NameTable, OutOfMemory, PpKind, PpTok};
use std::alloc::Global;

// The punctuators that stand behind an operand.
fn behind(text: &[u8]) -> Symbol
    ensures { result ≡ spec.behind text.now }
{
    match text {
        [b'|', b'|'] => Symbol::Infix(Op::Or),
        [b'&', b'&'] => Symbol::Infix(Op::And),
        [b'|'] => Symbol::Infix(Op::BitOr),
        [b'^'] => Symbol::Infix(Op::BitXor),
        [b'&'] => Symbol::Infix(Op::BitAnd),
        [b'=', b'='] => Symbol::Infix(Op::Equal),
        [b'!', b'='] => Symbol::Infix(Op::Unequal),
        [b'<'] => Symbol::Infix(Op::Less),
        [b'>'] => Symbol::Infix(Op::Greater),
        [b'<', b'='] => Symbol::Infix(Op::AtMost),
        [b'>', b'='] => Symbol::Infix(Op::AtLeast),
        [b'<', b'<'] => Symbol::Infix(Op::Left),
        [b'>', b'>'] => Symbol::Infix(Op::Right),
        [b'+'] => Symbol::Infix(Op::Add),
        [b'-'] => Symbol::Infix(Op::Subtract),
        [b'*'] => Symbol::Infix(Op::Times),
        [b'/'] => Symbol::Infix(Op::Divide),
        [b'%'] => Symbol::Infix(Op::Remainder),
        [b'?'] => Symbol::Question,
        [b':'] => Symbol::Colon,
        [b')'] => Symbol::Close,
        _ => Symbol::Odd,
    }
}

// Those that stand before one.
fn before(text: &[u8]) -> Symbol
    ensures { result ≡ spec.before text.now }
{
    match text {
        [b'+'] => Symbol::Prefix(Sign::Plus),
        [b'-'] => Symbol::Prefix(Sign::Minus),
        [b'~'] => Symbol::Prefix(Sign::Flip),
        [b'!'] => Symbol::Prefix(Sign::Not),
        [b'('] => Symbol::Open,
        _ => Symbol::Odd,
    }
}

fn symbol(is_behind: bool, kind: PpKind, text: &[u8]) -> Symbol
    ensures { result ≡ spec.symbol is_behind kind text.now }
{
    match kind {
        PpKind::Ident => Symbol::Operand(Some(Value::Signed(0))),
        PpKind::Number | PpKind::Char => Symbol::Operand(constant(kind, text)),
        PpKind::Punct => {
            if is_behind {
                behind(text)
            } else {
                before(text)
            }
        }
        PpKind::Str | PpKind::Stray => Symbol::Odd,
    }
}

fn text_of(names: &NameTable, name: Name) -> &[u8]
    ensures { result.now ≡ slice_index_or names.now name.0 [] }
{
    if (name.0 as usize) < names.len() {
        names.text(name)
    } else {
        b""
    }
}

fn is_defined(names: &NameTable, token: PpTok) -> bool
    ensures { result ≡ values.is_defined (lexeme names.now token) }
{
    matches!(token.kind, PpKind::Ident) && text_of(names, token.text) == b"defined".as_slice()
}

fn has_defined(names: &NameTable, tokens: &[PpTok]) -> bool
    ensures { result ≡ list_any values.is_defined (lexemes names.now tokens.now) }
{
    for i in 0..tokens.len() {
        if is_defined(names, tokens[i]) {
            return true;
        }
    }
    false
}

fn is_holding(hand: Hand<Part>) -> bool
    ensures { result ≡ machine.is_holding hand }
{
    matches!(hand, Hand::Holds(_))
}

fn is_refused(hand: Hand<Part>) -> bool
    ensures { result ≡ machine.is_refused hand }
{
    matches!(hand, Hand::Refused)
}

// One token more.
fn advance(
    stack: &mut Stack,
    hand: Hand<Part>,
    names: &NameTable,
    token: PpTok,
) -> Result<Hand<Part>, OutOfMemory>
    ensures { IfOk result (λ next. machine.state_of stack.new next ≡ machine.step parts (machine.next_symbol names.now token hand) stack.old hand) }
{
    let text = text_of(names, token.text);
    let next = step(stack, hand, symbol(is_holding(hand), token.kind, text))?;
    Ok(next)
}

// What is read of the tokens, where they are an expression.
fn read(alloc: Global, names: &NameTable, tokens: &[PpTok]) -> Result<Option<Part>, OutOfMemory>
    ensures { IfOk result (λ part. part ≡ run parts start (symbols false (lexemes names.now tokens.now))) }
{
    let mut stack = Stack::new(alloc);
    let mut hand = Hand::Waits;
    for i in 0..tokens.len() {
        hand = advance(&mut stack, hand, names, tokens[i])?;
        if is_refused(hand) {
            return Ok(None);
        }
    }
    Ok(finish(stack, hand))
}

fn outcome(part: Option<Part>) -> Result<Value, CondFault>
    ensures { result ≡ machine.by_part part }
{
    match part {
        None => Err(CondFault::Syntax),
        Some(part) => {
            if part.constants {
                part.value
            } else {
                Err(CondFault::Constant)
            }
        }
    }
}

fn as_number(value: Result<Value, CondFault>) -> Result<i128, CondFault>
    ensures { result ≡ numbered value }
{
    Ok(number(value?))
}

/// The value of the tokens of an `#if` or `#elif` line in which macros were expanded and `defined` was
/// answered (C11 6.10.1): an integer constant expression in which every identifier is 0, in 64 bits.
///
/// `MadeDefined` stands exactly where an identifier `defined` is left. Then comes `Syntax`, where the
/// tokens are no conditional expression without assignment, comma and cast; then `Constant`, where an
/// operand is a constant that is neither an integer that has 64 bits nor a character below 128; then
/// the first fault in evaluation, left before right: `DivideByZero`, or `Overflow` for a signed result
/// out of range, for a shift by less than 0 or more than 63, and for a left shift of a negative
/// number. Operands that `&&`, `||` and `?:` don't evaluate give no fault in evaluation.
pub fn value(alloc: Global, names: &NameTable, tokens: &[PpTok]) -> Result<i128, CondFault>
    ensures { IsAnswer (numbered (value_of (lexemes names.now tokens.now))) result }
{
    if has_defined(names, tokens) {
        return Err(CondFault::MadeDefined);
    }
    let part = read(alloc, names, tokens)?;
    as_number(outcome(part))
}
