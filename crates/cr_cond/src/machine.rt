//! Reading an expression from left to right, with a stack of what is open.
ghost use Rattle.std.specs.Prelude.{◌≡◌, IfOk};
ghost use Rattle.cr_cond.specs.Symbols as symbols;
ghost use Rattle.cr_cond.specs.Machine as spec;
ghost use Rattle.cr_cond.specs.Machine.{parts, reduced, at_colon, at_close};

use crate::CondFault;
use crate::part::{closed, leaf};
use crate::stack::Stack;
use crate::symbol::{Op, Sign, Symbol, Value};
use cr_base::OutOfMemory;

// What is known of a part of an expression: its type, whether each operand is a constant, and its value.
#[derive(Clone, Copy)]
pub struct Part {
    pub unsigned: bool,
    pub constants: bool,
    pub value: Result<Value, CondFault>,
}

// What is open before an operand.
#[derive(Clone, Copy)]
pub enum Frame<T> {
    Sign(Sign),
    Left(Op, T),
    Bracket,
    // an operand and `?`
    Test(T),
    // an operand, `?`, an operand and `:`
    Middle(T, T),
}

// Whether an operand is waited for, or stands there, or there is no expression.
#[derive(Clone, Copy)]
pub enum Hand<T> {
    Waits,
    Holds(T),
    Refused,
}

pub fn looseness(op: Op) -> usize
    ensures { result ≡ symbols.looseness op }
{
    match op {
        Op::Or => 10,
        Op::And => 9,
        Op::BitOr => 8,
        Op::BitXor => 7,
        Op::BitAnd => 6,
        Op::Equal | Op::Unequal => 5,
        Op::Less | Op::Greater | Op::AtMost | Op::AtLeast => 4,
        Op::Left | Op::Right => 3,
        Op::Add | Op::Subtract => 2,
        Op::Times | Op::Divide | Op::Remainder => 1,
    }
}

// How loosely what a frame is open for binds.
pub fn level(frame: Frame<Part>) -> usize
    ensures { result ≡ spec.level frame }
{
    match frame {
        Frame::Sign(_) => 0,
        Frame::Left(op, _) => looseness(op),
        Frame::Middle(_, _) => 11,
        Frame::Bracket | Frame::Test(_) => 12,
    }
}

// Closes the frames that bind at most so loosely.
fn reduce(stack: &mut Stack, limit: usize, part: Part) -> Part
    ensures { reduced parts limit part stack.old ≡ (stack.new, result) }
{
    let mut part = part;
    while let Some(frame) = stack.pop_shut(limit) {
        part = closed(part, frame);
    }
    part
}

fn open(stack: &mut Stack, frame: Frame<Part>) -> Result<Hand<Part>, OutOfMemory>
    ensures { IfOk result (λ hand. spec.state_of stack.new hand ≡ spec.pushed frame stack.old) }
{
    stack.push(frame)?;
    Ok(Hand::Waits)
}

fn step_waiting(stack: &mut Stack, symbol: Symbol) -> Result<Hand<Part>, OutOfMemory>
    ensures { IfOk result (λ hand. spec.state_of stack.new hand ≡ spec.waited parts stack.old symbol) }
{
    match symbol {
        Symbol::Operand(value) => Ok(Hand::Holds(leaf(value))),
        Symbol::Prefix(sign) => open(stack, Frame::Sign(sign)),
        Symbol::Open => open(stack, Frame::Bracket),
        _ => Ok(Hand::Refused),
    }
}

fn step_colon(stack: &mut Stack, part: Part) -> Result<Hand<Part>, OutOfMemory>
    ensures { IfOk result (λ hand. spec.state_of stack.new hand ≡ at_colon part stack.old) }
{
    match stack.pop() {
        None => Ok(Hand::Refused),
        Some(frame) => match frame {
            Frame::Test(test) => open(stack, Frame::Middle(test, part)),
            _ => Ok(Hand::Refused),
        },
    }
}

fn step_close(stack: &mut Stack, part: Part) -> Hand<Part>
    ensures { spec.state_of stack.new result ≡ at_close part stack.old }
{
    match stack.pop() {
        None => Hand::Refused,
        Some(frame) => match frame {
            Frame::Bracket => Hand::Holds(part),
            _ => Hand::Refused,
        },
    }
}

fn step_holding(stack: &mut Stack, part: Part, symbol: Symbol) -> Result<Hand<Part>, OutOfMemory>
    ensures { IfOk result (λ hand. spec.state_of stack.new hand ≡ spec.held parts stack.old part symbol) }
{
    match symbol {
        Symbol::Infix(op) => {
            let left = reduce(stack, looseness(op), part);
            let hand = open(stack, Frame::Left(op, left))?;
            Ok(hand)
        }
        Symbol::Question => {
            let test = reduce(stack, 10, part);
            let hand = open(stack, Frame::Test(test))?;
            Ok(hand)
        }
        Symbol::Colon => {
            let middle = reduce(stack, 11, part);
            let hand = step_colon(stack, middle)?;
            Ok(hand)
        }
        Symbol::Close => {
            let inner = reduce(stack, 11, part);
            Ok(step_close(stack, inner))
        }
        _ => Ok(Hand::Refused),
    }
}

pub fn step(stack: &mut Stack, hand: Hand<Part>, symbol: Symbol) -> Result<Hand<Part>, OutOfMemory>
    ensures { IfOk result (λ next. spec.state_of stack.new next ≡ spec.step parts symbol stack.old hand) }
{
    match hand {
        Hand::Waits => step_waiting(stack, symbol),
        Hand::Holds(part) => step_holding(stack, part, symbol),
        Hand::Refused => Ok(Hand::Refused),
    }
}

// What was read, at the end.
pub fn finish(stack: Stack, hand: Hand<Part>) -> Option<Part>
    ensures { result ≡ spec.finished parts stack hand }
{
    match hand {
        Hand::Holds(part) => {
            let mut stack = stack;
            let whole = reduce(&mut stack, 11, part);
            if stack.is_empty() { Some(whole) } else { None }
        }
        _ => None,
    }
}
