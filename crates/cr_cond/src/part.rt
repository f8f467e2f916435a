//! What is known of the parts of an expression.
ghost use Rattle.std.specs.Prelude.{◌≡◌};
ghost use Rattle.cr_cond.specs.Value as values;
ghost use Rattle.cr_cond.specs.Machine as spec;
ghost use Rattle.cr_cond.specs.Machine.{parts, part_leaf, part_signed, part_binary, part_choice};

use crate::CondFault;
use crate::arithmetic::{as_type, computed, is_zero, with_sign};
use crate::machine::{Frame, Part};
use crate::symbol::{Op, Sign, Value};

// Whether an operator gives an unsigned value for operands that are so or not.
fn is_unsigned_by(a: bool, b: bool, op: Op) -> bool
    ensures { result ≡ values.is_unsigned_by a b op }
{
    match op {
        Op::Left | Op::Right => a,
        Op::Or | Op::And | Op::Equal | Op::Unequal => false,
        Op::Less | Op::Greater | Op::AtMost | Op::AtLeast => false,
        _ => a || b,
    }
}

fn is_unsigned_sign(a: bool, sign: Sign) -> bool
    ensures { result ≡ values.is_unsigned_sign a sign }
{
    match sign {
        Sign::Not => false,
        _ => a,
    }
}

fn is_unsigned_leaf(value: Option<Value>) -> bool
    ensures { result ≡ values.is_unsigned_leaf value }
{
    matches!(value, Some(Value::Unsigned(_)))
}

fn computed_or_fault(a: Value, b: Result<Value, CondFault>, op: Op) -> Result<Value, CondFault>
    ensures { result ≡ values.and_then b (λ y. values.computed a y op) }
{
    computed(a, b?, op)
}

// The right operand's fault counts only where its value is wanted.
fn by_left(a: Value, b: Result<Value, CondFault>, op: Op) -> Result<Value, CondFault>
    ensures { result ≡ values.by_left a b op }
{
    match op {
        Op::Or => {
            if is_zero(a) {
                computed_or_fault(a, b, Op::Or)
            } else {
                Ok(Value::Signed(1))
            }
        }
        Op::And => {
            if is_zero(a) {
                Ok(Value::Signed(0))
            } else {
                computed_or_fault(a, b, Op::And)
            }
        }
        _ => computed_or_fault(a, b, op),
    }
}

pub fn leaf(value: Option<Value>) -> Part
    ensures { result ≡ part_leaf value }
{
    Part {
        unsigned: is_unsigned_leaf(value),
        constants: value.is_some(),
        value: value.ok_or(CondFault::Constant),
    }
}

fn signed_value(a: Result<Value, CondFault>, sign: Sign) -> Result<Value, CondFault>
    ensures { result ≡ values.and_then a (λ x. values.with_sign x sign) }
{
    with_sign(a?, sign)
}

fn signed(sign: Sign, a: Part) -> Part
    ensures { result ≡ part_signed sign a }
{
    Part {
        unsigned: is_unsigned_sign(a.unsigned, sign),
        constants: a.constants,
        value: signed_value(a.value, sign),
    }
}

fn binary_value(
    a: Result<Value, CondFault>,
    b: Result<Value, CondFault>,
    op: Op,
) -> Result<Value, CondFault>
    ensures { result ≡ values.and_then a (λ x. values.by_left x b op) }
{
    by_left(a?, b, op)
}

fn binary(op: Op, a: Part, b: Part) -> Part
    ensures { result ≡ part_binary op a b }
{
    Part {
        unsigned: is_unsigned_by(a.unsigned, b.unsigned, op),
        constants: a.constants && b.constants,
        value: binary_value(a.value, b.value, op),
    }
}

fn typed(unsigned: bool, a: Result<Value, CondFault>) -> Result<Value, CondFault>
    ensures { result ≡ values.and_then a (λ x. values.typed unsigned x) }
{
    Ok(as_type(unsigned, a?))
}

fn chosen(test: Value, a: Part, b: Part) -> Result<Value, CondFault>
    ensures { result ≡ spec.chosen a b test }
{
    let value = if is_zero(test) { b.value } else { a.value };
    typed(a.unsigned || b.unsigned, value)
}

fn choice_value(test: Result<Value, CondFault>, a: Part, b: Part) -> Result<Value, CondFault>
    ensures { result ≡ values.and_then test (spec.chosen a b) }
{
    chosen(test?, a, b)
}

fn choice(test: Part, a: Part, b: Part) -> Part
    ensures { result ≡ part_choice test a b }
{
    Part {
        unsigned: a.unsigned || b.unsigned,
        constants: test.constants && a.constants && b.constants,
        value: choice_value(test.value, a, b),
    }
}

// A frame with its last operand.
pub fn closed(part: Part, frame: Frame<Part>) -> Part
    ensures { result ≡ spec.closed parts part frame }
{
    match frame {
        Frame::Sign(sign) => signed(sign, part),
        Frame::Left(op, a) => binary(op, a, part),
        Frame::Middle(test, a) => choice(test, a, part),
        Frame::Bracket | Frame::Test(_) => part,
    }
}
