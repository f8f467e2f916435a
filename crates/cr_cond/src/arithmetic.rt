//! Values of 64 bits.
ghost use Rattle.std.specs.Prelude.{◌≡◌, ◌<◌, ◌^◌, IfSome, bit_and, bit_or, bit_xor};
ghost use Rattle.cr_cond.specs.Value as spec;
ghost use Rattle.cr_cond.specs.Value.{truth, converted};

use crate::CondFault;
use crate::symbol::{Op, Sign, Value};

// Two operands of one type.
#[derive(Clone, Copy)]
pub enum Operands {
    BothSigned(i64, i64),
    BothUnsigned(u64, u64),
}

pub fn is_zero(a: Value) -> bool
    ensures { result ≡ spec.is_zero a }
{
    match a {
        Value::Signed(x) => x == 0,
        Value::Unsigned(x) => x == 0,
    }
}

fn bits(a: Value) -> u64
    ensures { result ≡ spec.bits a }
{
    match a {
        Value::Signed(x) => x.cast_unsigned(),
        Value::Unsigned(x) => x,
    }
}

fn truth_of(b: bool) -> Result<Value, CondFault>
    ensures { result ≡ truth b }
{
    Ok(Value::Signed(if b { 1 } else { 0 }))
}

fn usual(a: Value, b: Value) -> Operands
    ensures { result ≡ converted a b }
{
    match (a, b) {
        (Value::Signed(x), Value::Signed(y)) => Operands::BothSigned(x, y),
        (Value::Signed(x), Value::Unsigned(y)) => Operands::BothUnsigned(x.cast_unsigned(), y),
        (Value::Unsigned(x), Value::Signed(y)) => Operands::BothUnsigned(x, y.cast_unsigned()),
        (Value::Unsigned(x), Value::Unsigned(y)) => Operands::BothUnsigned(x, y),
    }
}

fn in_range(x: Option<i64>) -> Result<Value, CondFault>
    ensures { result ≡ spec.in_range x }
{
    match x {
        Some(x) => Ok(Value::Signed(x)),
        None => Err(CondFault::Overflow),
    }
}

fn sum(operands: Operands) -> Result<Value, CondFault>
    ensures { result ≡ spec.sum operands }
{
    match operands {
        Operands::BothSigned(x, y) => in_range(x.checked_add(y)),
        Operands::BothUnsigned(x, y) => Ok(Value::Unsigned(x.wrapping_add(y))),
    }
}

fn difference(operands: Operands) -> Result<Value, CondFault>
    ensures { result ≡ spec.difference operands }
{
    match operands {
        Operands::BothSigned(x, y) => in_range(x.checked_sub(y)),
        Operands::BothUnsigned(x, y) => Ok(Value::Unsigned(x.wrapping_sub(y))),
    }
}

fn product(operands: Operands) -> Result<Value, CondFault>
    ensures { result ≡ spec.product operands }
{
    match operands {
        Operands::BothSigned(x, y) => in_range(x.checked_mul(y)),
        Operands::BothUnsigned(x, y) => Ok(Value::Unsigned(x.wrapping_mul(y))),
    }
}

fn signed_quotient(x: i64, y: i64) -> Result<Value, CondFault>
    ensures { result ≡ spec.quotient (spec.signed_operands x y) }
{
    if y == 0 {
        Err(CondFault::DivideByZero)
    } else {
        in_range(x.checked_div(y))
    }
}

fn unsigned_quotient(x: u64, y: u64) -> Result<Value, CondFault>
    ensures { result ≡ spec.quotient (spec.unsigned_operands x y) }
{
    if y == 0 {
        Err(CondFault::DivideByZero)
    } else {
        Ok(Value::Unsigned(x / y))
    }
}

fn quotient(operands: Operands) -> Result<Value, CondFault>
    ensures { result ≡ spec.quotient operands }
{
    match operands {
        Operands::BothSigned(x, y) => signed_quotient(x, y),
        Operands::BothUnsigned(x, y) => unsigned_quotient(x, y),
    }
}

fn signed_remainder(x: i64, y: i64) -> Result<Value, CondFault>
    ensures { result ≡ spec.remainder (spec.signed_operands x y) }
{
    if y == 0 {
        Err(CondFault::DivideByZero)
    } else {
        Ok(Value::Signed(x.wrapping_rem(y)))
    }
}

fn unsigned_remainder(x: u64, y: u64) -> Result<Value, CondFault>
    ensures { result ≡ spec.remainder (spec.unsigned_operands x y) }
{
    if y == 0 {
        Err(CondFault::DivideByZero)
    } else {
        Ok(Value::Unsigned(x % y))
    }
}

fn remainder(operands: Operands) -> Result<Value, CondFault>
    ensures { result ≡ spec.remainder operands }
{
    match operands {
        Operands::BothSigned(x, y) => signed_remainder(x, y),
        Operands::BothUnsigned(x, y) => unsigned_remainder(x, y),
    }
}

fn bit_or(operands: Operands) -> Result<Value, CondFault>
    ensures { result ≡ spec.by_bits bit_or operands }
{
    match operands {
        Operands::BothSigned(x, y) => Ok(Value::Signed(x | y)),
        Operands::BothUnsigned(x, y) => Ok(Value::Unsigned(x | y)),
    }
}

fn bit_xor(operands: Operands) -> Result<Value, CondFault>
    ensures { result ≡ spec.by_bits bit_xor operands }
{
    match operands {
        Operands::BothSigned(x, y) => Ok(Value::Signed(x ^ y)),
        Operands::BothUnsigned(x, y) => Ok(Value::Unsigned(x ^ y)),
    }
}

fn bit_and(operands: Operands) -> Result<Value, CondFault>
    ensures { result ≡ spec.by_bits bit_and operands }
{
    match operands {
        Operands::BothSigned(x, y) => Ok(Value::Signed(x & y)),
        Operands::BothUnsigned(x, y) => Ok(Value::Unsigned(x & y)),
    }
}

fn is_equal(operands: Operands) -> bool
    ensures { result ≡ spec.is_equal operands }
{
    match operands {
        Operands::BothSigned(x, y) => x == y,
        Operands::BothUnsigned(x, y) => x == y,
    }
}

fn is_less(operands: Operands) -> bool
    ensures { result ≡ spec.is_less operands }
{
    match operands {
        Operands::BothSigned(x, y) => x < y,
        Operands::BothUnsigned(x, y) => x < y,
    }
}

fn is_at_most(operands: Operands) -> bool
    ensures { result ≡ spec.is_at_most operands }
{
    match operands {
        Operands::BothSigned(x, y) => x <= y,
        Operands::BothUnsigned(x, y) => x <= y,
    }
}

fn negated(a: Value) -> Result<Value, CondFault>
    ensures { result ≡ spec.negated a }
{
    match a {
        Value::Signed(x) => in_range(x.checked_neg()),
        Value::Unsigned(x) => Ok(Value::Unsigned(0u64.wrapping_sub(x))),
    }
}

fn flipped(a: Value) -> Value
    ensures { result ≡ spec.flipped a }
{
    match a {
        Value::Signed(x) => Value::Signed(-1 - x),
        Value::Unsigned(x) => Value::Unsigned(u64::MAX - x),
    }
}

pub fn with_sign(a: Value, sign: Sign) -> Result<Value, CondFault>
    ensures { result ≡ spec.with_sign a sign }
{
    match sign {
        Sign::Plus => Ok(a),
        Sign::Minus => negated(a),
        Sign::Flip => Ok(flipped(a)),
        Sign::Not => truth_of(is_zero(a)),
    }
}

fn below_64(n: u64) -> Option<u32>
    ensures value { result ≡ spec.below_64 n }
    ensures small { IfSome result (λ k. k < 64) }
{
    if n < 64 { Some(n as u32) } else { None }
}

fn amount(a: Value) -> Option<u32>
    ensures value { result ≡ spec.amount a }
    ensures small { IfSome result (λ n. n < 64) }
{
    match a {
        Value::Signed(x) => {
            if x < 0 {
                None
            } else {
                below_64(x.cast_unsigned())
            }
        }
        Value::Unsigned(x) => below_64(x),
    }
}

// 2 to the power n.
fn power(n: u32) -> u64
    requires { n < 64 }
    ensures { result ≡ 2 ^ n }
{
    1u64 << n
}

fn natural_in_range(x: Option<u64>) -> Result<Value, CondFault>
    ensures { result ≡ spec.natural_in_range x }
{
    match x {
        Some(x) => in_range(i64::try_from(x).ok()),
        None => Err(CondFault::Overflow),
    }
}

fn shifted_left(a: Value, n: u32) -> Result<Value, CondFault>
    requires { n < 64 }
    ensures { result ≡ spec.shifted_left n a }
{
    match a {
        Value::Signed(x) => {
            if x < 0 {
                Err(CondFault::Overflow)
            } else {
                natural_in_range(x.cast_unsigned().checked_mul(power(n)))
            }
        }
        Value::Unsigned(x) => Ok(Value::Unsigned(x.wrapping_shl(n))),
    }
}

fn shifted_right(a: Value, n: u32) -> Result<Value, CondFault>
    requires { n < 64 }
    ensures { result ≡ spec.shifted_right n a }
{
    match a {
        Value::Signed(x) => Ok(Value::Signed(x.wrapping_shr(n))),
        Value::Unsigned(x) => Ok(Value::Unsigned(x.wrapping_shr(n))),
    }
}

fn shift_left(a: Value, n: Option<u32>) -> Result<Value, CondFault>
    requires { IfSome n (λ k. k < 64) }
    ensures { result ≡ spec.shift_left a n }
{
    match n {
        Some(n) => shifted_left(a, n),
        None => Err(CondFault::Overflow),
    }
}

fn shift_right(a: Value, n: Option<u32>) -> Result<Value, CondFault>
    requires { IfSome n (λ k. k < 64) }
    ensures { result ≡ spec.shift_right a n }
{
    match n {
        Some(n) => shifted_right(a, n),
        None => Err(CondFault::Overflow),
    }
}

// What an operator gives for two values.
pub fn computed(a: Value, b: Value, op: Op) -> Result<Value, CondFault>
    ensures { result ≡ spec.computed a b op }
{
    match op {
        Op::Or => truth_of(!is_zero(a) || !is_zero(b)),
        Op::And => truth_of(!is_zero(a) && !is_zero(b)),
        Op::BitOr => bit_or(usual(a, b)),
        Op::BitXor => bit_xor(usual(a, b)),
        Op::BitAnd => bit_and(usual(a, b)),
        Op::Equal => truth_of(is_equal(usual(a, b))),
        Op::Unequal => truth_of(!is_equal(usual(a, b))),
        Op::Less => truth_of(is_less(usual(a, b))),
        Op::Greater => truth_of(!is_at_most(usual(a, b))),
        Op::AtMost => truth_of(is_at_most(usual(a, b))),
        Op::AtLeast => truth_of(!is_less(usual(a, b))),
        Op::Left => shift_left(a, amount(b)),
        Op::Right => shift_right(a, amount(b)),
        Op::Add => sum(usual(a, b)),
        Op::Subtract => difference(usual(a, b)),
        Op::Times => product(usual(a, b)),
        Op::Divide => quotient(usual(a, b)),
        Op::Remainder => remainder(usual(a, b)),
    }
}

// The value with the type of both operands of `?:`.
pub fn as_type(unsigned: bool, a: Value) -> Value
    ensures { result ≡ spec.as_type unsigned a }
{
    if unsigned {
        Value::Unsigned(bits(a))
    } else {
        a
    }
}

// As a number.
pub fn number(a: Value) -> i128
    ensures { result ≡ spec.number_of a }
{
    match a {
        Value::Signed(x) => i128::from(x),
        Value::Unsigned(x) => i128::from(x),
    }
}
