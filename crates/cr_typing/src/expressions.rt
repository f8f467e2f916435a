//! The types of operators (C11 6.5), on types without numbers.
ghost use Rattle.std.specs.Prelude.{◌≡◌, IfSome, option_map};
ghost use Rattle.std.specs.Option.{option_or};
ghost use Rattle.cr_types.specs.Types.{IsTypeNo, IsOfTable, type_of, type_at};
ghost use Rattle.cr_typing.specs.ExpressionTypes.{decayed, pointed, pointer_or_arith, difference, returned, chosen, binary_type, unary_type, is_binary, is_unary};

use cr_types::{Ty, TypeNo, Types};

/// The operators of expressions, by what they make of their operands' types.
#[derive(Clone, Copy, Debug, PartialEq, Eq)]
pub enum Op {
    /// `a[b]`
    Index,
    /// `f(..)`
    Call,
    /// `&a`
    Address,
    /// `*a`
    Deref,
    /// `++` and `--`
    Step,
    /// `a + b`
    Plus,
    /// `a - b`
    Minus,
    /// Any operator whose result is arithmetic.
    Other,
    /// `=` and the like
    Assign,
    /// `a, b`
    Comma,
    /// The two results of `?:`.
    Choice,
    /// Two results of a generic selection.
    Generic,
}

// The type of an operand: an array and a function become pointers.
fn decayed(types: &Types, n: TypeNo) -> Ty
    requires { IsTypeNo types.now n }
    ensures parts { IsOfTable types.now result }
    ensures meant { type_of types.now result ≡ decayed (type_at types.now n) }
{
    match types.get(n) {
        Ty::Arr(element) => Ty::Ptr(element),
        Ty::Fun(_) => Ty::Ptr(n),
        ty => ty,
    }
}

// What an operand points to.
fn pointed(types: &Types, n: TypeNo) -> Option<TypeNo>
    requires { IsTypeNo types.now n }
    ensures given { IfSome result (λ to. IsTypeNo types.now to) }
    ensures meant { option_map (type_at types.now) result ≡ pointed (type_at types.now n) }
{
    match types.get(n) {
        Ty::Ptr(to) | Ty::Arr(to) => Some(to),
        Ty::Fun(_) => Some(n),
        _ => None,
    }
}

// What the first of two operands that is a pointer points to.
fn first_pointed(types: &Types, left: TypeNo, right: TypeNo) -> Option<TypeNo>
    requires left_given { IsTypeNo types.now left }
    requires right_given { IsTypeNo types.now right }
    ensures given { IfSome result (λ to. IsTypeNo types.now to) }
    ensures meant { option_map (type_at types.now) result ≡ option_or (pointed (type_at types.now left)) (pointed (type_at types.now right)) }
{
    match pointed(types, left) {
        Some(to) => Some(to),
        None => pointed(types, right),
    }
}

// `a[b]`: what the pointer among the two points to.
fn indexed(types: &Types, left: TypeNo, right: TypeNo) -> Ty
    requires left_given { IsTypeNo types.now left }
    requires right_given { IsTypeNo types.now right }
    ensures parts { IsOfTable types.now result }
    ensures meant { type_of types.now result ≡ binary_type Op.Index (type_at types.now left) (type_at types.now right) }
{
    match first_pointed(types, left, right) {
        Some(to) => types.get(to),
        None => Ty::Arith,
    }
}

// `a + b`: the pointer among the two.
fn sum(types: &Types, left: TypeNo, right: TypeNo) -> Ty
    requires left_given { IsTypeNo types.now left }
    requires right_given { IsTypeNo types.now right }
    ensures parts { IsOfTable types.now result }
    ensures meant { type_of types.now result ≡ binary_type Op.Plus (type_at types.now left) (type_at types.now right) }
{
    match first_pointed(types, left, right) {
        Some(to) => Ty::Ptr(to),
        None => Ty::Arith,
    }
}

// `a - b`: the left one where it alone is a pointer.
fn difference(types: &Types, left: TypeNo, right: TypeNo) -> Ty
    requires left_given { IsTypeNo types.now left }
    requires right_given { IsTypeNo types.now right }
    ensures parts { IsOfTable types.now result }
    ensures meant { type_of types.now result ≡ binary_type Op.Minus (type_at types.now left) (type_at types.now right) }
{
    match (pointed(types, left), pointed(types, right)) {
        (Some(to), None) => Ty::Ptr(to),
        _ => Ty::Arith,
    }
}

// Of the results of `?:`, which one has the type of both.
fn chosen(types: &Types, left: Ty, right: Ty) -> Ty
    requires left_parts { IsOfTable types.now left }
    requires right_parts { IsOfTable types.now right }
    ensures parts { IsOfTable types.now result }
    ensures meant { type_of types.now result ≡ chosen (type_of types.now left) (type_of types.now right) }
{
    match (left, right) {
        (Ty::Ptr(to), Ty::Ptr(_)) => {
            if matches!(types.get(to), Ty::Void) {
                right
            } else {
                left
            }
        }
        (Ty::Void | Ty::Arith | Ty::Arr(_) | Ty::Fun(_) | Ty::Mixed, Ty::Ptr(_)) => right,
        _ => left,
    }
}

fn choice(types: &Types, left: TypeNo, right: TypeNo) -> Ty
    requires left_given { IsTypeNo types.now left }
    requires right_given { IsTypeNo types.now right }
    ensures parts { IsOfTable types.now result }
    ensures meant { type_of types.now result ≡ binary_type Op.Choice (type_at types.now left) (type_at types.now right) }
{
    chosen(types, decayed(types, left), decayed(types, right))
}

// The type of both results of a generic selection, or Mixed.
fn of_both(types: &Types, left: TypeNo, right: TypeNo) -> Ty
    requires left_given { IsTypeNo types.now left }
    requires right_given { IsTypeNo types.now right }
    ensures parts { IsOfTable types.now result }
    ensures meant { type_of types.now result ≡ binary_type Op.Generic (type_at types.now left) (type_at types.now right) }
{
    let ty = types.get(left);
    if left == right { ty } else { Ty::Mixed }
}

/// The type that an operator makes of the types of its two operands.
pub(crate) fn binary_ty(types: &Types, op: Op, left: TypeNo, right: TypeNo) -> Ty
    requires left_given { IsTypeNo types.now left }
    requires right_given { IsTypeNo types.now right }
    ensures parts { IsOfTable types.now result }
    ensures meant { type_of types.now result ≡ binary_type op (type_at types.now left) (type_at types.now right) }
{
    match op {
        Op::Index => indexed(types, left, right),
        Op::Plus => sum(types, left, right),
        Op::Minus => difference(types, left, right),
        Op::Assign => types.get(left),
        Op::Comma => decayed(types, right),
        Op::Choice => choice(types, left, right),
        Op::Generic => of_both(types, left, right),
        Op::Other | Op::Call | Op::Address | Op::Deref | Op::Step => Ty::Arith,
    }
}

// What is called returns.
fn returned(types: &Types, of: TypeNo) -> Ty
    requires { IsTypeNo types.now of }
    ensures parts { IsOfTable types.now result }
    ensures meant { type_of types.now result ≡ unary_type Op.Call (type_at types.now of) }
{
    match pointed(types, of) {
        Some(to) => match types.get(to) {
            Ty::Fun(returned) => types.get(returned),
            _ => Ty::Arith,
        },
        None => Ty::Arith,
    }
}

// `*a`
fn dereferenced(types: &Types, of: TypeNo) -> Ty
    requires { IsTypeNo types.now of }
    ensures parts { IsOfTable types.now result }
    ensures meant { type_of types.now result ≡ unary_type Op.Deref (type_at types.now of) }
{
    match pointed(types, of) {
        Some(to) => types.get(to),
        None => Ty::Arith,
    }
}

/// The type that an operator makes of the type of its operand.
pub(crate) fn unary_ty(types: &Types, op: Op, of: TypeNo) -> Ty
    requires { IsTypeNo types.now of }
    ensures parts { IsOfTable types.now result }
    ensures meant { type_of types.now result ≡ unary_type op (type_at types.now of) }
{
    match op {
        Op::Call => returned(types, of),
        Op::Address => Ty::Ptr(of),
        Op::Deref => dereferenced(types, of),
        Op::Step => decayed(types, of),
        Op::Other
        | Op::Index
        | Op::Plus
        | Op::Minus
        | Op::Assign
        | Op::Comma
        | Op::Choice
        | Op::Generic => Ty::Arith,
    }
}
