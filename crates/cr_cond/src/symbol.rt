//! What a token is in a conditional expression.

/// The value of an expression: an integer of 64 bits (C11 6.10.1p4).
#[derive(Clone, Copy, Debug, PartialEq, Eq)]
pub enum Value {
    Signed(i64),
    Unsigned(u64),
}

// An operator before its operand (C11 6.5.3.3).
#[derive(Clone, Copy)]
pub enum Sign {
    Plus,
    Minus,
    Flip,
    Not,
}

// An operator between two operands (C11 6.5.5 to 6.5.14).
#[derive(Clone, Copy)]
pub enum Op {
    Or,
    And,
    BitOr,
    BitXor,
    BitAnd,
    Equal,
    Unequal,
    Less,
    Greater,
    AtMost,
    AtLeast,
    Left,
    Right,
    Add,
    Subtract,
    Times,
    Divide,
    Remainder,
}

// What a token is in an expression. An operand has no value where it is no constant that may stand there.
#[derive(Clone, Copy)]
pub enum Symbol {
    Operand(Option<Value>),
    Prefix(Sign),
    Infix(Op),
    Question,
    Colon,
    Open,
    Close,
    Odd,
}
