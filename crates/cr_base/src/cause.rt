//! Why a translation unit is refused, and what an identifier is taken for.

/// Why a translation unit is ill-formed, or which limit it passes.
#[derive(Clone, Copy, Debug, PartialEq, Eq)]
pub enum IllCause {
    MissingFile,
    OpenComment,
    Trigraph,
    BadDirective,
    ErrorDirective,
    OpenIf,
    StrayElse,
    BadDefine,
    ArgCount,
    OpenCall,
    BadPaste,
    CondSyntax,
    DivideByZero,
    Overflow,
    CondConstant,
    MadeDefined,
    BadToken,
    Syntax,
    BadSpecifiers,
    Redeclared,
    Unresolved,
    NoMember,
    NotRecord,
    GenericType,
    Elision,
    LimitTokens,
    LimitMacros,
    LimitReading,
    LimitIncludes,
    LimitDepth,
}

/// What an identifier at a place is taken for, each time that it is taken.
#[derive(Clone, Copy, Debug, PartialEq, Eq, PartialOrd, Ord, Hash)]
pub enum Role {
    /// It is a final token.
    Final,
    /// It was replaced as a macro's name.
    MacroName,
    /// It stands in a live definition's parameter list, or in its body as a parameter.
    Param,
    /// It was left in an `#if` or `#elif` and read as 0.
    Controlling,
    /// It is a word of a directive, or a token of a line that names something.
    Directive,
    /// It stands in an argument that `#` made a string.
    Stringized,
    /// It is an operand of a paste of two tokens.
    Pasted,
    /// It stands in a live pragma other than `once`, or in an attribute's brackets.
    Opaque,
    /// It stands in an argument of which one call used no copy.
    Dropped,
}
