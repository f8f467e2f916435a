//! The words of the grammar.

/// What stands for tokens in the table (C11 6.4): one token, or one of several.
#[derive(Clone, Copy, Debug, PartialEq, Eq)]
pub enum Term {
    /// The end of the tokens.
    End,
    /// Any token but the end.
    NotEnd,
    /// An identifier.
    Identifier,
    /// An identifier that is asked for, and is a typedef name.
    TypedefName,
    /// A constant or a character constant.
    Constant,
    /// A string literal.
    StringLiteral,
    /// A specifier keyword, or an identifier that is asked for and is a typedef name.
    Specifier,
    /// A word that may stand anywhere among specifiers: `PlainModifier`, `__attribute__` or `_Alignas`.
    Modifier,
    /// A storage class, a qualifier, a function specifier or `__extension__`.
    PlainModifier,
    /// A keyword that is a type specifier by itself.
    Basic,
    /// A qualifier or `_Atomic`.
    QualifierOrAtomic,
    /// `static` or a qualifier.
    StaticOrQualifier,
    /// `struct` or `union`.
    StructOrUnion,
    /// `switch` or `while`.
    SwitchOrWhile,
    /// `continue` or `break`.
    ContinueOrBreak,
    /// `;` or `)`.
    SemicolonOrRightParen,
    /// `[` or `.`.
    LeftBracketOrDot,
    /// `.` or `->`.
    DotOrArrow,
    /// `++` or `--`.
    IncrementOrDecrement,
    /// `&`, `*`, `+`, `-`, `~` or `!`.
    UnaryOperator,
    /// `=`, `*=`, `/=`, `%=`, `+=`, `-=`, `<<=`, `>>=`, `&=`, `^=` or `|=`.
    AssignmentOperator,
    /// A binary operator of level 1: `||`.
    Level1,
    /// A binary operator of level 2: `&&`.
    Level2,
    /// A binary operator of level 3: `|`.
    Level3,
    /// A binary operator of level 4: `^`.
    Level4,
    /// A binary operator of level 5: `&`.
    Level5,
    /// A binary operator of level 6: `==` `!=`.
    Level6,
    /// A binary operator of level 7: `<` `>` `<=` `>=`.
    Level7,
    /// A binary operator of level 8: `<<` `>>`.
    Level8,
    /// A binary operator of level 9: `+` `-`.
    Level9,
    /// A binary operator of level 10: `*` `/` `%`.
    Level10,
    /// `;`.
    Semicolon,
    /// `_Static_assert`.
    StaticAssert,
    /// `{`, also spelled `<%`.
    LeftBrace,
    /// `}`, also spelled `%>`.
    RightBrace,
    /// `,`.
    Comma,
    /// `__asm__`.
    Asm,
    /// `(`.
    LeftParen,
    /// `)`.
    RightParen,
    /// `__attribute__`.
    Attribute,
    /// `=`.
    Equals,
    /// `_Atomic`.
    Atomic,
    /// `enum`.
    Enum,
    /// `:`.
    Colon,
    /// `*`.
    Star,
    /// `[`, also spelled `<:`.
    LeftBracket,
    /// `]`, also spelled `:>`.
    RightBracket,
    /// `void`.
    Void,
    /// `...`.
    Ellipsis,
    /// `__extension__`.
    Extension,
    /// `case`.
    Case,
    /// `default`.
    Default,
    /// `if`.
    If,
    /// `do`.
    Do,
    /// `while`.
    While,
    /// `for`.
    For,
    /// `goto`.
    Goto,
    /// `return`.
    Return,
    /// `else`.
    Else,
    /// `?`.
    Question,
    /// `sizeof`.
    Sizeof,
    /// `_Alignof`.
    Alignof,
    /// `_Generic`.
    Generic,
    /// `__builtin_va_arg`.
    VaArg,
    /// `__builtin_offsetof`.
    Offsetof,
    /// `.`.
    Dot,
    /// `_Alignas`.
    Alignas,
}

/// What is replaced by the body of one of its alternatives (C11 6.5 to 6.9).
#[derive(Clone, Copy, Debug, PartialEq, Eq)]
pub enum NonTerm {
    /// External declarations up to the end (C11 6.9).
    Unit,
    /// One external declaration (C11 6.9).
    External,
    /// After its specifiers (C11 6.9).
    ExtTail,
    /// A function body, or the rest of the declarators (C11 6.9).
    ExtNext,
    /// A declaration in a block (C11 6.7).
    Decl,
    /// After its specifiers (C11 6.7).
    DeclTail,
    /// Further declarators (C11 6.7).
    More,
    /// Assembler names and attributes (our own rule).
    After,
    /// An initialiser, where there is one (C11 6.7.9).
    InitOpt,
    /// A static assertion (C11 6.7.10).
    Static,
    /// Specifiers before the type (C11 6.7.1 to 6.7.5).
    Specs0,
    /// After a basic type word (C11 6.7.1 to 6.7.5).
    SpecsB,
    /// After a whole type (C11 6.7.1 to 6.7.5).
    SpecsT,
    /// What `_Alignas` takes (C11 6.7.5).
    AlignArg,
    /// One attribute specifier (our own rule).
    Attr,
    /// Attribute specifiers (our own rule).
    AttrOpt,
    /// Tokens in the brackets of an attribute (our own rule).
    Hidden,
    /// A structure or union specifier (C11 6.7.2.1).
    Rec,
    /// Its tag and its members (C11 6.7.2.1).
    RecTail,
    /// Member declarations (C11 6.7.2.1).
    Members,
    /// After their specifiers (C11 6.7.2.1).
    MemTail,
    /// Further member declarators (C11 6.7.2.1).
    MemMore,
    /// A member declarator (C11 6.7.2.1).
    MemDtor,
    /// The width of a bit-field (C11 6.7.2.1).
    BitOpt,
    /// An enumeration specifier (C11 6.7.2.2).
    Enum,
    /// Its tag and its enumerators (C11 6.7.2.2).
    EnumTail,
    /// Enumerators (C11 6.7.2.2).
    Enums,
    /// The value of an enumerator (C11 6.7.2.2).
    EnumVal,
    /// After an enumerator (C11 6.7.2.2).
    EnumMore,
    /// A declarator (C11 6.7.6).
    Dtor,
    /// Qualifiers of a pointer (C11 6.7.6).
    Quals,
    /// Array and function suffixes (C11 6.7.6).
    Sufs,
    /// The bound of an array (C11 6.7.6).
    Bound,
    /// Parameters (C11 6.7.6).
    Params,
    /// After a parameter (C11 6.7.6).
    ParMore,
    /// A parameter (C11 6.7.6).
    Param,
    /// The declarator of a parameter (C11 6.7.6).
    PDtor,
    /// An abstract declarator (C11 6.7.7).
    ADtor,
    /// A type name (C11 6.7.7).
    TypeName,
    /// The items of a block (C11 6.8.2).
    Items,
    /// After attributes in a block (C11 6.8.2).
    ItemAttr,
    /// A statement (C11 6.8).
    Stmt,
    /// A statement with a scope of its own (C11 6.8.4, 6.8.5).
    Sub,
    /// The second statement of an `if` (C11 6.8.4.1).
    Else,
    /// The first part of a `for` (C11 6.8.5.3).
    ForInit,
    /// An expression, where there is one (C11 6.8.5.3).
    ExprOpt,
    /// An expression (C11 6.5.17).
    Expr,
    /// After a comma operator (C11 6.5.17).
    ExprMore,
    /// An assignment expression (C11 6.5.16).
    Assign,
    /// Its operator and right operand (C11 6.5.16).
    AssTail,
    /// A conditional expression (C11 6.5.15).
    Cond,
    /// Its second and third operands (C11 6.5.15).
    CondTail,
    /// A binary expression of level 1 (C11 6.5.14).
    Bin1,
    /// A binary expression of level 2 (C11 6.5.13).
    Bin2,
    /// A binary expression of level 3 (C11 6.5.12).
    Bin3,
    /// A binary expression of level 4 (C11 6.5.11).
    Bin4,
    /// A binary expression of level 5 (C11 6.5.10).
    Bin5,
    /// A binary expression of level 6 (C11 6.5.9).
    Bin6,
    /// A binary expression of level 7 (C11 6.5.8).
    Bin7,
    /// A binary expression of level 8 (C11 6.5.7).
    Bin8,
    /// A binary expression of level 9 (C11 6.5.6).
    Bin9,
    /// A binary expression of level 10 (C11 6.5.5).
    Bin10,
    /// Its operators and right operands (C11 6.5.14).
    Tail1,
    /// Its operators and right operands (C11 6.5.13).
    Tail2,
    /// Its operators and right operands (C11 6.5.12).
    Tail3,
    /// Its operators and right operands (C11 6.5.11).
    Tail4,
    /// Its operators and right operands (C11 6.5.10).
    Tail5,
    /// Its operators and right operands (C11 6.5.9).
    Tail6,
    /// Its operators and right operands (C11 6.5.8).
    Tail7,
    /// Its operators and right operands (C11 6.5.7).
    Tail8,
    /// Its operators and right operands (C11 6.5.6).
    Tail9,
    /// Its operators and right operands (C11 6.5.5).
    Tail10,
    /// A cast expression (C11 6.5.4).
    Cast,
    /// After a type name in parentheses (C11 6.5.4, 6.5.2.5).
    CastTail,
    /// A unary expression (C11 6.5.3).
    Unary,
    /// What `sizeof` takes (C11 6.5.3.4).
    SizeTail,
    /// A compound literal behind `sizeof` (C11 6.5.3.4).
    SizeLit,
    /// Postfix operators (C11 6.5.2).
    PostTail,
    /// Arguments of a call (C11 6.5.2).
    Args,
    /// Further arguments (C11 6.5.2).
    ArgMore,
    /// A primary expression (C11 6.5.1).
    Primary,
    /// An association of a generic selection (C11 6.5.1.1).
    Assoc,
    /// Further associations (C11 6.5.1.1).
    AssMore,
    /// Further steps of an offset (our own rule).
    OffTail,
    /// An initialiser (C11 6.7.9).
    Init,
    /// An initialiser in braces (C11 6.7.9).
    Braces,
    /// What the braces hold (C11 6.7.9).
    BraceIn,
    /// Further items (C11 6.7.9).
    BraceMore,
    /// An item with its designators (C11 6.7.9).
    Item,
    /// Designators (C11 6.7.9).
    Desigs,
    /// Further designators (C11 6.7.9).
    DesMore,
    /// One modifier (our own rule).
    Mod,
}

/// What is due at a place among the tokens.
#[derive(Clone, Copy, Debug, PartialEq, Eq)]
pub enum Action {
    /// A declaration begins.
    Decl,
    /// A declaration ends without a declarator.
    Bare,
    /// A declarator is complete: its name is declared.
    Declare,
    /// A function body begins.
    Body,
    /// A function body ends.
    EndBody,
    /// An initialiser begins.
    InitOf,
    /// An initialiser ends.
    InitEnd,
    /// A type specifier stands there.
    Spec,
    /// A token stands in the brackets of an attribute.
    Hidden,
    /// A type without a tag is defined.
    Anon,
    /// The members of a record end.
    EndRec,
    /// A tag is defined.
    TagDef,
    /// A tag is declared alone.
    TagAlone,
    /// A tag is used.
    TagUse,
    /// A member declaration ends without a declarator.
    Splice,
    /// A member is declared.
    Member,
    /// An enumerator is declared.
    Enumerator,
    /// A declarator is a pointer.
    Pointer,
    /// A declarator has this name.
    Name,
    /// A declarator is an array.
    Array,
    /// A scope begins.
    Enter,
    /// A scope ends.
    Leave,
    /// A parameter is declared.
    Param,
    /// A type name is complete.
    TypeName,
    /// A label is declared.
    Label,
    /// A label is used.
    Goto,
    /// An operator has its operands.
    Op,
    /// A member is selected.
    Select,
    /// An identifier is called.
    Callee,
    /// An identifier is used.
    Mention,
    /// A constant or a string literal is a value.
    Value,
    /// A member is named in an offset.
    OffMember,
    /// An element is named in an offset.
    OffIndex,
    /// An item of an initialiser is an expression.
    Item,
    /// A list of initialisers begins.
    ListOpen,
    /// A list of initialisers ends.
    ListEnd,
    /// A designator names an element.
    Index,
    /// A designator names a member.
    Desig,
}

/// A symbol of the body of an alternative.
#[derive(Clone, Copy, Debug, PartialEq, Eq)]
pub enum Symbol {
    Term(Term),
    Non(NonTerm),
    Act(Action),
}

/// When an alternative may be taken: always, or where the next token fits, or where the next two do.
#[derive(Clone, Copy, Debug, PartialEq, Eq)]
pub enum Guard {
    Else,
    First(Term),
    Both(Term, Term),
}

/// An alternative of a nonterminal: its guard, and the body that replaces the nonterminal.
#[derive(Clone, Copy)]
pub struct Alternative {
    pub guard: Guard,
    pub body: &'static [Symbol],
}
