//! The spellings of the words of the table.
ghost use Rattle.std.specs.Prelude.{◌≡◌};
ghost use Rattle.cr_grammar.specs.Spellings.{spelled};

use crate::Term;

/// The keywords and punctuators that a word of the table stands for (C11 6.4.1, 6.4.6), parted by
/// blanks: none for what is told by the kind of the token alone.
#[tactic(auto, unfolding(crate::specs::Spellings::spelled))]
pub fn spellings(term: Term) -> &'static [u8]
    ensures { result.now ≡ spelled term }
{
    match term {
        Term::End => b"",
        Term::NotEnd => b"",
        Term::Identifier => b"",
        Term::TypedefName => b"",
        Term::Constant => b"",
        Term::StringLiteral => b"",
        Term::Specifier =>
            b"typedef extern static auto register _Thread_local const __const__ volatile __volatile__ restrict __restrict__ __restrict inline __inline__ __inline _Noreturn void char short int long float double signed __signed__ unsigned _Bool _Complex __builtin_va_list _Alignas _Atomic struct union enum",
        Term::Modifier =>
            b"typedef extern static auto register _Thread_local const __const__ volatile __volatile__ restrict __restrict__ __restrict inline __inline__ __inline _Noreturn __extension__ __attribute__ _Alignas",
        Term::PlainModifier =>
            b"typedef extern static auto register _Thread_local const __const__ volatile __volatile__ restrict __restrict__ __restrict inline __inline__ __inline _Noreturn __extension__",
        Term::Basic =>
            b"void char short int long float double signed __signed__ unsigned _Bool _Complex __builtin_va_list",
        Term::QualifierOrAtomic =>
            b"const __const__ volatile __volatile__ restrict __restrict__ __restrict _Atomic",
        Term::StaticOrQualifier =>
            b"static const __const__ volatile __volatile__ restrict __restrict__ __restrict",
        Term::StructOrUnion => b"struct union",
        Term::SwitchOrWhile => b"switch while",
        Term::ContinueOrBreak => b"continue break",
        Term::SemicolonOrRightParen => b"; )",
        Term::LeftBracketOrDot => b"[ <: .",
        Term::DotOrArrow => b". ->",
        Term::IncrementOrDecrement => b"++ --",
        Term::UnaryOperator => b"& * + - ~ !",
        Term::AssignmentOperator => b"= *= /= %= += -= <<= >>= &= ^= |=",
        Term::Level1 => b"||",
        Term::Level2 => b"&&",
        Term::Level3 => b"|",
        Term::Level4 => b"^",
        Term::Level5 => b"&",
        Term::Level6 => b"== !=",
        Term::Level7 => b"< > <= >=",
        Term::Level8 => b"<< >>",
        Term::Level9 => b"+ -",
        Term::Level10 => b"* / %",
        Term::Semicolon => b";",
        Term::StaticAssert => b"_Static_assert",
        Term::LeftBrace => b"{ <%",
        Term::RightBrace => b"} %>",
        Term::Comma => b",",
        Term::Asm => b"__asm__",
        Term::LeftParen => b"(",
        Term::RightParen => b")",
        Term::Attribute => b"__attribute__",
        Term::Equals => b"=",
        Term::Atomic => b"_Atomic",
        Term::Enum => b"enum",
        Term::Colon => b":",
        Term::Star => b"*",
        Term::LeftBracket => b"[ <:",
        Term::RightBracket => b"] :>",
        Term::Void => b"void",
        Term::Ellipsis => b"...",
        Term::Extension => b"__extension__",
        Term::Case => b"case",
        Term::Default => b"default",
        Term::If => b"if",
        Term::Do => b"do",
        Term::While => b"while",
        Term::For => b"for",
        Term::Goto => b"goto",
        Term::Return => b"return",
        Term::Else => b"else",
        Term::Question => b"?",
        Term::Sizeof => b"sizeof",
        Term::Alignof => b"_Alignof",
        Term::Generic => b"_Generic",
        Term::VaArg => b"__builtin_va_arg",
        Term::Offsetof => b"__builtin_offsetof",
        Term::Dot => b".",
        Term::Alignas => b"_Alignas",
    }
}
