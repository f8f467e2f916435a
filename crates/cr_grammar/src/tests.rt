use crate::{Guard, NonTerm, Symbol, Term, alternatives, spellings};
use cr_base::is_keyword;
use std::test::Fail;

// C11 6.4.6
const PUNCTUATORS: &[u8] =
    b"[ ] ( ) { } . -> ++ -- & * + - ~ ! / % << >> < > <= >= == != ^ | && || ? : ; ... = *= /= %= += -= <<= >>= &= ^= |= , # ## <: :> <% %> %: %:%:";

// The words that this project reads beside those of C11.
const FURTHER_WORDS: &[u8] =
    b"__attribute__ __asm__ __extension__ __builtin_va_list __builtin_va_arg __builtin_offsetof __inline__ __inline __restrict__ __restrict __const__ __volatile__ __signed__";

const NONTERMINALS: [NonTerm; 92] = [
    NonTerm::Unit,
    NonTerm::External,
    NonTerm::ExtTail,
    NonTerm::ExtNext,
    NonTerm::Decl,
    NonTerm::DeclTail,
    NonTerm::More,
    NonTerm::After,
    NonTerm::InitOpt,
    NonTerm::Static,
    NonTerm::Specs0,
    NonTerm::SpecsB,
    NonTerm::SpecsT,
    NonTerm::AlignArg,
    NonTerm::Attr,
    NonTerm::AttrOpt,
    NonTerm::Hidden,
    NonTerm::Rec,
    NonTerm::RecTail,
    NonTerm::Members,
    NonTerm::MemTail,
    NonTerm::MemMore,
    NonTerm::MemDtor,
    NonTerm::BitOpt,
    NonTerm::Enum,
    NonTerm::EnumTail,
    NonTerm::Enums,
    NonTerm::EnumVal,
    NonTerm::EnumMore,
    NonTerm::Dtor,
    NonTerm::Quals,
    NonTerm::Sufs,
    NonTerm::Bound,
    NonTerm::Params,
    NonTerm::ParMore,
    NonTerm::Param,
    NonTerm::PDtor,
    NonTerm::ADtor,
    NonTerm::TypeName,
    NonTerm::Items,
    NonTerm::ItemAttr,
    NonTerm::Stmt,
    NonTerm::Sub,
    NonTerm::Else,
    NonTerm::ForInit,
    NonTerm::ExprOpt,
    NonTerm::Expr,
    NonTerm::ExprMore,
    NonTerm::Assign,
    NonTerm::AssTail,
    NonTerm::Cond,
    NonTerm::CondTail,
    NonTerm::Bin1,
    NonTerm::Bin2,
    NonTerm::Bin3,
    NonTerm::Bin4,
    NonTerm::Bin5,
    NonTerm::Bin6,
    NonTerm::Bin7,
    NonTerm::Bin8,
    NonTerm::Bin9,
    NonTerm::Bin10,
    NonTerm::Tail1,
    NonTerm::Tail2,
    NonTerm::Tail3,
    NonTerm::Tail4,
    NonTerm::Tail5,
    NonTerm::Tail6,
    NonTerm::Tail7,
    NonTerm::Tail8,
    NonTerm::Tail9,
    NonTerm::Tail10,
    NonTerm::Cast,
    NonTerm::CastTail,
    NonTerm::Unary,
    NonTerm::SizeTail,
    NonTerm::SizeLit,
    NonTerm::PostTail,
    NonTerm::Args,
    NonTerm::ArgMore,
    NonTerm::Primary,
    NonTerm::Assoc,
    NonTerm::AssMore,
    NonTerm::OffTail,
    NonTerm::Init,
    NonTerm::Braces,
    NonTerm::BraceIn,
    NonTerm::BraceMore,
    NonTerm::Item,
    NonTerm::Desigs,
    NonTerm::DesMore,
    NonTerm::Mod,
];

fn has_word(words: &[u8], word: &[u8]) -> bool {
    words.split(|b| *b == b' ').any(|w| w == word)
}

fn is_known(word: &[u8]) -> bool {
    is_keyword(word) || has_word(PUNCTUATORS, word) || has_word(FURTHER_WORDS, word)
}

// Told by the kind of the token alone, or spelled by keywords and punctuators.
fn is_told(term: Term) -> bool {
    match term {
        Term::End
        | Term::NotEnd
        | Term::Identifier
        | Term::TypedefName
        | Term::Constant
        | Term::StringLiteral => spellings(term).is_empty(),
        _ => spellings(term)
            .split(|b| *b == b' ')
            .all(|word| is_known(word)),
    }
}

fn guard_is_told(guard: Guard) -> bool {
    match guard {
        Guard::Else => true,
        Guard::First(first) => is_told(first),
        Guard::Both(first, second) => is_told(first) && is_told(second),
    }
}

fn body_is_told(body: &[Symbol]) -> bool {
    body.iter().all(|symbol| match symbol {
        Symbol::Term(term) => is_told(*term),
        _ => true,
    })
}

#[test]
fn each_word_of_the_table_is_known(rt: HostRuntime) -> Result<(), Fail> {
    for n in &NONTERMINALS {
        let rows = alternatives(*n);
        assert!(rt; !rows.is_empty());
        assert!(rt;
            rows.iter()
                .all(|row| guard_is_told(row.guard) && body_is_told(row.body))
        );
    }
    Ok(())
}
