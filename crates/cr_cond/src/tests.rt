use crate::{CondFault, value};
use cr_base::{NameTable, Origin, OutOfMemory, PathNo, Place, PpKind, PpTok};
use std::alloc::Global;
use std::test::Fail;

// The kind of a word, by its first byte.
fn kind_of(word: &[u8]) -> PpKind {
    match word {
        [b'0'..=b'9', ..] => PpKind::Number,
        [b'\'', ..] => PpKind::Char,
        [b'"', ..] => PpKind::Str,
        [b'a'..=b'z', ..] => PpKind::Ident,
        _ => PpKind::Punct,
    }
}

// The value of words that blanks part.
fn value_of(alloc: Global, text: &[u8]) -> Result<Result<i128, CondFault>, OutOfMemory> {
    let mut names = NameTable::new(alloc);
    let mut tokens = Vec::new(alloc);
    let site = Place {
        path: PathNo(0),
        offset: 0,
    };
    for word in text.split(|b| *b == b' ') {
        if names.len() > 100 || tokens.len() > 100 {
            return Err(OutOfMemory);
        }
        tokens.push(PpTok {
            kind: kind_of(word),
            text: names.intern(word)?,
            origin: Origin::At(site),
            site,
            line: 1,
            end: 0,
            space: true,
            first: false,
            joined: false,
        })?;
    }
    Ok(value(alloc, &names, &tokens))
}

#[test]
fn lists_have_the_values_of_the_standard(rt: HostRuntime) -> Result<(), Fail> {
    let cases: [(&[u8], Result<i128, CondFault>); 16] = [
        (b"- 1 < 0u", Ok(0)),
        (b"2 || 1 / 0", Ok(1)),
        (b"1 ? - 1 : 0u", Ok(18446744073709551615)),
        (b"9223372036854775807 + 1", Err(CondFault::Overflow)),
        (b"1 << 64", Err(CondFault::Overflow)),
        (b"0x8000000000000000", Ok(9223372036854775808)),
        (b"9223372036854775808", Err(CondFault::Constant)),
        (b"1 2", Err(CondFault::Syntax)),
        (b"defined", Err(CondFault::MadeDefined)),
        (b"1 / 0", Err(CondFault::DivideByZero)),
        (b"( 1 + 2 ) * 3 == 9 && 'a' < 98", Ok(1)),
        (b"1 ? 2 ? 3 : 4 : 5", Ok(3)),
        (b"10 - 4 - 3", Ok(3)),
        (b"- 7 / 2", Ok(-3)),
        (b"0 && 08", Err(CondFault::Constant)),
        (b"'\\377' == 255", Err(CondFault::Constant)),
    ];
    for (text, expected) in &cases {
        assert_eq!(rt; value_of(rt.alloc(), text)?, *expected);
    }
    Ok(())
}
