use crate::{Phase7Fault, tokens7};
use cr_base::{NameTable, Origin, OutOfMemory, PathNo, Place, PpKind, PpTok, Tok, TokKind};
use std::alloc::Global;
use std::test::Fail;

fn at(offset: u32) -> Place {
    Place {
        path: PathNo(0),
        offset,
    }
}

// Preprocessing tokens at the places 0, 1, 2 and so on.
fn tokens_of(
    alloc: Global,
    words: &[(PpKind, &[u8])],
) -> Result<Result<Vec<Tok>, Phase7Fault>, OutOfMemory> {
    let mut names = NameTable::new(alloc);
    let mut from = Vec::new(alloc);
    for (kind, word) in words {
        if names.len() > 100 || from.len() > 100 {
            return Err(OutOfMemory);
        }
        let site = at(from.len() as u32);
        let text = names.intern(word)?;
        from.push(PpTok {
            kind: *kind,
            text,
            origin: Origin::At(site),
            site,
            line: 1,
            end: 0,
            space: true,
            first: false,
            joined: false,
        })?;
    }
    if names.len() > 1000 {
        return Err(OutOfMemory);
    }
    Ok(tokens7(alloc, &mut names, &from, at(1000)))
}

fn has_kinds(tokens: &[Tok], kinds: &[(TokKind, u32)]) -> bool {
    tokens.len() == kinds.len()
        && tokens.iter().zip(kinds).all(|(t, (kind, offset))| t.kind == *kind
            && t.site == at(*offset))
}

#[test]
fn numbers_have_the_forms_of_constants(rt: HostRuntime) -> Result<(), Fail> {
    let alloc = rt.alloc();
    let cases: [(&[u8], bool); 20] = [
        (b"0", true),
        (b"42uLL", true),
        (b"017l", true),
        (b"0xFfUL", true),
        (b"08", false),
        (b"08.5", true),
        (b"0x", false),
        (b"1lL", false),
        (b"1.", true),
        (b".5e-3f", true),
        (b"1e5", true),
        (b"1e", false),
        (b"1e+", false),
        (b"0x1p3", true),
        (b"0x.8P-1L", true),
        (b"0x1.8", false),
        (b"1.2.3", false),
        (b"12abc", false),
        (b"0b1", false),
        (b"1f", false),
    ];
    for (word, good) in &cases {
        let tokens = tokens_of(alloc, &[(PpKind::Number, *word)])?;
        match tokens {
            Ok(tokens) => {
                assert!(rt; *good);
                assert!(rt; has_kinds(&tokens, &[(TokKind::Constant, 0), (TokKind::End, 1000)]));
            }
            Err(fault) => {
                assert!(rt; !*good);
                assert_eq!(rt; fault, Phase7Fault::BadToken(at(0)));
            }
        }
    }
    Ok(())
}

#[test]
fn pragmas_go_and_strings_are_joined(rt: HostRuntime) -> Result<(), Fail> {
    let alloc = rt.alloc();
    let words: [(PpKind, &[u8]); 9] = [
        (PpKind::Ident, b"int"),
        (PpKind::Ident, b"foo"),
        (PpKind::Str, b"\"a\""),
        (PpKind::Ident, b"_Pragma"),
        (PpKind::Punct, b"("),
        (PpKind::Str, b"\"once\""),
        (PpKind::Punct, b")"),
        (PpKind::Str, b"\"b\""),
        (PpKind::Punct, b";"),
    ];
    let kinds = [
        (TokKind::Keyword, 0),
        (TokKind::Ident, 1),
        (TokKind::Str, 2),
        (TokKind::Punct, 8),
        (TokKind::End, 1000),
    ];
    match tokens_of(alloc, &words)? {
        Ok(tokens) => assert!(rt; has_kinds(&tokens, &kinds)),
        Err(_) => assert!(rt; false),
    }
    let broken: [(PpKind, &[u8]); 4] = [
        (PpKind::Ident, b"foo"),
        (PpKind::Ident, b"_Pragma"),
        (PpKind::Punct, b"("),
        (PpKind::Punct, b"##"),
    ];
    match tokens_of(alloc, &broken)? {
        Ok(_) => assert!(rt; false),
        Err(fault) => assert_eq!(rt; fault, Phase7Fault::BadToken(at(1))),
    }
    Ok(())
}
