ghost use Rattle.cr_lex.specs.Lexers.{IsIn};

use crate::{LexFault, LexStep, Lexed, Lexer, is_unspellable, lex, token_kind};
use cr_base::{NameTable, OutOfMemory, PathNo, Place, PpKind, PpTok};
use std::alloc::Global;
use std::test::Fail;

const FILE: PathNo = PathNo(7);

fn kind_letter(kind: PpKind) -> u8 {
    match kind {
        PpKind::Ident => b'I',
        PpKind::Number => b'N',
        PpKind::Char => b'C',
        PpKind::Str => b'S',
        PpKind::Punct => b'P',
        PpKind::Stray => b'X',
    }
}

fn push_number(shown: &mut Vec<u8>, number: u32) -> Result<(), OutOfMemory> {
    if number >= 10 {
        shown.push(b'0' + (number / 10 % 10) as u8)?;
    }
    shown.push(b'0' + (number % 10) as u8)?;
    Ok(())
}

fn push_token(shown: &mut Vec<u8>, names: &NameTable, t: &PpTok) -> Result<(), OutOfMemory> {
    push_number(shown, t.site.offset)?;
    shown.push(kind_letter(t.kind))?;
    if (t.text.0 as usize) < names.len() {
        shown.extend_from_slice(names.text(t.text))?;
    }
    shown.push(b'|')?;
    Ok(())
}

fn push_fault(shown: &mut Vec<u8>, fault: LexFault) -> Result<(), OutOfMemory> {
    let (place, letter) = match fault {
        LexFault::OpenComment(place) => (place, b'o'),
        LexFault::Trigraph(place) => (place, b't'),
    };
    push_number(shown, place.offset)?;
    shown.push(letter)?;
    shown.push(b'|')?;
    Ok(())
}

fn lexed(alloc: Global, names: &mut NameTable, bytes: &[u8]) -> Result<Lexed, OutOfMemory> {
    if bytes.len() > 1000 || names.len() > 1000 {
        return Err(OutOfMemory);
    }
    lex(alloc, names, bytes, FILE)
}

// Each token as its offset, a letter for its kind, its text and a bar; and behind them the fault as its
// offset, `o` or `t`, and a bar.
fn lexes_to(alloc: Global, bytes: &[u8], tokens: &[u8]) -> Result<bool, OutOfMemory> {
    let mut names = NameTable::new(alloc);
    let lexed = lexed(alloc, &mut names, bytes)?;
    let mut shown = Vec::new(alloc);
    for token in lexed.tokens.items() {
        push_token(&mut shown, &names, token)?;
    }
    if let Some(fault) = lexed.fault {
        push_fault(&mut shown, fault)?;
    }
    Ok(shown.as_slice() == tokens)
}

#[test]
fn tokens_are_the_longest_ones_up_to_a_fault(rt: HostRuntime) -> Result<(), Fail> {
    let rows: [(&[u8], &[u8]); 21] = [
        (b"a+++b", b"0Ia|1P++|3P+|4Ib|"),
        (b"0x1e+2", b"0N0x1e+2|"),
        (b"u8'a'", b"0Iu8|2C'a'|"),
        (b"fo\\\no.", b"0Ifoo|5P.|"),
        (b"\"ab", b"0X\"|1Iab|"),
        (b".5.", b"0N.5.|"),
        (b"..%:%:", b"0P.|1P.|2P%:%:|"),
        (b"'' '", b"0X'|1C' '|"),
        (b"\"\\\"\" '\\", b"0S\"\\\"\"|5X'|6X\\|"),
        (b"\"\\\"\\\"x", b"0X\"|1X\\|2X\"|3X\\|4X\"|5Ix|"),
        (b"a//b\\\nc\nd/*\n*/e", b"0Ia|8Id|14Ie|"),
        (b"\"/*\"/\\\r\n**/x", b"0S\"/*\"|11Ix|"),
        (b"int fo\\\r\no;", b"0Iint|4Ifoo|10P;|"),
        (b"@\x80\t\x0b\x0c\r$", b"0X@|1X\x80|6X$|"),
        (b"a /* x", b"0Ia|2o|"),
        (b"/*/", b"0o|"),
        (b"a??=b", b"0Ia|1t|"),
        (b"???-", b"0P?|1t|"),
        (b"\"a??/b\"", b"2t|"),
        (b"\"??=", b"0X\"|1t|"),
        (b"?\\\n?= /*??=*/", b"0P?|3P?|4P=|"),
    ];
    for (bytes, tokens) in rows {
        assert!(rt; lexes_to(rt.alloc(), bytes, tokens)?, "{bytes:?}");
    }
    Ok(())
}

fn each_third_byte_makes_a_trigraph(alloc: Global) -> Result<bool, OutOfMemory> {
    for third in b"=(/)'<!>-" {
        if !lexes_to(alloc, &[b'?', b'?', *third], b"0t|")? {
            return Ok(false);
        }
    }
    Ok(true)
}

#[test]
fn each_trigraph_is_a_fault(rt: HostRuntime) -> Result<(), Fail> {
    assert!(rt; each_third_byte_makes_a_trigraph(rt.alloc())?);
    Ok(())
}

const PUNCTUATORS: &[u8] =
    b"[ ] ( ) { } . -> ++ -- & * + - ~ ! / % << >> < > <= >= == != ^ | && || ? : ; ... = *= /= %= += -= <<= >>= &= ^= |= , # ## <: :> <% %> %: %:%:";

const CHARACTERS: &[u8] = b"'a' L'a' u'a' U'a' '\\''";

const STRINGS: &[u8] = b"\"\" \"a\" L\"a\" u\"a\" U\"a\" u8\"a\" \"\\\\\"";

fn are_whole(alloc: Global, texts: &[u8], kind: PpKind) -> Result<bool, OutOfMemory> {
    for text in texts.split(|b| *b == b' ') {
        let mut shown = b"0".to_vec(alloc)?;
        shown.push(kind_letter(kind))?;
        shown.extend_from_slice(text)?;
        shown.push(b'|')?;
        if token_kind(text) != Some(kind) || !lexes_to(alloc, text, &shown)? {
            return Ok(false);
        }
    }
    Ok(true)
}

#[test]
fn punctuators_digraphs_and_prefixed_literals_are_whole(rt: HostRuntime) -> Result<(), Fail> {
    assert!(rt; are_whole(rt.alloc(), PUNCTUATORS, PpKind::Punct)?);
    assert!(rt; are_whole(rt.alloc(), CHARACTERS, PpKind::Char)?);
    assert!(rt; are_whole(rt.alloc(), STRINGS, PpKind::Str)?);
    Ok(())
}

fn is_no_token(text: &[u8]) -> bool {
    token_kind(text).is_none()
}

#[test]
fn a_text_is_exactly_one_token_or_none(rt: HostRuntime) {
    assert!(rt; token_kind(b"x1_") == Some(PpKind::Ident));
    assert!(rt; token_kind(b"1x.e+") == Some(PpKind::Number));
    let rows: [&[u8]; 7] = [b"+/", b"//", b"/*", b"", b"\"", b"u8'a'", b"a\\\nb"];
    for text in rows {
        assert!(rt; is_no_token(text), "{text:?}");
    }
}

fn push_flag(shown: &mut Vec<u8>, flag: bool, letter: u8) -> Result<(), OutOfMemory> {
    if flag {
        shown.push(letter)?;
    }
    Ok(())
}

fn push_flags(shown: &mut Vec<u8>, t: &PpTok) -> Result<(), OutOfMemory> {
    push_number(shown, t.site.offset)?;
    shown.push(b'-')?;
    push_number(shown, t.end)?;
    shown.push(b'@')?;
    push_number(shown, t.line)?;
    push_flag(shown, t.space, b's')?;
    push_flag(shown, t.first, b'f')?;
    push_flag(shown, t.joined, b'j')?;
    shown.push(b'|')?;
    Ok(())
}

// Each token as its offset, a dash, its end, an at sign, its line, letters for `space`, `first` and
// `joined`, and a bar.
fn has_flags(alloc: Global, bytes: &[u8], flags: &[u8]) -> Result<bool, OutOfMemory> {
    let mut names = NameTable::new(alloc);
    let lexed = lexed(alloc, &mut names, bytes)?;
    let mut shown = Vec::new(alloc);
    for token in lexed.tokens.items() {
        push_flags(&mut shown, token)?;
    }
    Ok(shown.as_slice() == flags)
}

#[test]
fn joins_lines_and_white_space_are_told(rt: HostRuntime) -> Result<(), Fail> {
    let rows: [(&[u8], &[u8]); 4] = [
        (b"fo\\\no.", b"0-5@1sfj|5-6@2|"),
        (b"int \\\nfo\\\no\\\n;", b"0-3@1sf|6-11@2sj|13-14@4|"),
        (b"/* \n */x\n\ty", b"7-8@2sf|10-11@3sf|"),
        (b"a/**/b\\\r\n+", b"0-1@1sf|5-6@1s|9-10@2|"),
    ];
    for (bytes, flags) in rows {
        assert!(rt; has_flags(rt.alloc(), bytes, flags)?, "{bytes:?}");
    }
    Ok(())
}

fn step(lexer: &mut Lexer, names: &mut NameTable, bytes: &[u8]) -> Result<LexStep, OutOfMemory>
    requires { IsIn bytes.now lexer.old }
    ensures { IsIn bytes.now lexer.new }
{
    if bytes.len() > 100 || names.len() > 100 {
        return Err(OutOfMemory);
    }
    lexer.next(names, bytes)
}

#[test]
fn a_lexer_gives_the_same_one_by_one(rt: HostRuntime) -> Result<(), Fail> {
    let bytes = b"a /**/ b /*".as_slice();
    let mut names = NameTable::new(rt.alloc());
    let lexed = lexed(rt.alloc(), &mut names, bytes)?;
    let tokens = lexed.tokens.items();
    assert_eq!(rt; tokens.len(), 2);
    let mut lexer = Lexer::new(FILE);
    assert!(rt; step(&mut lexer, &mut names, bytes)? == LexStep::Token(tokens[0]));
    assert!(rt; step(&mut lexer, &mut names, bytes)? == LexStep::Token(tokens[1]));
    let place = Place {
        path: FILE,
        offset: 9,
    };
    let fault = LexStep::Fault(LexFault::OpenComment(place));
    assert!(rt; step(&mut lexer, &mut names, bytes)? == fault);
    assert!(rt; step(&mut lexer, &mut names, bytes)? == fault);
    Ok(())
}

fn first_is_unspellable(alloc: Global, bytes: &[u8], new: &[u8]) -> Result<bool, OutOfMemory> {
    let mut names = NameTable::new(alloc);
    let lexed = lexed(alloc, &mut names, bytes)?;
    match lexed.tokens.items() {
        [first, ..] if (first.end as usize) <= bytes.len() => {
            Ok(is_unspellable(bytes, new, *first))
        }
        _ => Err(OutOfMemory),
    }
}

#[test]
fn a_prefix_before_a_quote_and_a_joined_token_are_unspellable(rt: HostRuntime) -> Result<(), Fail> {
    let rows: [(&[u8], &[u8], bool); 7] = [
        (b"x\\\n\"a\"", b"L", true),
        (b"x'a'", b"U", true),
        (b"x\\\r\\\n'a'", b"u", false),
        (b"x\"a\"", b"u8", true),
        (b"x'a'", b"u8", false),
        (b"x \"a\"", b"L", false),
        (b"fo\\\no", b"bar", true),
    ];
    for (bytes, new, answer) in rows {
        assert!(rt;
            first_is_unspellable(rt.alloc(), bytes, new)? == answer,
            "{bytes:?}"
        );
    }
    Ok(())
}
