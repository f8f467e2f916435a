//! What a token's text says.
ghost use Rattle.std.specs.Prelude.{◌≡◌, [], slice_index_or, is_some};
ghost use Rattle.cr_macros.specs.Definition as spec;
ghost use Rattle.cr_macros.specs.Tokens as token;
ghost use Rattle.cr_macros.specs.Expansion as spec_expansion;

use cr_base::{Name, NameTable, PpKind, PpTok};

/// The text of a name; that of a number that the table didn't give is empty.
pub fn text(names: &NameTable, name: Name) -> &[u8]
    ensures { result.now ≡ spec.text_of names.now name }
{
    if (name.0 as usize) < names.len() {
        names.text(name)
    } else {
        b""
    }
}

/// Whether a token's kind is that of identifiers (C11 6.4.2).
pub fn is_ident(kind: PpKind) -> bool
    ensures { result ≡ token.is_ident kind }
{
    matches!(kind, PpKind::Ident)
}

fn is_punct(kind: PpKind) -> bool
    ensures { result ≡ token.is_punct kind }
{
    matches!(kind, PpKind::Punct)
}

/// Whether a token is the punctuator of this text.
pub fn is_mark(names: &NameTable, mark: &[u8], t: PpTok) -> bool
    ensures { result ≡ spec.is_mark names.now mark.now t }
{
    is_punct(t.kind) && mark == text(names, t.text)
}

fn is_word(names: &NameTable, word: &[u8], t: PpTok) -> bool
    ensures { result ≡ spec.is_word names.now word.now t }
{
    is_ident(t.kind) && word == text(names, t.text)
}

/// Whether a token is `#`, or `%:` (C11 6.4.6p3).
pub fn is_hash(names: &NameTable, t: PpTok) -> bool
    ensures { result ≡ spec.is_hash names.now t }
{
    is_mark(names, b"#", t) || is_mark(names, b"%:", t)
}

/// Whether a token is `##`, or `%:%:` (C11 6.4.6p3).
pub fn is_paste(names: &NameTable, t: PpTok) -> bool
    ensures { result ≡ spec.is_paste names.now t }
{
    is_mark(names, b"##", t) || is_mark(names, b"%:%:", t)
}

/// Whether a token is the identifier `__VA_ARGS__` (C11 6.10.3p5).
pub fn is_rest(names: &NameTable, t: PpTok) -> bool
    ensures { result ≡ spec.is_rest names.now t }
{
    is_word(names, b"__VA_ARGS__", t)
}

/// A predefined macro (C11 6.10.8.1).
#[derive(Clone, Copy, Debug, PartialEq, Eq)]
pub enum Predefined {
    File,
    Line,
    Date,
    Time,
    Standard,
    Version,
    Hosted,
}

/// The predefined macro of a name (C11 6.10.8.1).
pub fn predefined_named(name: &[u8]) -> Option<Predefined>
    ensures { result ≡ spec_expansion.predefined_named name.now }
{
    if name == b"__FILE__".as_slice() {
        Some(Predefined::File)
    } else if name == b"__LINE__".as_slice() {
        Some(Predefined::Line)
    } else if name == b"__DATE__".as_slice() {
        Some(Predefined::Date)
    } else if name == b"__TIME__".as_slice() {
        Some(Predefined::Time)
    } else if name == b"__STDC__".as_slice() {
        Some(Predefined::Standard)
    } else if name == b"__STDC_VERSION__".as_slice() {
        Some(Predefined::Version)
    } else if name == b"__STDC_HOSTED__".as_slice() {
        Some(Predefined::Hosted)
    } else {
        None
    }
}

fn is_kept_word(word: &[u8]) -> bool
    ensures { result ≡ spec.is_kept_word word.now }
{
    b"defined".as_slice() == word || predefined_named(word).is_some()
}

/// Whether a token may name a macro: an identifier but `defined`, a predefined macro's name
/// (C11 6.10.8p4) and `__VA_ARGS__`.
pub fn is_macro_name(names: &NameTable, t: PpTok) -> bool
    ensures { result ≡ spec.is_macro_name names.now t }
{
    is_ident(t.kind) && !is_kept_word(text(names, t.text)) && !is_rest(names, t)
}
