//! The specifiers of a declaration, and the types of declarators (C11 6.7).
#![tactic(auto)]

ghost use Rattle.std.specs.Prelude.{◌≡◌, ◌<◌, ◌+◌, ◌++◌, ◌∷◌, [], map, take, is_ok, IfOk, OnOk, OnErr, length};
ghost use Rattle.std.specs.List.{list_any};
ghost use Rattle.cr_types.specs.Types.{IsTypeNo, type_at, derived_by, Keeps};
ghost use Rattle.cr_decl.specs.Declarators.{Declarator, parts_of, declared_type, PartsMeanTheDeclarator};
ghost use Rattle.cr_decl.specs.Specifiers.{same_word, is_store, is_basic, permitted, count, is_part, is_rearranged, continues, is_permitted, is_static_or_extern, is_thread_local, may_stand, no_words, may_follow, with_word, IsBase, base_of};

#[cfg(test)]
mod tests;

use cr_base::OutOfMemory;
pub use cr_types::Part;
use cr_types::{Ty, TypeNo, Types};
use std::marker::Model;

/// A word among the specifiers of a declaration (C11 6.7p1).
#[derive(Clone, Copy, Debug, PartialEq, Eq)]
pub enum SpecWord {
    Typedef,
    Extern,
    Static,
    Auto,
    Register,
    ThreadLocal,
    Const,
    Volatile,
    Restrict,
    Inline,
    Noreturn,
    Void,
    Char,
    Short,
    Int,
    Long,
    Float,
    Double,
    Signed,
    Unsigned,
    Bool,
    Complex,
    VaList,
    Alignas,
    Atomic,
    Struct,
    Union,
    Enum,
}

/// No permitted list of specifiers begins with these words.
#[derive(Clone, Copy, Debug, PartialEq, Eq)]
pub struct BadSpecifiers;

fn is_same(a: SpecWord, b: SpecWord) -> bool
    ensures { result ≡ same_word a b }
{
    a as u8 == b as u8
}

fn is_store(w: SpecWord) -> bool
    ensures { result ≡ is_store w }
{
    matches!(
        w,
        SpecWord::Typedef
            | SpecWord::Extern
            | SpecWord::Static
            | SpecWord::Auto
            | SpecWord::Register
            | SpecWord::ThreadLocal
    )
}

fn is_basic(w: SpecWord) -> bool
    ensures { result ≡ is_basic w }
{
    matches!(
        w,
        SpecWord::Void
            | SpecWord::Char
            | SpecWord::Short
            | SpecWord::Int
            | SpecWord::Long
            | SpecWord::Float
            | SpecWord::Double
            | SpecWord::Signed
            | SpecWord::Unsigned
            | SpecWord::Bool
            | SpecWord::Complex
            | SpecWord::VaList
    )
}

// The lists of type specifiers that are words (C11 6.7.2p2), each in one order.
const PERMITTED: &[&[SpecWord]] = &[
    &[SpecWord::Void],
    &[SpecWord::Bool],
    &[SpecWord::VaList],
    &[SpecWord::Signed],
    &[SpecWord::Unsigned],
    &[SpecWord::Char],
    &[SpecWord::Signed, SpecWord::Char],
    &[SpecWord::Unsigned, SpecWord::Char],
    &[SpecWord::Int],
    &[SpecWord::Signed, SpecWord::Int],
    &[SpecWord::Unsigned, SpecWord::Int],
    &[SpecWord::Short],
    &[SpecWord::Signed, SpecWord::Short],
    &[SpecWord::Unsigned, SpecWord::Short],
    &[SpecWord::Int, SpecWord::Short],
    &[SpecWord::Signed, SpecWord::Int, SpecWord::Short],
    &[SpecWord::Unsigned, SpecWord::Int, SpecWord::Short],
    &[SpecWord::Long],
    &[SpecWord::Signed, SpecWord::Long],
    &[SpecWord::Unsigned, SpecWord::Long],
    &[SpecWord::Int, SpecWord::Long],
    &[SpecWord::Signed, SpecWord::Int, SpecWord::Long],
    &[SpecWord::Unsigned, SpecWord::Int, SpecWord::Long],
    &[SpecWord::Long, SpecWord::Long],
    &[SpecWord::Signed, SpecWord::Long, SpecWord::Long],
    &[SpecWord::Unsigned, SpecWord::Long, SpecWord::Long],
    &[SpecWord::Int, SpecWord::Long, SpecWord::Long],
    &[
        SpecWord::Signed,
        SpecWord::Int,
        SpecWord::Long,
        SpecWord::Long,
    ],
    &[
        SpecWord::Unsigned,
        SpecWord::Int,
        SpecWord::Long,
        SpecWord::Long,
    ],
    &[SpecWord::Float],
    &[SpecWord::Complex, SpecWord::Float],
    &[SpecWord::Double],
    &[SpecWord::Complex, SpecWord::Double],
    &[SpecWord::Long, SpecWord::Double],
    &[SpecWord::Complex, SpecWord::Long, SpecWord::Double],
];

#[tactic(auto, unfolding(crate::specs::Specifiers::permitted))]
fn permitted() -> &'static [&'static [SpecWord]]
    ensures { map (λ ws. ws.now) result.now ≡ permitted }
{
    PERMITTED
}

fn count(w: SpecWord, words: &[SpecWord]) -> usize
    ensures { result ≡ count w words.now }
{
    words.iter().filter(|x| is_same(w, **x)).count()
}

// Whether each word of a list stands in the other as often or more often.
fn is_part(words: &[SpecWord], others: &[SpecWord]) -> bool
    ensures { result ≡ is_part words.now others.now }
{
    words.iter().all(|w| count(*w, words) <= count(*w, others))
}

fn begins_one(words: &[SpecWord], lists: &[&[SpecWord]]) -> bool
    ensures { result ≡ list_any (λ list. is_part words.now list.now) lists.now }
{
    lists.iter().any(|list| is_part(words, list))
}

fn rearranges_one(words: &[SpecWord], lists: &[&[SpecWord]]) -> bool
    ensures { result ≡ list_any (λ list. is_rearranged words.now list.now) lists.now }
{
    lists
        .iter()
        .any(|list| is_part(words, list) && is_part(list, words))
}

fn continues(words: &[SpecWord]) -> bool
    ensures { result ≡ continues words.now }
{
    begins_one(words, permitted())
}

fn is_permitted(words: &[SpecWord]) -> bool
    ensures { result ≡ is_permitted words.now }
{
    rearranges_one(words, permitted())
}

fn is_static_or_extern(w: SpecWord) -> bool
    ensures { result ≡ is_static_or_extern w }
{
    is_same(w, SpecWord::Static) || is_same(w, SpecWord::Extern)
}

fn is_thread_local(w: SpecWord) -> bool
    ensures { result ≡ is_thread_local w }
{
    is_same(w, SpecWord::ThreadLocal)
}

fn may_stand(words: &[SpecWord]) -> bool
    ensures { result ≡ may_stand words.now }
{
    match words {
        [] | [_] => true,
        [a, b] => {
            (is_thread_local(*a) && is_static_or_extern(*b))
                || (is_thread_local(*b) && is_static_or_extern(*a))
        }
        _ => false,
    }
}

fn has_void(words: &[SpecWord]) -> bool
    ensures { result ≡ list_any (same_word SpecWord.Void) words.now }
{
    words.iter().any(|w| is_same(SpecWord::Void, *w))
}

// Puts a word behind the first ones.
fn put(words: &mut [SpecWord], len: usize, w: SpecWord)
    requires { len < length words.old }
    ensures more { take (len + 1) words.new ≡ take len words.old ++ w ∷ [] }
    ensures same { take len words.new ≡ take len words.old }
{
    words[len] = w;
}

/// The specifiers of a declaration, read word by word.
#[derive(Drop)]
pub struct SpecState {
    // type specifiers: no permitted list has more than four words
    basic: [SpecWord; 5],
    basic_len: usize,
    store: [SpecWord; 3],
    store_len: usize,
}

impl Model for SpecState {
    ghost use Rattle.std.specs.Prelude.{◌≤◌, take};
    ghost use Rattle.cr_decl.specs.Specifiers.{Specifiers};

    ghost Value = { Specifiers };

    ghost view = { λ s. record { basic = take s.basic_len s.basic; store = take s.store_len s.store } };

    ghost invariant = { λ s. (s.basic_len ≤ 4) × (s.store_len ≤ 2) };
}

impl Default for SpecState {
    fn default() -> Self {
        SpecState::new()
    }
}

impl SpecState {
    /// No words yet.
    pub fn new() -> SpecState
        ensures { result ≡ no_words }
    {
        SpecState {
            basic: [SpecWord::Void; 5],
            basic_len: 0,
            store: [SpecWord::Typedef; 3],
            store_len: 0,
        }
    }

    /// The same words.
    pub fn copy(&self) -> SpecState
        ensures { result ≡ self.now }
    {
        SpecState {
            basic: self.basic,
            basic_len: self.basic_len,
            store: self.store,
            store_len: self.store_len,
        }
    }

    /// Whether this storage-class word is among the words so far (C11 6.7.1).
    pub fn has(&self, w: SpecWord) -> bool
        ensures { result ≡ list_any (same_word w) self.now.store }
    {
        self.store[..self.store_len].iter().any(|x| is_same(w, *x))
    }

    /// Reads the next word. It is refused where no permitted list begins with the words so far and this one, in any
    /// order (C11 6.7.2p2, 6.7.1p2); the words so far stay then.
    pub fn word(&mut self, w: SpecWord) -> Result<(), BadSpecifiers>
        ensures allowed { is_ok result ≡ may_follow self.old w }
        ensures ok { OnOk result (self.new ≡ with_word self.old w) }
        ensures err { OnErr result (self.new ≡ self.old) }
    {
        if is_basic(w) {
            return self.basic_word(w);
        }
        if is_store(w) {
            return self.store_word(w);
        }
        Ok(())
    }

    fn basic_word(&mut self, w: SpecWord) -> Result<(), BadSpecifiers>
        ensures allowed { is_ok result ≡ continues (self.old.basic ++ w ∷ []) }
        ensures ok { OnOk result (self.new ≡ record { basic = self.old.basic ++ w ∷ []; store = self.old.store }) }
        ensures err { OnErr result (self.new ≡ self.old) }
    {
        put(&mut self.basic, self.basic_len, w);
        if !continues(&self.basic[..self.basic_len + 1]) {
            return Err(BadSpecifiers);
        }
        self.basic_len += 1;
        Ok(())
    }

    fn store_word(&mut self, w: SpecWord) -> Result<(), BadSpecifiers>
        ensures allowed { is_ok result ≡ may_stand (self.old.store ++ w ∷ []) }
        ensures ok { OnOk result (self.new ≡ record { basic = self.old.basic; store = self.old.store ++ w ∷ [] }) }
        ensures err { OnErr result (self.new ≡ self.old) }
    {
        put(&mut self.store, self.store_len, w);
        if !may_stand(&self.store[..self.store_len + 1]) {
            return Err(BadSpecifiers);
        }
        self.store_len += 1;
        Ok(())
    }

    /// Whether the type specifiers so far are one of the permitted lists (C11 6.7.2p2); with none of them they aren't.
    pub fn permitted(&self) -> bool
        ensures { result ≡ is_permitted self.now.basic }
    {
        is_permitted(&self.basic[..self.basic_len])
    }

    /// The type that the type specifiers so far name: void, or an arithmetic type.
    pub fn base(&self, types: &mut Types) -> Result<TypeNo, OutOfMemory>
        ensures given { IfOk result (λ n. IsTypeNo types.new n) }
        ensures meant { IfOk result (λ n. type_at types.new n ≡ base_of self.now) }
        ensures records { types.new.records ≡ types.old.records }
        ensures keeps { Keeps types.old types.new }
        ensures err { OnErr result (types.new ≡ types.old) }
    {
        let n = types.make(self.base_type())?;
        Ok(n)
    }

    fn base_type(&self) -> Ty
        ensures { IsBase self.now result }
    {
        if has_void(&self.basic[..self.basic_len]) {
            Ty::Void
        } else {
            Ty::Arith
        }
    }
}

/// The type that a declarator makes of a base type, by its parts from the outermost derivation to the innermost
/// (C11 6.7.6.1 to 6.7.6.3). The base is a number that these types gave.
pub fn dtype(types: &mut Types, base: TypeNo, parts: &[Part]) -> Result<TypeNo, OutOfMemory>
    requires { IsTypeNo types.old base }
    ensures given { IfOk result (λ n. IsTypeNo types.new n) }
    ensures meant { IfOk result (λ n. type_at types.new n ≡ derived_by parts.now (type_at types.old base)) }
    ensures declarator { IfOk result (λ n. (d : Declarator) → parts_of d ≡ parts.now → type_at types.new n ≡ declared_type (type_at types.old base) d) }
    ensures records { types.new.records ≡ types.old.records }
    ensures keeps { Keeps types.old types.new }
    ensures err { OnErr result (types.new ≡ types.old) }
{
    let n = types.derive(base, parts)?;
    Ok(n)
}

/// The parts of a declarator give the type that it declares.
pub fn parts_mean_the_declarator()
    ensures { PartsMeanTheDeclarator }
{}
