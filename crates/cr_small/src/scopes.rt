//! The declarations that a name can mean.
ghost use Rattle.std.specs.Prelude.{◌≡◌, ◌∷◌, ◌+◌, true, false, Option, Some, None, IfOk, OnOk, if◌then◌else◌};
ghost use Rattle.cr_small.specs.Resolution.{Bindings, file_scope, around, bound, declared, mentioned, entry_at};
ghost use Rattle.cr_small.specs.declared.grammar.Storage.{Storage};
ghost use Rattle.cr_small.specs.Declarations.{lookup, is_internal};
ghost use Rattle.cr_small.specs.Holding.{Answers, Holds, MayStand, level_behind, answer, linked_answer, again_answer, is_internal_symbol, symbol_in};

use crate::binder::{Binding, Denotation};
use crate::grammar::{Part, Storage};
use cr_base::OutOfMemory;
use indexmap::IndexMap;
use std::alloc::Global;

/// A declared name: whether it is a function, the number of its first declaring token, and whether it has
/// internal linkage.
#[derive(Clone, Copy)]
pub struct Symbol {
    pub function: bool,
    pub token: usize,
    pub internal: bool,
}

/// The names of file scope, and those of the body that is open.
#[derive(Drop)]
pub struct Scopes<'a> {
    pub file: IndexMap<&'a [u8], Symbol>,
    pub body: IndexMap<&'a [u8], Symbol>,
    pub in_body: bool,
}

// The entity of a symbol, and whether the token declares it.
fn answer(symbol: Symbol, linked: bool, declares: bool) -> Binding
    ensures { result ≡ answer symbol linked declares }
{
    Binding {
        denotes: Some(Denotation {
            token: symbol.token,
            function: symbol.function,
            linked,
            internal: symbol.internal,
            declares,
        }),
    }
}

fn symbol_in(map: &IndexMap<&[u8], Symbol>, name: &[u8]) -> Option<Symbol>
    ensures { result ≡ symbol_in name.now map.now.entries }
{
    map.get(name).copied()
}

// One more declaration at file scope of a name that was declared there.
fn again(first: Symbol, function: bool, internal: bool) -> Option<Binding>
    ensures { result ≡ again_answer first function internal }
{
    if first.function == function && first.internal == internal {
        Some(answer(first, true, true))
    } else {
        None
    }
}

// Whether the linkage of the name that is seen is internal; without one it is external.
fn is_internal_symbol(seen: Option<Symbol>) -> bool
    ensures { result ≡ is_internal_symbol seen }
{
    match seen {
        Some(symbol) => symbol.internal,
        None => false,
    }
}

// Whether a declaration at file scope has internal linkage, where `seen` says that of its name so far.
fn is_internal(function: bool, seen: bool, word: Option<Storage>) -> bool
    ensures { result ≡ is_internal function seen word }
{
    match word {
        Some(Storage::Static) => true,
        Some(Storage::Extern) => seen,
        None => function && seen,
    }
}

impl<'a> Scopes<'a> {
    /// No names yet, at file scope.
    pub fn new(alloc: Global) -> Scopes<'a>
        ensures { Holds result file_scope }
    {
        Scopes {
            file: IndexMap::new(alloc),
            body: IndexMap::new(alloc),
            in_body: false,
        }
    }

    fn open(&mut self)
        requires { self.old.in_body ≡ false }
        ensures holds { (b : Bindings) → Holds self.old b → Holds self.new (record { entries = b.entries; path = b.next ∷ b.path; next = b.next + 1 }) }
        ensures level { self.new.in_body ≡ true }
    {
        self.body.clear();
        self.in_body = true;
    }

    fn close(&mut self)
        ensures holds { (b : Bindings) → Holds self.old b → Holds self.new (record { entries = b.entries; path = around b.path; next = b.next }) }
        ensures level { self.new.in_body ≡ false }
    {
        self.in_body = false;
    }

    fn declare(
        &mut self,
        name: &'a [u8],
        function: bool,
        word: Option<Storage>,
        token: usize,
    ) -> Result<Option<Binding>, OutOfMemory>
        ensures declared { IfOk result (λ answer. (b : Bindings) → Holds self.old b → Answers self.new (declared b (entry_at b function word name.now token)) answer) }
        ensures level { OnOk result (self.new.in_body ≡ self.old.in_body) }
    {
        if self.in_body {
            self.declare_in_body(name, function, token)
        } else {
            self.declare_in_file(name, function, word, token)
        }
    }

    // Inside braces the storage word says nothing of the linkage.
    fn declare_in_body(
        &mut self,
        name: &'a [u8],
        function: bool,
        token: usize,
    ) -> Result<Option<Binding>, OutOfMemory>
        requires { self.old.in_body ≡ true }
        ensures declared { (word : Option Storage) → IfOk result (λ answer. (b : Bindings) → Holds self.old b → Answers self.new (declared b (entry_at b function word name.now token)) answer) }
        ensures level { OnOk result (self.new.in_body ≡ true) }
    {
        if symbol_in(&self.body, name).is_some() {
            return Ok(None);
        }
        let symbol = Symbol {
            function,
            token,
            internal: false,
        };
        self.body.insert(name, symbol)?;
        Ok(Some(answer(symbol, false, true)))
    }

    fn declare_in_file(
        &mut self,
        name: &'a [u8],
        function: bool,
        word: Option<Storage>,
        token: usize,
    ) -> Result<Option<Binding>, OutOfMemory>
        requires { self.old.in_body ≡ false }
        ensures declared { IfOk result (λ answer. (b : Bindings) → Holds self.old b → Answers self.new (declared b (entry_at b function word name.now token)) answer) }
        ensures level { OnOk result (self.new.in_body ≡ false) }
    {
        let seen = symbol_in(&self.file, name);
        let internal = is_internal(function, is_internal_symbol(seen), word);
        match seen {
            Some(first) => Ok(again(first, function, internal)),
            None => {
                let symbol = Symbol {
                    function,
                    token,
                    internal,
                };
                self.file.insert(name, symbol)?;
                Ok(Some(answer(symbol, true, true)))
            }
        }
    }

    // The symbol of a name in the open body, if one is open.
    fn in_open_body(&self, name: &[u8]) -> Option<Symbol>
        ensures { result ≡ (if self.now.in_body then symbol_in name.now self.now.body.entries else None) }
    {
        if self.in_body {
            symbol_in(&self.body, name)
        } else {
            None
        }
    }

    fn mention_file(&self, name: &[u8]) -> Option<Binding>
        ensures { result ≡ linked_answer (symbol_in name.now self.now.file.entries) }
    {
        let symbol = symbol_in(&self.file, name)?;
        Some(answer(symbol, true, false))
    }

    fn mention(&self, name: &[u8]) -> Option<Binding>
        ensures { (b : Bindings) → Holds self.now b → Answers self.now (mentioned b (lookup b.entries name.now b.path)) result }
    {
        match self.in_open_body(name) {
            Some(symbol) => Some(answer(symbol, false, false)),
            None => self.mention_file(name),
        }
    }

    /// Meets one token: its binding, or nothing where its name is undeclared or redeclared.
    pub fn meet(
        &mut self,
        part: Part,
        name: &'a [u8],
        token: usize,
    ) -> Result<Option<Binding>, OutOfMemory>
        requires { MayStand part self.old.in_body }
        ensures bound { IfOk result (λ answer. (b : Bindings) → Holds self.old b → Answers self.new (bound b token name.now part) answer) }
        ensures level { OnOk result (self.new.in_body ≡ level_behind part self.old.in_body) }
    {
        match part {
            Part::Plain => Ok(Some(Binding { denotes: None })),
            Part::Opens => {
                self.open();
                Ok(Some(Binding { denotes: None }))
            }
            Part::Closes => {
                self.close();
                Ok(Some(Binding { denotes: None }))
            }
            Part::DeclaresObject(word) => self.declare(name, false, word, token),
            Part::DeclaresFunction(word) => self.declare(name, true, word, token),
            Part::Mentions => Ok(self.mention(name)),
        }
    }
}
