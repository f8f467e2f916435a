//! The declarations of a unit, its scopes, and the present one.
ghost use Rattle.std.specs.Prelude.{◌≡◌, ◌==◌, ◌+◌, ◌-◌, ◌<◌, ◌↔◌, cond, Some, false, slice_get, ◌++◌, ◌∷◌, [], option_map, length, take, map, position, IsTrue, IfOk, IfSome, OnOk, OnErr, IsErrOf};
ghost use Rattle.cr_scope.specs.Declarations.{lookup};
ghost use Rattle.cr_scope.specs.Linkage.{linked};
ghost use Rattle.cr_declared.specs.Known.{nothing_declared, Becomes, entry, is_redeclared, is_here};
ghost use Rattle.cr_declared.specs.Kept.{number_for};
ghost use Rattle.cr_declared.specs.Rows.{entry_of, AreRows, AreApart, AreFormed, IsFormed};
ghost use Rattle.cr_paths.specs.Paths.{path_at};

use crate::rows::{Row, Slot};
use crate::table::{
    Ends, clashes, ends_at, linked_at, make_room, nearest, note_linked, put_behind,
};
use cr_base::{Name, OutOfMemory};
use cr_paths::Paths;
use cr_scope::{Decl, ScopeFault, Space};
use indexmap::IndexMap;
use std::alloc::Global;
use std::marker::Model;

/// The declarations of a translation unit in order, and the scopes that they stand in.
#[derive(Drop)]
pub struct Declared {
    paths: Paths,
    rows: Vec<Row>,
    here: IndexMap<Slot, Ends>,
    // of each name the first declaration with linkage
    linked: IndexMap<Name, usize>,
    scopes: usize,
    place: usize,
    // the outermost scope below file scope, or file scope
    function: usize,
}

impl Model for Declared {
    ghost use Rattle.std.specs.Prelude.{map};
    ghost use Rattle.cr_paths.specs.Paths.{path_at};
    ghost use Rattle.cr_declared.specs.Known.{Known};

    ghost Value = { Known };

    ghost use Rattle.cr_declared.specs.Kept.{number_for};
    ghost use Rattle.cr_declared.specs.Rows.{entry_of};
    ghost use Rattle.cr_declared.specs.Kept.{IsKept};

    ghost view = { λ a. record { scopes = a.scopes; paths = a.paths; present = path_at a.paths a.place; entries = map (entry_of a.paths) a.rows.items } };

    ghost invariant = { λ a. IsKept a.paths a.place a.function a.rows.items a.here.entries a.linked.entries };
}

fn last_of(found: Option<Ends>) -> Option<usize>
    ensures { result ≡ option_map (λ e. e.last) found }
{
    match found {
        Some(ends) => Some(ends.last),
        None => None,
    }
}

// The outermost scope below file scope, where a scope inside one is entered.
fn outermost_inside(place: usize, inner: usize, function: usize) -> usize
    ensures { result ≡ cond (place == 0) inner function }
{
    if place == 0 { inner } else { function }
}

// The outermost scope below file scope, where a scope inside is left.
fn outermost_around(outer: usize, function: usize) -> usize
    ensures { result ≡ cond (outer == 0) 0 function }
{
    if outer == 0 { 0 } else { function }
}

// The path that a declaration gets, by its number: a label's is that of its function.
fn path_for(place: usize, function: usize, space: Space) -> usize
    ensures { result ≡ number_for place function space }
{
    match space {
        Space::Label => function,
        Space::Tag | Space::Ordinary => place,
    }
}

// The number of the scope that is entered next. More scopes than numbers don't fit into memory.
fn next_scope(scopes: usize) -> Result<usize, OutOfMemory>
    ensures { IfOk result (λ n. n ≡ scopes + 1) }
{
    match scopes.checked_add(1) {
        Some(n) => Ok(n),
        None => Err(OutOfMemory),
    }
}

fn first_of(found: Option<Ends>) -> Option<usize>
    ensures { result ≡ option_map (λ e. e.first) found }
{
    match found {
        Some(ends) => Some(ends.first),
        None => None,
    }
}

impl Declared {
    /// File scope, with no declarations.
    pub fn new(alloc: Global) -> Declared
        ensures { result ≡ nothing_declared }
    {
        Declared {
            paths: Paths::new(alloc),
            rows: Vec::new(alloc),
            here: IndexMap::new(alloc),
            linked: IndexMap::new(alloc),
            scopes: 0,
            place: 0,
            function: 0,
        }
    }

    /// Enters a new scope inside the present one. Scopes are numbered from 1 in the order in which they are entered.
    pub fn enter(&mut self) -> Result<(), OutOfMemory>
        ensures ok { OnOk result (Becomes self.old (self.old.scopes + 1) (self.old.present ++ (self.old.scopes + 1) ∷ []) self.old.entries self.new) }
        ensures err { OnErr result (self.new ≡ self.old) }
    {
        let scope = next_scope(self.scopes)?;
        self.enter_again(scope)?;
        self.scopes = scope;
        Ok(())
    }

    /// Enters a scope with a number inside the present one. It may be one that was left.
    pub fn enter_again(&mut self, scope: usize) -> Result<(), OutOfMemory>
        ensures ok { OnOk result (Becomes self.old self.old.scopes (self.old.present ++ scope ∷ []) self.old.entries self.new) }
        ensures err { OnErr result (self.new ≡ self.old) }
    {
        let inner = self.paths.inside(self.place, scope)?;
        self.function = outermost_inside(self.place, inner, self.function);
        self.place = inner;
        Ok(())
    }

    /// Leaves the present scope. File scope isn't left.
    pub fn leave(&mut self)
        ensures { Becomes self.old self.old.scopes (take (length self.old.present - 1) self.old.present) self.old.entries self.new }
    {
        let outer = self.paths.outer(self.place);
        self.function = outermost_around(outer, self.function);
        self.place = outer;
    }

    /// The number of the present scope's path.
    pub fn place(&self) -> usize
        ensures within { result < length self.now.paths }
        ensures path { path_at self.now.paths result ≡ self.now.present }
    {
        self.place
    }

    /// How many scopes were entered.
    pub fn scopes(&self) -> usize
        ensures { result ≡ self.now.scopes }
    {
        self.scopes
    }

    /// How many declarations there are.
    pub fn len(&self) -> usize
        ensures { result ≡ length self.now.entries }
    {
        self.rows.len()
    }

    /// Whether there are none.
    pub fn is_empty(&self) -> bool
        ensures { result ≡ (length self.now.entries == 0) }
    {
        self.rows.is_empty()
    }

    /// A declaration by its number.
    pub fn get(&self, n: usize) -> &Decl
        requires { n < length self.now.entries }
        ensures { option_map (λ e. e.decl) (slice_get self.now.entries n) ≡ Some result.now }
    {
        &self.rows[n].decl
    }

    /// What a name means here: the last visible declaration of the name and space in the deepest scope (C11 6.2.1p4).
    pub fn lookup(&self, space: Space, name: Name) -> Option<usize>
        ensures { result ≡ lookup self.now.present space name self.now.entries }
    {
        last_of(nearest(&self.paths, &self.here, self.place, space, name))
    }

    /// The first declaration of a name with linkage, visible or not (C11 6.2.2p2).
    pub fn linked(&self, name: Name) -> Option<usize>
        ensures { result ≡ linked name self.now.entries }
    {
        linked_at(&self.linked, name)
    }

    /// The first declaration of a name and space in the present scope itself.
    pub fn first_here(&self, space: Space, name: Name) -> Option<usize>
        ensures { result ≡ position (is_here self.now.present space name) self.now.entries }
    {
        let slot = Slot {
            path: self.place,
            space,
            name,
        };
        first_of(ends_at(&self.here, slot))
    }

    /// The declarations in order, with the paths of their scopes by number. No two clash.
    pub fn rows(&self) -> &[Row]
        ensures entries { map (entry_of self.now.paths) result.now ≡ self.now.entries }
        ensures rows { AreRows self.now.paths result.now }
        ensures apart { AreApart self.now.entries }
        ensures formed { AreFormed self.now.entries }
    {
        &self.rows
    }

    /// The paths of the scopes by number.
    pub fn paths(&self) -> &Paths
        ensures { result.now ≡ self.now.paths }
    {
        &self.paths
    }

    /// Makes a declaration in the present scope, a label's in the scope of its function, and answers its number.
    ///
    /// It is refused as `Redeclared` where an earlier declaration of the name may not stand beside it (C11 6.7p3, 6.2.2p7).
    /// After an error nothing has changed.
    pub fn declare(&mut self, d: Decl) -> Result<usize, ScopeFault>
        requires { IsFormed d }
        ensures redeclared { IsErrOf result ScopeFault.Redeclared ↔ IsTrue (is_redeclared self.old d) }
        ensures free { OnOk result (is_redeclared self.old d ≡ false) }
        ensures number { IfOk result (λ n. n ≡ length self.old.entries) }
        ensures ok { OnOk result (Becomes self.old self.old.scopes self.old.present (self.old.entries ++ entry self.old d ∷ []) self.new) }
        ensures err { OnErr result (self.new ≡ self.old) }
    {
        if self.is_redeclared(&d) {
            return Err(ScopeFault::Redeclared);
        }
        let path = path_for(self.place, self.function, d.space);
        let slot = Slot {
            path,
            space: d.space,
            name: d.name,
        };
        let n = self.rows.len();
        if make_room(&mut self.here, &mut self.linked).is_err() {
            return Err(ScopeFault::OutOfMemory);
        }
        self.rows.push(Row { path, decl: d })?;
        put_behind(&mut self.here, slot, n);
        note_linked(&mut self.linked, &d, n);
        Ok(n)
    }

    // Whether an earlier declaration may not stand beside one that is made here.
    fn is_redeclared(&self, d: &Decl) -> bool
        ensures { result ≡ is_redeclared self.now d.now }
    {
        let path = path_for(self.place, self.function, d.space);
        let slot = Slot {
            path,
            space: d.space,
            name: d.name,
        };
        clashes(&self.rows, &self.here, &self.linked, slot, d)
    }
}
