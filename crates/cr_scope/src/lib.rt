//! Scopes, and the declarations that are visible in them (C11 6.2.1 to 6.2.3).
#![tactic(auto)]

ghost use Rattle.std.specs.Prelude.{◌≡◌, ◌≢◌, ◌<◌, ◌≤◌, ◌++◌, ◌∷◌, [], false, length, take, option_map, slice_get, vec_len, vec_capacity, position, All, IsTrue, ◌↔◌, IfOk, IfSome, OnOk, OnErr, IsErrOf, MatchOption};
ghost use Rattle.std.specs.List.{list_any};
ghost use Rattle.cr_scope.specs.Declarations.{at_file_scope, entered, entered_again, IsInside, left, declared, IsDeclNo, decl_at, depth_at, same_space, deeper, lookup, is_at, numbers_at, visible, number};
ghost use Rattle.cr_scope.specs.Meaning.{LookupMeans, LookupIsFirst, VisibleMeans};
ghost use Rattle.cr_scope.specs.Linkage.{has_linkage, linkage_or_external, linkage_seen, entry_at, linkage_of, linked};
ghost use Rattle.cr_scope.specs.Redeclaration.{may_repeat, are_opposite, is_redeclared};
ghost use Rattle.cr_scope.specs.Kept.{stands, found_at, scope_for, clashes_kept, is_linked_kept, rest_from, IsLastAt, IsNext, depths_seen};

#[cfg(test)]
mod tests;
mod visible;

pub use cr_base::Kind;
use cr_base::{Name, OutOfMemory};
use std::alloc::{AllocFailed, Global};
use std::marker::Model;
pub use visible::VisibleDecls;

/// The number of a declaration in its `Scopes`.
#[derive(Clone, Copy, Debug, PartialEq, Eq)]
pub struct DeclNo(usize);

/// The number of a scope in its `Scopes`.
#[derive(Clone, Copy, Debug, PartialEq, Eq)]
pub struct ScopeNo(usize);

/// A name space (C11 6.2.3). Members have one for each record and are no matter of scopes.
#[derive(Clone, Copy, Debug, PartialEq, Eq, Hash)]
pub enum Space {
    Label,
    Tag,
    Ordinary,
}

/// The linkage of an identifier (C11 6.2.2).
#[derive(Clone, Copy, Debug, PartialEq, Eq)]
pub enum Linkage {
    None,
    Internal,
    External,
}

/// A declaration of a name at a token. `note` is a number of the caller's.
#[derive(Clone, Copy, Debug, PartialEq, Eq)]
pub struct Decl {
    pub space: Space,
    pub name: Name,
    pub token: u32,
    pub kind: Kind,
    pub linkage: Linkage,
    pub note: usize,
}

/// Why a declaration can't be made.
#[derive(Clone, Copy, Debug, PartialEq, Eq)]
pub enum ScopeFault {
    /// An earlier declaration of the name may not stand beside it (C11 6.7p3, 6.2.2p7).
    Redeclared,
    OutOfMemory,
}

impl<T: Drop> From<AllocFailed<T>> for ScopeFault {
    ghost use Rattle.std.specs.Prelude.{◌≡◌};
    ghost use Rattle.cr_scope.specs.declared.ScopeFault.TheVariants as fault;

    ghost from_gives = { λ _ e. e ≡ fault.OutOfMemory };

    fn from(_: AllocFailed<T>) -> Self {
        ScopeFault::OutOfMemory
    }
}

// A declaration with the number of its scope.
#[derive(Clone, Copy)]
struct Kept {
    scope: usize,
    decl: Decl,
}

/// The scopes of a translation unit, the path to the present one, and all declarations in order.
#[derive(Drop)]
pub struct Scopes {
    entries: Vec<Kept>,
    // of each scope but file scope, the scope that it stands in
    parents: Vec<usize>,
    depths: Vec<usize>,
    present: Vec<usize>,
    current: usize,
}

impl Model for Scopes {
    ghost use Rattle.cr_scope.specs.Declarations.{Flat};

    ghost Value = { Flat };

    ghost use Rattle.cr_scope.specs.Kept.{flat_of, IsKept};

    ghost view = { λ a. flat_of a.parents.items a.present.items a.entries.items };

    ghost invariant = { λ a. IsKept a.parents.items a.depths.items a.present.items a.current a.entries.items };
}

/// What `Scopes::lookup` gives is the last visible declaration in the deepest scope.
pub fn lookup_means()
    ensures { LookupMeans }
{}

/// What `Scopes::lookup` gives is the first of what `Scopes::lookup_all` gives.
pub fn lookup_is_first()
    ensures { LookupIsFirst }
{}

/// What `Scopes::lookup_all` gives are the visible declarations of the name and space, and no others.
pub fn visible_means()
    ensures { VisibleMeans }
{}

// Adds a number for which there is room.
fn put(numbers: &mut Vec<usize>, number: usize)
    requires { vec_len numbers.old < vec_capacity numbers.old }
    ensures { numbers.new.items ≡ numbers.old.items ++ number ∷ [] }
{
    match numbers.push(number) {
        Ok(()) => {}
        Err(_) => unreachable!(),
    }
}

// Whether a scope is the present one or encloses it.
fn is_present(depths: &[usize], present: &[usize], scope: usize) -> bool
    requires { scope < length depths.now }
    ensures { result ≡ stands depths.now present.now scope }
{
    let depth = depths[scope];
    depth == 0 || (depth <= present.len() && present[depth - 1] == scope)
}

fn is_same_space(a: Space, b: Space) -> bool
    ensures { result ≡ same_space a b }
{
    match (a, b) {
        (Space::Label, Space::Label) => true,
        (Space::Tag, Space::Tag) => true,
        (Space::Ordinary, Space::Ordinary) => true,
        _ => false,
    }
}

// The depth of a declaration, where it is seen under a name.
fn found(depths: &[usize], present: &[usize], space: Space, name: Name, k: &Kept) -> Option<usize>
    requires { k.now.scope < length depths.now }
    ensures { result ≡ found_at depths.now present.now space name k.now }
{
    let is_seen = is_present(depths, present, k.scope)
        && is_same_space(k.decl.space, space)
        && k.decl.name.0 == name.0;
    if is_seen { Some(depths[k.scope]) } else { None }
}

// Of two declarations by their numbers and depths the later, unless the earlier is deeper.
fn later_of(n: usize, depth: Option<usize>, later: Option<(usize, usize)>) -> Option<(usize, usize)>
    ensures { result ≡ deeper (option_map (λ d. (n, d)) depth) later }
{
    match (depth, later) {
        (None, _) => later,
        (Some(depth), None) => Some((n, depth)),
        (Some(depth), Some((m, later_depth))) => {
            if later_depth < depth {
                Some((n, depth))
            } else {
                Some((m, later_depth))
            }
        }
    }
}

fn is_at(depth: usize, seen: Option<usize>) -> bool
    ensures { result ≡ is_at depth seen }
{
    match seen {
        Some(d) => d == depth,
        None => false,
    }
}

fn is_linked(linkage: Linkage) -> bool
    ensures { result ≡ has_linkage linkage }
{
    match linkage {
        Linkage::None => false,
        Linkage::Internal | Linkage::External => true,
    }
}

// Whether declarations of two kinds in one scope may be of one thing.
fn may_repeat(d: &Decl, e: &Decl) -> bool
    ensures { result ≡ may_repeat d.now e.now }
{
    match (d.kind, e.kind) {
        (Kind::Function, Kind::Function) | (Kind::Object, Kind::Object) => {
            is_linked(d.linkage) && is_linked(e.linkage)
        }
        (Kind::Typedef, Kind::Typedef) => true,
        (Kind::Struct, Kind::Struct) => true,
        (Kind::Union, Kind::Union) => true,
        (Kind::Enum, Kind::Enum) => true,
        _ => false,
    }
}

fn are_opposite(a: Linkage, b: Linkage) -> bool
    ensures { result ≡ are_opposite a b }
{
    match (a, b) {
        (Linkage::Internal, Linkage::External) => true,
        (Linkage::External, Linkage::Internal) => true,
        _ => false,
    }
}

// The linkage that a declaration takes from a visible one.
fn or_external(linkage: Linkage) -> Linkage
    ensures { result ≡ linkage_or_external linkage }
{
    match linkage {
        Linkage::Internal => Linkage::Internal,
        Linkage::None | Linkage::External => Linkage::External,
    }
}

// Whether a declaration in this scope may not stand beside one that is kept.
fn clashes(scope: usize, d: &Decl, k: &Kept) -> bool
    ensures { result ≡ clashes_kept scope d.now k.now }
{
    let e = &k.decl;
    d.name.0 == e.name.0
        && ((scope == k.scope && is_same_space(d.space, e.space) && !may_repeat(d, e))
            || are_opposite(d.linkage, e.linkage))
}

fn any_clash(entries: &[Kept], scope: usize, d: &Decl) -> bool
    ensures { result ≡ list_any (clashes_kept scope d.now) entries.now }
{
    entries.iter().any(|k| clashes(scope, d, k))
}

// The first declaration of a name that has linkage.
fn first_linked(entries: &[Kept], name: Name) -> Option<usize>
    ensures { result ≡ position (is_linked_kept name) entries.now }
{
    entries
        .iter()
        .position(|k| is_linked(k.decl.linkage) && k.decl.name.0 == name.0)
}

// The scope that a declaration enters: for a label the outermost one below file scope.
fn scope_for(present: &[usize], current: usize, space: Space) -> usize
    ensures { result ≡ scope_for present.now current space }
{
    match space {
        Space::Label => present.first().copied().unwrap_or(0),
        Space::Tag | Space::Ordinary => current,
    }
}

impl Scopes {
    /// File scope, with no declarations.
    pub fn new(alloc: Global) -> Result<Scopes, OutOfMemory>
        ensures { IfOk result (λ s. s ≡ at_file_scope) }
    {
        let mut depths = Vec::new(alloc);
        depths.push(0)?;
        Ok(Scopes {
            entries: Vec::new(alloc),
            parents: Vec::new(alloc),
            depths,
            present: Vec::new(alloc),
            current: 0,
        })
    }

    /// Enters a new scope inside the present one, and gives its number.
    pub fn enter(&mut self) -> Result<ScopeNo, OutOfMemory>
        ensures number { IfOk result (λ s. s.0 ≡ length self.old.scopes) }
        ensures ok { OnOk result (self.new ≡ entered self.old) }
        ensures inside { OnOk result (self.new.present ≢ []) }
        ensures err { OnErr result (self.new ≡ self.old) }
    {
        self.parents.reserve(1)?;
        self.depths.reserve(1)?;
        self.present.reserve(1)?;
        let scope = self.depths.len();
        put(&mut self.parents, self.current);
        put(&mut self.depths, self.present.len() + 1);
        put(&mut self.present, scope);
        self.current = scope;
        Ok(ScopeNo(scope))
    }

    /// Enters a scope again that was entered from the present one and left: its declarations are visible again.
    pub fn enter_again(&mut self, s: ScopeNo) -> Result<(), OutOfMemory>
        requires { IsInside self.old s }
        ensures ok { OnOk result (self.new ≡ entered_again self.old s) }
        ensures inside { OnOk result (self.new.present ≢ []) }
        ensures err { OnErr result (self.new ≡ self.old) }
    {
        self.present.push(s.0)?;
        self.current = s.0;
        Ok(())
    }

    /// Leaves the present scope, on condition that it isn't file scope.
    pub fn leave(&mut self)
        requires { self.old.present ≢ [] }
        ensures { self.new ≡ left self.old }
    {
        self.current = self.parents[self.current - 1];
        self.present.pop();
    }

    /// Makes a declaration in the present scope, a label's in the scope of its function.
    ///
    /// It is refused as `Redeclared` where an earlier declaration of the name may not stand beside it.
    pub fn declare(&mut self, d: Decl) -> Result<DeclNo, ScopeFault>
        ensures redeclared { IsErrOf result ScopeFault.Redeclared ↔ IsTrue (is_redeclared self.old d) }
        ensures free { OnOk result (is_redeclared self.old d ≡ false) }
        ensures number { IfOk result (λ n. n.0 ≡ length self.old.entries) }
        ensures ok { OnOk result (self.new ≡ declared self.old d) }
        ensures err { OnErr result (self.new ≡ self.old) }
    {
        if self.is_redeclared(&d) {
            return Err(ScopeFault::Redeclared);
        }
        let scope = scope_for(&self.present, self.current, d.space);
        let n = self.entries.len();
        self.entries.push(Kept { scope, decl: d })?;
        Ok(DeclNo(n))
    }

    /// A declaration that these scopes numbered.
    pub fn get(&self, d: DeclNo) -> &Decl
        requires { IsDeclNo self.now d }
        ensures { decl_at self.now d ≡ Some result.now }
    {
        &self.entries[d.0].decl
    }

    /// How deep the scope of a declaration is nested: 0 is file scope.
    pub fn depth(&self, d: DeclNo) -> usize
        requires { IsDeclNo self.now d }
        ensures { depth_at self.now d ≡ Some result }
    {
        self.depths[self.entries[d.0].scope]
    }

    /// What a name means here: the last visible declaration of the name and space in the deepest scope (C11 6.2.1p4).
    pub fn lookup(&self, space: Space, name: Name) -> Option<DeclNo>
        ensures value { option_map number result ≡ lookup self.now.present space name self.now.entries }
        ensures given { IfSome result (IsDeclNo self.now) }
    {
        let mut best: Option<(usize, usize)> = None;
        for i in (0..self.len()).rev() {
            best = later_of(i, self.depth_seen(space, name, i), best);
        }
        best.map(|(n, _)| DeclNo(n))
    }

    /// All that a name could mean here, hidden declarations too: from the deepest scope outward, and of one scope the
    /// last declaration first.
    pub fn lookup_all(&self, space: Space, name: Name) -> VisibleDecls<'_>
        ensures value { result ≡ visible self.now.present space name self.now.entries }
        ensures given { All (λ n. n < length self.now.entries) result }
    {
        VisibleDecls::new(self, space, name, self.present_depth())
    }

    /// The first declaration of a name with linkage, visible or not.
    pub fn linked(&self, name: Name) -> Option<DeclNo>
        ensures value { option_map number result ≡ linked name self.now.entries }
        ensures given { IfSome result (IsDeclNo self.now) }
    {
        let n = self.linked_number(name)?;
        Some(DeclNo(n))
    }

    /// The linkage that a declaration of an object or function takes here by its storage words (C11 6.2.2p3 to p6).
    pub fn linkage(
        &self,
        name: Name,
        given_static: bool,
        given_extern: bool,
        function: bool,
    ) -> Linkage
        ensures { result ≡ linkage_of self.now name given_static given_extern function }
    {
        let at_file_scope = self.present.is_empty();
        if given_static {
            return if at_file_scope {
                Linkage::Internal
            } else {
                Linkage::None
            };
        }
        if given_extern || function {
            return self.linkage_seen(name);
        }
        if at_file_scope {
            Linkage::External
        } else {
            Linkage::None
        }
    }

    // The linkage of the visible declaration of a name, external where there is none or it has none.
    fn linkage_seen(&self, name: Name) -> Linkage
        ensures { result ≡ linkage_seen (entry_at self.now.entries (lookup self.now.present Space.Ordinary name self.now.entries)) }
    {
        match self.lookup(Space::Ordinary, name) {
            Some(d) => or_external(self.get(d).linkage),
            None => Linkage::External,
        }
    }

    // Whether an earlier declaration may not stand beside one that is made here.
    fn is_redeclared(&self, d: &Decl) -> bool
        ensures { result ≡ is_redeclared self.now d.now }
    {
        any_clash(
            &self.entries,
            scope_for(&self.present, self.current, d.space),
            d,
        )
    }

    fn linked_number(&self, name: Name) -> Option<usize>
        ensures { result ≡ linked name self.now.entries }
    {
        first_linked(&self.entries, name)
    }

    fn len(&self) -> usize
        ensures { result ≡ length self.now.entries }
    {
        self.entries.len()
    }

    fn present_depth(&self) -> usize
        ensures { result ≡ length self.now.present }
    {
        self.present.len()
    }

    // The depth of a declaration, where it is seen under a name.
    fn depth_seen(&self, space: Space, name: Name, i: usize) -> Option<usize>
        requires { i < length self.now.entries }
        ensures { slice_get (depths_seen self.now space name) i ≡ Some result }
    {
        found(&self.depths, &self.present, space, name, &self.entries[i])
    }

    // The last declaration before a number that is seen at a depth.
    fn last_at(&self, space: Space, name: Name, depth: usize, end: usize) -> Option<usize>
        requires { end ≤ length self.now.entries }
        ensures { MatchOption result
            (numbers_at depth 0 (take end (depths_seen self.now space name)) ≡ [])
            (IsLastAt depth end (depths_seen self.now space name)) }
    {
        for i in (0..end).rev() {
            if is_at(depth, self.depth_seen(space, name, i)) {
                return Some(i);
            }
        }
        None
    }

    // The depth and the number of the next visible declaration, where those of this depth from number `end` on and all
    // deeper ones are given.
    fn next_visible(
        &self,
        space: Space,
        name: Name,
        from: usize,
        before: usize,
    ) -> Option<(usize, usize)>
        requires { before ≤ length self.now.entries }
        ensures { MatchOption result
            (rest_from from before (depths_seen self.now space name) ≡ [])
            (IsNext from before (depths_seen self.now space name)) }
    {
        let mut depth = from;
        let mut end = before;
        loop {
            match self.last_at(space, name, depth, end) {
                Some(n) => return Some((depth, n)),
                None if depth == 0 => return None,
                None => {
                    depth -= 1;
                    end = self.len();
                }
            }
        }
    }
}
