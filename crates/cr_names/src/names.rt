//! The names of a unit.
ghost use Rattle.std.specs.Prelude.{◌≡◌, ◌<◌, ◌++◌, ◌∷◌, [], ℕ, List, IfOk, IfSome, IfErr, OnOk, OnErr, length, option_map, vec_len, vec_capacity};
ghost use Rattle.cr_base.specs.declared.cause.IllCause.TheVariants as cause;
ghost use Rattle.cr_ll.specs.Derivation.{Asked};
ghost use Rattle.cr_scope.specs.Linkage.{is_file_scope};
ghost use Rattle.cr_types.specs.Types.{Table, IsTypeNo};
ghost use Rattle.cr_declared.specs.Rows.{IsFormed};
ghost use Rattle.cr_binding.specs.Source.{Source, name_at};
ghost use Rattle.cr_binding.specs.State.{State, GoesTo, Selects, IsBuiltIn, IsParameter};
ghost use Rattle.cr_binding.specs.Declaring.{failed, used, looked_up};
ghost use Rattle.cr_binding.specs.Scoping.{entered, left, all_jumps};
ghost use Rattle.cr_binding.specs.Binding.{asked};
ghost use Rattle.cr_binding.specs.WellFormed.{is_some_typedef};
ghost use Rattle.cr_names.specs.Kept.{no_names, IsKept, IsOf, IsPlaced};
ghost use Rattle.cr_names.specs.Names.{HasTokens, IsNamed, Always, Does, Moves, Fails, Refuses, IsMeaning, IsTagHere, IsDeclaration, IsLastType, IsAnswer, declaration_of, declared_as, inside, hiding, jumping, use_by};

use crate::fault::BindFault;
use cr_base::{IllCause, Kind, Name, OutOfMemory, Tok};
use cr_declared::{Declared, Row, UseRow};
use cr_scope::{Decl, ScopeFault, Space};
use cr_types::TypeNo;
use std::alloc::Global;
use std::marker::Model;

/// A declaration with the number of its type.
#[derive(Clone, Copy, Debug, PartialEq, Eq)]
pub struct Typed {
    pub row: Row,
    pub ty: TypeNo,
}

/// The declarations of a translation unit with their types, its scopes, what its identifiers do that declare nothing, and
/// the tokens in the brackets of its attributes.
#[derive(Drop)]
pub struct Names {
    declared: Declared,
    // the type of each declaration
    types_of: Vec<TypeNo>,
    uses: Vec<UseRow>,
    hidden: Vec<u32>,
}

impl Model for Names {
    ghost use Rattle.cr_names.specs.Kept.{KnownNames, IsKept};

    ghost Value = { KnownNames };

    ghost view = { λ a. record { declared = a.declared; types_of = a.types_of.items; uses = a.uses.items; hidden = a.hidden.items } };

    ghost invariant = { λ a. IsKept (record { declared = a.declared; types_of = a.types_of.items; uses = a.uses.items; hidden = a.hidden.items }) };
}

/// The spelling of a token by its number. Behind the last token it is that of name number 0.
pub fn name_at(tokens: &[Tok], i: u32) -> Name
    ensures { (t : Source) → HasTokens tokens.now t → name_at t i ≡ result }
{
    match tokens.get(i as usize) {
        Some(token) => token.text,
        None => Name(0),
    }
}

// Whether a declaration is that of a typedef name.
fn is_typedef(found: Option<Typed>) -> bool
    ensures { (t : Table) (paths : List (List ℕ)) → is_some_typedef (option_map (declaration_of t paths) found) ≡ result }
{
    match found {
        Some(typed) => matches!(typed.row.decl.kind, Kind::Typedef),
        None => false,
    }
}

// Puts a type at the end, where there is room for it.
fn push_type(types_of: &mut Vec<TypeNo>, ty: TypeNo)
    requires { vec_len types_of.old < vec_capacity types_of.old }
    ensures { types_of.new.items ≡ types_of.old.items ++ ty ∷ [] }
{
    match types_of.push(ty) {
        Ok(()) => {}
        Err(_) => unreachable!(),
    }
}

impl Names {
    /// File scope, with nothing in it.
    pub fn new(alloc: Global) -> Names
        ensures { result ≡ no_names }
    {
        Names {
            declared: Declared::new(alloc),
            types_of: Vec::new(alloc),
            uses: Vec::new(alloc),
            hidden: Vec::new(alloc),
        }
    }

    /// The declarations and their scopes.
    pub fn declared(&self) -> &Declared
        ensures declared { result.now ≡ self.now.declared }
        ensures kept { IsKept self.now }
    {
        &self.declared
    }

    /// What identifiers do, in order.
    pub fn uses(&self) -> &[UseRow]
        ensures uses { result.now ≡ self.now.uses }
        ensures kept { IsKept self.now }
    {
        &self.uses
    }

    /// The tokens in the brackets of attributes, in order.
    pub fn hidden(&self) -> &[u32]
        ensures { result.now ≡ self.now.hidden }
    {
        &self.hidden
    }

    /// How many scopes were entered.
    pub fn scopes(&self) -> usize
        ensures { result ≡ self.now.declared.scopes }
    {
        self.declared.scopes()
    }

    /// Whether the present scope is file scope.
    pub fn is_file_scope(&self) -> bool
        ensures { result ≡ is_file_scope self.now.declared.present }
    {
        let _ = self.declared.rows();
        self.declared.place() == 0
    }

    // ---- scopes (C11 6.2.1)

    /// Enters a new scope inside the present one.
    pub fn enter(&mut self) -> Result<(), OutOfMemory>
        ensures ok { OnOk result (Moves self.old entered self.new) }
        ensures err { OnErr result (self.new ≡ self.old) }
    {
        self.declared.enter()?;
        Ok(())
    }

    /// Enters a scope with a number inside the present one. It may be one that was left.
    pub fn enter_again(&mut self, scope: usize) -> Result<(), OutOfMemory>
        ensures ok { OnOk result (Moves self.old (inside scope) self.new) }
        ensures err { OnErr result (self.new ≡ self.old) }
    {
        self.declared.enter_again(scope)?;
        Ok(())
    }

    /// Leaves the present scope. File scope isn't left.
    pub fn leave(&mut self)
        ensures { Moves self.old left self.new }
    {
        self.declared.leave();
    }

    // ---- declarations (C11 6.7)

    /// Makes a declaration of a type in the present scope, a label's in the scope of its function.
    ///
    /// It is `Redeclared` where an earlier declaration of the name may not stand beside it (C11 6.7p3, 6.2.2p7). After an
    /// error nothing has changed.
    pub fn declare(&mut self, d: Decl, ty: TypeNo) -> Result<(), BindFault>
        requires formed { IsFormed d }
        requires bare { d.note ≡ 0 }
        ensures ok { OnOk result ((t : Table) → IsTypeNo t ty → Does t (IsNamed d.token d.name) self.old (declared_as d ty t) self.new) }
        ensures ill { IfErr result (λ f. Refuses f (Fails (IsNamed d.token d.name) self.old (declared_as d ty))) }
        ensures err { OnErr result (self.new ≡ self.old) }
    {
        self.types_of.reserve(1)?;
        match self.declared.declare(d) {
            Ok(_) => {
                push_type(&mut self.types_of, ty);
                Ok(())
            }
            Err(ScopeFault::Redeclared) => Err(BindFault::Ill(IllCause::Redeclared, d.token)),
            Err(ScopeFault::OutOfMemory) => Err(BindFault::OutOfMemory),
        }
    }

    /// What a name means in the present scope: the number of the last visible declaration in the deepest scope.
    pub fn meaning(&self, space: Space, name: Name) -> Option<usize>
        ensures { IsMeaning self.now space name result }
    {
        self.declared.lookup(space, name)
    }

    /// The first declaration of a tag in the present scope itself.
    pub fn tag_here(&self, name: Name) -> Option<usize>
        ensures { IsTagHere self.now name result }
    {
        self.declared.first_here(Space::Tag, name)
    }

    /// A declaration by its number, with the number of its type.
    pub fn get(&self, n: Option<usize>) -> Option<Typed>
        ensures found { IsDeclaration self.now n result }
        ensures given { (t : Table) → IsOf t self.now → IfSome result (λ x. IsTypeNo t x.ty) }
    {
        let n = n?;
        let rows = self.declared.rows();
        if n < self.types_of.len() {
            let ty = self.types_of[n];
            let row = rows[n];
            Some(Typed { row, ty })
        } else {
            None
        }
    }

    /// The type of the declaration that was made last, where there is one.
    pub fn last_type(&self) -> Option<TypeNo>
        ensures meant { IsLastType self.now result }
        ensures given { (t : Table) → IsOf t self.now → IfSome result (λ n. IsTypeNo t n) }
    {
        self.types_of.last().copied()
    }

    // ---- uses

    fn push(&mut self, row: UseRow) -> Result<(), OutOfMemory>
        requires { IsPlaced (length self.old.declared.paths) row }
        ensures ok { OnOk result (Moves self.old (used (use_by self.old.declared.paths row)) self.new) }
        ensures err { OnErr result (self.new ≡ self.old) }
    {
        self.uses.push(row)?;
        Ok(())
    }

    /// The name of a token is looked up here, and denotes this.
    pub fn look_up(
        &mut self,
        space: Space,
        token: u32,
        denoted: Option<usize>,
    ) -> Result<(), OutOfMemory>
        ensures ok { OnOk result (Moves self.old (looked_up space token denoted) self.new) }
        ensures err { OnErr result (self.new ≡ self.old) }
    {
        let place = self.declared.place();
        let before = self.declared.len();
        self.push(UseRow::LookedUp(space, token, place, before, denoted))?;
        Ok(())
    }

    /// The name of a token is what the compiler supplies.
    pub fn use_built_in(&mut self, token: u32) -> Result<(), OutOfMemory>
        ensures ok { OnOk result (Moves self.old (used (IsBuiltIn token)) self.new) }
        ensures err { OnErr result (self.new ≡ self.old) }
    {
        self.push(UseRow::IsBuiltIn(token))?;
        Ok(())
    }

    /// The name of a token is that of a parameter.
    pub fn use_parameter(&mut self, token: u32) -> Result<(), OutOfMemory>
        ensures ok { OnOk result (Moves self.old (used (IsParameter token)) self.new) }
        ensures err { OnErr result (self.new ≡ self.old) }
    {
        self.push(UseRow::IsParameter(token))?;
        Ok(())
    }

    /// The name of a token selects the member that is declared at another.
    pub fn select(&mut self, token: u32, member: u32) -> Result<(), OutOfMemory>
        ensures ok { OnOk result (Moves self.old (used (Selects token member)) self.new) }
        ensures err { OnErr result (self.new ≡ self.old) }
    {
        self.push(UseRow::Selects(token, member))?;
        Ok(())
    }

    /// A token stands in the brackets of an attribute.
    pub fn hide(&mut self, token: u32) -> Result<(), OutOfMemory>
        ensures ok { OnOk result (Moves self.old (hiding token) self.new) }
        ensures err { OnErr result (self.new ≡ self.old) }
    {
        self.hidden.push(token)?;
        Ok(())
    }

    /// Answers whether the name of a token is a typedef name here (C11 6.7.8p3), and notes that it was asked.
    pub fn ask(&mut self, token: u32, name: Name) -> Result<bool, OutOfMemory>
        ensures answer { IfOk result (IsAnswer self.old token name) }
        ensures ok { IfOk result (λ b. Moves self.old (asked (Asked token b ∷ [])) self.new) }
        ensures err { OnErr result (self.new ≡ self.old) }
    {
        let meaning = self.meaning(Space::Ordinary, name);
        let answer = is_typedef(self.get(meaning));
        let place = self.declared.place();
        let before = self.declared.len();
        self.push(UseRow::WasAsked(token, place, before, answer))?;
        Ok(answer)
    }

    // ---- labels (C11 6.8.1, 6.8.6.1)

    // The name of a token goes to the label that it means here.
    fn jump(&mut self, token: u32, name: Name) -> Result<(), BindFault>
        ensures ok { OnOk result ((t : Table) → Does t (IsNamed token name) self.old (jumping token) self.new) }
        ensures ill { IfErr result (λ f. Refuses f (Fails (IsNamed token name) self.old (λ t. jumping token))) }
        ensures err { OnErr result (self.new ≡ self.old) }
    {
        match self.meaning(Space::Label, name) {
            Some(label) => {
                self.push(UseRow::GoesTo(token, label))?;
                Ok(())
            }
            None => Err(BindFault::Ill(IllCause::Unresolved, token)),
        }
    }

    /// The names of these tokens go to the labels that they mean here, in order.
    ///
    /// The first that means none is `Unresolved`; those before it have been bound then.
    pub fn all_jumps(&mut self, jumps: &[u32], tokens: &[Tok]) -> Result<(), BindFault>
        ensures ok { OnOk result ((t : Table) → Does t (HasTokens tokens.now) self.old (λ source. all_jumps source jumps.now) self.new) }
        ensures ill { IfErr result (λ f. Refuses f (Fails (HasTokens tokens.now) self.old (λ t source. all_jumps source jumps.now))) }
        ensures typed { (t : Table) → IsOf t self.old → IsOf t self.new }
    {
        for i in jumps {
            self.jump(*i, name_at(tokens, *i))?;
        }
        Ok(())
    }
}
