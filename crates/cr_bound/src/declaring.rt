//! Declarations of names (C11 6.7).
ghost use Rattle.std.specs.Prelude.{◌≡◌, ◌∷◌, ◌&&◌, ◌||◌, not, [], ℕ, List, Bool, Option, IfOk, IfErr, OnOk, OnErr, option_map};
ghost use Rattle.cr_base.specs.declared.cause.IllCause.TheVariants as cause;
ghost use Rattle.cr_decl.specs.declared.SpecWord.TheVariants as word;
ghost use Rattle.cr_ll.specs.Derivation.{Asked};
ghost use Rattle.cr_scope.specs.Declarations.{Entry};
ghost use Rattle.cr_scope.specs.Linkage.{linkage_by, linkage_seen};
ghost use Rattle.cr_types.specs.Types.{Table, IsTypeNo, Keeps, type_at};
ghost use Rattle.cr_typing.specs.ExpressionTypes.{decayed};
ghost use Rattle.cr_binding.specs.Source.{Source};
ghost use Rattle.cr_binding.specs.State.{Declaration, State};
ghost use Rattle.cr_binding.specs.Entities.{entry};
ghost use Rattle.cr_binding.specs.Declaring.{has_word, is_function_type, is_function_kind, is_internal, kind_of, linkage_for};
ghost use Rattle.cr_binding.specs.Binding.{asked};
ghost use Rattle.cr_declared.specs.Rows.{IsFormed};
ghost use Rattle.cr_names.specs.Kept.{IsOf};
ghost use Rattle.cr_names.specs.Names.{Moves as AreMoved, Does as IsDone, Fails as IsFault, HasTokens, IsNamed, IsAnswer, Refuses, declaration_of};
ghost use Rattle.cr_bound.specs.Kept.{with_bound, IsTyped};
ghost use Rattle.cr_bound.specs.Bound.{Any, Does, DoesAny, Moves, StaysTyped, Fails, FailsAny, declaring, declaring_parameter, Grows, DoesWith, FailsWith, StaysWith, type_by};
ghost use Rattle.cr_bound.specs.Declaring.{declaring_typed, parameter_typed, enumerating, IsLinkage, linkage_in, seeing};
ghost use Rattle.cr_bound.specs.Making.{made, IsMade};

use crate::bound::Bound;
use cr_base::{Kind, Name, OutOfMemory, Tok};
use cr_decl::SpecWord;
use cr_names::{BindFault, Names, Typed, name_at};
use cr_scope::{Decl, Linkage, Space};
use cr_types::{Part, Ty, TypeNo, Types};

fn is_function(types: &Types, ty: TypeNo) -> bool
    requires { IsTypeNo types.now ty }
    ensures { result ≡ is_function_type (type_at types.now ty) }
{
    matches!(types.get(ty), Ty::Fun(_))
}

// The type of a parameter: an array and a function become pointers (C11 6.7.6.3p7, p8).
fn decayed(types: &mut Types, ty: TypeNo) -> Result<TypeNo, OutOfMemory>
    requires { IsTypeNo types.old ty }
    ensures given { IfOk result (IsTypeNo types.new) }
    ensures meant { IfOk result (λ n. type_at types.new n ≡ decayed (type_at types.old ty)) }
    ensures records { types.new.records ≡ types.old.records }
    ensures keeps { Keeps types.old types.new }
{
    match types.get(ty) {
        Ty::Arr(element) => {
            let n = types.make(Ty::Ptr(element))?;
            Ok(n)
        }
        Ty::Fun(_) => {
            let n = types.make(Ty::Ptr(ty))?;
            Ok(n)
        }
        _ => Ok(ty),
    }
}

fn is_internal(linkage: Linkage) -> bool
    ensures { result ≡ is_internal linkage }
{
    matches!(linkage, Linkage::Internal)
}

fn both(a: bool, b: bool) -> bool
    ensures { result ≡ (a && b) }
{
    a && b
}

fn either(a: bool, b: bool) -> bool
    ensures { result ≡ (a || b) }
{
    a || b
}

fn linkage_of(seen: Option<Typed>) -> Option<Linkage>
    ensures { result ≡ option_map (λ x. x.row.decl.linkage) seen }
{
    match seen {
        Some(typed) => Some(typed.row.decl.linkage),
        None => None,
    }
}

// The linkage that the visible declaration has, else external (C11 6.2.2p4).
fn linkage_seen(seen: Option<Linkage>) -> Linkage
    ensures { (e : Option Entry) → IsLinkage e seen → result ≡ linkage_seen e }
{
    match seen {
        Some(Linkage::Internal) => Linkage::Internal,
        _ => Linkage::External,
    }
}

// The linkage of an object or a function by its storage words and the visible declaration of its name (C11 6.2.2).
fn linkage_by(file_scope: bool, is_static: bool, takes_seen: bool, seen: Option<Linkage>) -> Linkage
    ensures { (e : Option Entry) (extern function : Bool) → IsLinkage e seen → takes_seen ≡ (extern || function) → result ≡ linkage_by file_scope is_static extern function e }
{
    match (is_static, takes_seen, file_scope) {
        (true, _, true) => Linkage::Internal,
        (true, _, false) => Linkage::None,
        (false, true, _) => linkage_seen(seen),
        (false, false, true) => Linkage::External,
        (false, false, false) => Linkage::None,
    }
}

// A declaration at a token, with its name.
pub(crate) fn declaration(
    space: Space,
    kind: Kind,
    linkage: Linkage,
    token: u32,
    name: Name,
) -> Decl
    ensures { result ≡ record { space = space; name = name; token = token; kind = kind; linkage = linkage; note = 0 } }
{
    Decl {
        space,
        name,
        token,
        kind,
        linkage,
        note: 0,
    }
}

// A declaration that is made, and what its name denotes here, which is a mention where internal linkage is taken from it.
#[derive(Clone, Copy)]
pub(crate) struct Making {
    pub decl: Decl,
    pub takes: bool,
    pub denoted: Option<usize>,
}

// A name that takes internal linkage from what it denotes is looked up.
fn see(names: &mut Names, making: Making) -> Result<(), OutOfMemory>
    ensures ok { OnOk result (AreMoved names.old (seeing making.takes making.decl.token making.denoted) names.new) }
    ensures err { OnErr result (names.new ≡ names.old) }
{
    if !making.takes {
        return Ok(());
    }
    names.look_up(Space::Ordinary, making.decl.token, making.denoted)?;
    Ok(())
}

// The declaration is made with a type.
fn make(names: &mut Names, making: Making, ty: TypeNo) -> Result<(), BindFault>
    requires formed { IsFormed making.decl }
    requires bare { making.decl.note ≡ 0 }
    ensures ok { OnOk result ((t : Table) → IsTypeNo t ty → IsDone t (IsNamed making.decl.token making.decl.name) names.old (made making ty t) names.new) }
    ensures ill { IfErr result (λ f. Refuses f (IsFault (IsNamed making.decl.token making.decl.name) names.old (made making ty))) }
    ensures typed { (t : Table) → IsTypeNo t ty → IsOf t names.old → IsOf t names.new }
{
    see(names, making)?;
    names.declare(making.decl, ty)?;
    Ok(())
}

impl Bound {
    /// The type that a declarator with these derivations, the outermost first, makes of the specified one (for the action
    /// `TypeName` that of an operand).
    pub fn declared_type(&self, types: &mut Types, parts: &[Part]) -> Result<TypeNo, OutOfMemory>
        requires { IsTyped types.old self.now }
        ensures given { IfOk result (IsTypeNo types.new) }
        ensures meant { IfOk result (λ n. (s : State) → type_at types.new n ≡ type_by parts.now (with_bound types.old self.now s)) }
        ensures grows { Grows types.old types.new self.now }
    {
        self.stay();
        let n = self.pending.declared_type(types, parts)?;
        Ok(n)
    }

    fn parameter_type(&self, types: &mut Types, parts: &[Part]) -> Result<TypeNo, OutOfMemory>
        requires { IsTyped types.old self.now }
        ensures given { IfOk result (IsTypeNo types.new) }
        ensures meant { IfOk result (λ n. (s : State) → type_at types.new n ≡ decayed (type_by parts.now (with_bound types.old self.now s))) }
        ensures grows { Grows types.old types.new self.now }
    {
        self.stay();
        let n = self.pending.declared_type(types, parts)?;
        let n = decayed(types, n)?;
        Ok(n)
    }

    fn kind_of(&self, types: &Types, ty: TypeNo) -> Kind
        requires { IsTypeNo types.now ty }
        ensures { (t : Table) (s : State) → result ≡ kind_of (type_at types.now ty) (with_bound t self.now s) }
    {
        if self.pending.specifiers.has(SpecWord::Typedef) {
            Kind::Typedef
        } else if is_function(types, ty) {
            Kind::Function
        } else {
            Kind::Object
        }
    }

    fn linkage_by(&self, function: bool, seen: Option<Linkage>) -> Linkage
        ensures { (t : Table) (s : State) (e : Option Entry) → IsLinkage e seen → result ≡ linkage_in (with_bound t self.now s) function e }
    {
        let takes_seen = either(self.pending.specifiers.has(SpecWord::Extern), function);
        let is_static = self.pending.specifiers.has(SpecWord::Static);
        linkage_by(self.names.is_file_scope(), is_static, takes_seen, seen)
    }

    fn linkage_for(&self, kind: Kind, seen: Option<Linkage>) -> Linkage
        ensures { (t : Table) (source : Source) (s : State) (e : Option Declaration) → IsLinkage (option_map (entry source) e) seen → result ≡ linkage_for source e kind (with_bound t self.now s) }
    {
        match kind {
            Kind::Typedef => Linkage::None,
            Kind::Function => self.linkage_by(true, seen),
            _ => self.linkage_by(false, seen),
        }
    }

    // What is made of a name with a type: an object, a function or a typedef name.
    fn making(&self, types: &Types, token: u32, name: Name, ty: TypeNo) -> Making
        requires { IsTypeNo types.now ty }
        ensures made { IsMade types.now self.now token name ty result }
        ensures formed { IsFormed result.decl }
        ensures token { result.decl.token ≡ token }
        ensures name { result.decl.name ≡ name }
        ensures bare { result.decl.note ≡ 0 }
    {
        let kind = self.kind_of(types, ty);
        let denoted = self.names.meaning(Space::Ordinary, name);
        let linkage = self.linkage_for(kind, linkage_of(self.names.get(denoted)));
        let is_static = self.pending.specifiers.has(SpecWord::Static);
        Making {
            decl: declaration(Space::Ordinary, kind, linkage, token, name),
            takes: both(is_internal(linkage), !is_static),
            denoted,
        }
    }

    // An object, a function or a typedef name of a type is declared.
    fn declare_typed(
        &mut self,
        types: &Types,
        token: u32,
        name: Name,
        ty: TypeNo,
    ) -> Result<(), BindFault>
        requires typed { IsTyped types.now self.old }
        requires given { IsTypeNo types.now ty }
        ensures ok { OnOk result (Does (IsNamed token name) types.now self.old (declaring_typed token (type_at types.now ty)) types.now self.new) }
        ensures ill { IfErr result (λ f. Refuses f (Fails (IsNamed token name) types.now self.old (declaring_typed token (type_at types.now ty)))) }
        ensures typed { IsTyped types.now self.new }
    {
        let making = self.making(types, token, name, ty);
        make(&mut self.names, making, ty)?;
        Ok(())
    }

    /// The end of a declarator: its name, if it has one, is declared with the type that these derivations make of the
    /// specified one (action `Declare`).
    ///
    /// `Redeclared`: an earlier declaration may not stand beside it (C11 6.7p3, 6.2.2p7).
    pub fn declare(
        &mut self,
        types: &mut Types,
        parts: &[Part],
        tokens: &[Tok],
    ) -> Result<(), BindFault>
        requires { IsTyped types.old self.old }
        ensures ok { OnOk result (Does (HasTokens tokens.now) types.old self.old (declaring parts.now) types.new self.new) }
        ensures ill { IfErr result (λ f. Refuses f (Fails (HasTokens tokens.now) types.old self.old (declaring parts.now))) }
        ensures typed { IsTyped types.new self.new }
        ensures records { types.new.records ≡ types.old.records }
        ensures keeps { Keeps types.old types.new }
    {
        let Some(token) = self.pending.name else {
            return Ok(());
        };
        let ty = self.declared_type(types, parts)?;
        self.declare_typed(types, token, name_at(tokens, token), ty)?;
        Ok(())
    }

    /// The end of a parameter: its name, if it has one, is declared (action `Param`).
    ///
    /// `Redeclared`: its function has a parameter of that name.
    pub fn declare_parameter(
        &mut self,
        types: &mut Types,
        parts: &[Part],
        tokens: &[Tok],
    ) -> Result<(), BindFault>
        requires { IsTyped types.old self.old }
        ensures ok { OnOk result (Does (HasTokens tokens.now) types.old self.old (declaring_parameter parts.now) types.new self.new) }
        ensures ill { IfErr result (λ f. Refuses f (Fails (HasTokens tokens.now) types.old self.old (declaring_parameter parts.now))) }
        ensures typed { IsTyped types.new self.new }
        ensures records { types.new.records ≡ types.old.records }
        ensures keeps { Keeps types.old types.new }
    {
        let Some(token) = self.pending.name else {
            return Ok(());
        };
        let ty = self.parameter_type(types, parts)?;
        self.put_parameter(token, name_at(tokens, token), ty)?;
        Ok(())
    }

    fn put_parameter(&mut self, token: u32, name: Name, ty: TypeNo) -> Result<(), BindFault>
        ensures ok { OnOk result (DoesWith ty (IsNamed token name) self.old (parameter_typed token) self.new) }
        ensures ill { IfErr result (λ f. Refuses f (FailsWith ty (IsNamed token name) self.old (parameter_typed token))) }
        ensures typed { StaysWith ty self.old self.new }
    {
        self.names.use_parameter(token)?;
        let declared = declaration(Space::Ordinary, Kind::Object, Linkage::None, token, name);
        self.names.declare(declared, ty)?;
        Ok(())
    }

    /// An enumerator, of which this is the token (action `Enumerator`).
    ///
    /// `Redeclared`: an earlier declaration may not stand beside it (C11 6.7p3).
    pub fn declare_enumerator(&mut self, token: u32, tokens: &[Tok]) -> Result<(), BindFault>
        ensures ok { OnOk result (DoesAny (HasTokens tokens.now) self.old (enumerating token) self.new) }
        ensures ill { IfErr result (λ f. Refuses f (FailsAny (HasTokens tokens.now) self.old (enumerating token))) }
        ensures typed { StaysTyped self.old self.new }
    {
        let name = name_at(tokens, token);
        let declared = declaration(
            Space::Ordinary,
            Kind::Enumerator,
            Linkage::None,
            token,
            name,
        );
        self.names.declare(declared, self.basics.arith)?;
        Ok(())
    }

    /// Answers whether the name of a token is a typedef name here (C11 6.7.8p3), and notes that it was asked.
    pub fn ask(&mut self, token: u32, name: Name) -> Result<bool, OutOfMemory>
        ensures answer { IfOk result (IsAnswer self.old.names token name) }
        ensures ok { IfOk result (λ b. Moves self.old (asked (Asked token b ∷ [])) self.new) }
        ensures typed { StaysTyped self.old self.new }
    {
        let answer = self.names.ask(token, name)?;
        Ok(answer)
    }
}
