//! Tags, and the types that they name (C11 6.7.2.1 to 6.7.2.3).
ghost use Rattle.std.specs.Prelude.{◌≡◌, false, ℕ, List, IfOk, IfErr, IfSome, OnOk, option_map, option_and_then};
ghost use Rattle.cr_types.specs.Types.{Table, IsTypeNo, IsRecNo, Keeps, type_at};
ghost use Rattle.cr_scope.specs.Redeclaration.{repeats};
ghost use Rattle.cr_binding.specs.Entities.{token_or};
ghost use Rattle.cr_binding.specs.Tags.{filling, is_record_kind, record_of as number_of_record};
ghost use Rattle.cr_binding.specs.State.{State};
ghost use Rattle.cr_names.specs.Names.{HasTokens, IsNamed, Refuses, declaration_of};
ghost use Rattle.cr_bound.specs.Kept.{kind_by, number, with_bound, IsTyped};
ghost use Rattle.cr_bound.specs.Bound.{Any, Does, DoesAny, DoesWith, Moves, StaysTyped, StaysWith, Fails, FailsAny, FailsWith};
ghost use Rattle.cr_bound.specs.Tags.{tagged, tagging, type_or_new, announcing, tag_alone_here, tag_completed, tag_used, untagged_at, using};

use crate::bound::Bound;
use crate::declaring::declaration;
use crate::place::kind_of;
use cr_base::{IllCause, Kind, Name, OutOfMemory, TagKind, Tok};
use cr_names::{BindFault, Typed, name_at, names_stay};
use cr_records::record_of;
use cr_scope::{Linkage, Space};
use cr_types::{RecNo, TypeNo, Types};

// Whether a declaration of a kind may be of a tag with a keyword.
fn repeats(kind: Kind, keyword: TagKind) -> bool
    ensures { result ≡ repeats false kind (kind_by keyword) }
{
    match (kind, keyword) {
        (Kind::Struct, TagKind::Struct) => true,
        (Kind::Union, TagKind::Union) => true,
        (Kind::Enum, TagKind::Enum) => true,
        _ => false,
    }
}

fn type_of(found: Option<Typed>) -> Option<TypeNo>
    ensures { result ≡ option_map (λ x. x.ty) found }
{
    match found {
        Some(typed) => Some(typed.ty),
        None => None,
    }
}

fn is_record(keyword: TagKind) -> bool
    ensures { result ≡ is_record_kind (kind_by keyword) }
{
    matches!(keyword, TagKind::Struct | TagKind::Union)
}

// The first token of a tag that has a declaration here, or else this one.
fn first_token(found: Option<Typed>, token: u32) -> u32
    ensures { (t : Table) (paths : List (List ℕ)) → token_or token (option_map (declaration_of t paths) found) ≡ result }
{
    match found {
        Some(typed) => typed.row.decl.token,
        None => token,
    }
}

// The record that a type is, if there is one.
fn filled_by(types: &Types, base: Option<TypeNo>) -> Option<RecNo>
    requires { IfSome base (IsTypeNo types.now) }
    ensures number { option_map number result ≡ option_and_then number_of_record (option_map (type_at types.now) base) }
    ensures given { IfSome result (IsRecNo types.now) }
{
    match base {
        Some(ty) => record_of(types, ty),
        None => None,
    }
}

impl Bound {
    // The tag of a token is declared with a type, which is specified.
    fn put_tag(&mut self, token: u32, name: Name, ty: TypeNo) -> Result<(), BindFault>
        ensures ok { OnOk result (DoesWith ty (IsNamed token name) self.old (tagged token) self.new) }
        ensures ill { IfErr result (λ f. Refuses f (FailsWith ty (IsNamed token name) self.old (tagged token))) }
        ensures typed { StaysWith ty self.old self.new }
        ensures records { self.new.records ≡ self.old.records }
    {
        let kind = kind_of(self.place.keyword);
        let declared = declaration(Space::Tag, kind, Linkage::None, token, name);
        self.names.declare(declared, ty)?;
        self.pending.base = Some(ty);
        self.pending.is_untagged = false;
        Ok(())
    }

    // The type of a tag: that of its first declaration here, or else a new one.
    fn tag_type(
        &mut self,
        types: &mut Types,
        here: Option<TypeNo>,
        token: u32,
    ) -> Result<TypeNo, OutOfMemory>
        requires typed { IsTyped types.old self.old }
        requires given { IfSome here (IsTypeNo types.old) }
        ensures given { IfOk result (IsTypeNo types.new) }
        ensures meant { IfOk result (λ n. (s : State) → type_at types.new n ≡ type_or_new (option_map (type_at types.old) here) (with_bound types.old self.old s)) }
        ensures ok { OnOk result (Does Any types.old self.old (λ _. announcing (option_map (type_at types.old) here) token) types.new self.new) }
        ensures typed { IsTyped types.new self.new }
        ensures completed { OnOk result (self.new.records.completed ≡ self.old.records.completed) }
        ensures pending { self.new.pending ≡ self.old.pending }
        ensures keyword { self.new.place ≡ self.old.place }
        ensures keeps { Keeps types.old types.new }
    {
        names_stay();
        match here {
            Some(ty) => Ok(ty),
            None => {
                let ty = self
                    .records
                    .announce(types, kind_of(self.place.keyword), token)?;
                Ok(ty)
            }
        }
    }

    // The tag of a token is declared again, or for the first time.
    fn tag_again(
        &mut self,
        types: &mut Types,
        here: Option<TypeNo>,
        token: u32,
        name: Name,
    ) -> Result<(), BindFault>
        requires typed { IsTyped types.old self.old }
        requires given { IfSome here (IsTypeNo types.old) }
        ensures ok { OnOk result (Does (IsNamed token name) types.old self.old (tagging (option_map (type_at types.old) here) token) types.new self.new) }
        ensures ill { IfErr result (λ f. Refuses f (Fails (IsNamed token name) types.old self.old (tagging (option_map (type_at types.old) here) token))) }
        ensures typed { IsTyped types.new self.new }
        ensures completed { OnOk result (self.new.records.completed ≡ self.old.records.completed) }
        ensures keeps { Keeps types.old types.new }
    {
        let ty = self.tag_type(types, here, token)?;
        self.put_tag(token, name, ty)?;
        Ok(())
    }

    /// `struct T ;`: the last token's tag is declared in the present scope (action `TagAlone`; C11 6.7.2.3p7).
    ///
    /// `Redeclared`: the scope has a tag of the name with another keyword.
    pub fn tag_alone(&mut self, types: &mut Types, tokens: &[Tok]) -> Result<(), BindFault>
        requires { IsTyped types.old self.old }
        ensures ok { OnOk result (Does (HasTokens tokens.now) types.old self.old tag_alone_here types.new self.new) }
        ensures ill { IfErr result (λ f. Refuses f (Fails (HasTokens tokens.now) types.old self.old tag_alone_here)) }
        ensures typed { IsTyped types.new self.new }
        ensures keeps { Keeps types.old types.new }
    {
        let token = self.place.last;
        let name = name_at(tokens, token);
        let here = self.names.get(self.names.tag_here(name));
        self.tag_again(types, type_of(here), token, name)?;
        Ok(())
    }

    // The record of the specified type, if it is one, is that whose members follow.
    fn fill(&mut self, types: &Types)
        requires { IsTyped types.now self.old }
        ensures ok { Does Any types.now self.old (λ _. filling) types.now self.new }
        ensures typed { IsTyped types.now self.new }
    {
        self.place.filled = filled_by(types, self.pending.base);
    }

    /// `struct T {`: the last token's tag is completed in the present scope, and its members follow (action `TagDef`;
    /// C11 6.7.2.3p1).
    ///
    /// `Redeclared`: it was completed before, or has another keyword.
    pub fn tag_definition(&mut self, types: &mut Types, tokens: &[Tok]) -> Result<(), BindFault>
        requires { IsTyped types.old self.old }
        ensures ok { OnOk result (Does (HasTokens tokens.now) types.old self.old tag_completed types.new self.new) }
        ensures ill { IfErr result (λ f. Refuses f (Fails (HasTokens tokens.now) types.old self.old tag_completed)) }
        ensures typed { IsTyped types.new self.new }
        ensures keeps { Keeps types.old types.new }
    {
        let token = self.place.last;
        let name = name_at(tokens, token);
        let here = self.names.get(self.names.tag_here(name));
        let first = first_token(here, token);
        if self.records.is_completed(first) {
            return Err(BindFault::Ill(IllCause::Redeclared, token));
        }
        self.tag_again(types, type_of(here), token, name)?;
        self.records.complete(first)?;
        self.fill(types);
        Ok(())
    }

    // A visible tag is used with the keyword.
    fn use_tag(&mut self, token: u32, denoted: Option<usize>, found: Typed) -> Result<(), BindFault>
        ensures ok { OnOk result (DoesWith found.ty Any self.old (using found.row.decl.kind denoted token) self.new) }
        ensures ill { IfErr result (λ f. Refuses f (FailsWith found.ty Any self.old (using found.row.decl.kind denoted token))) }
        ensures typed { StaysWith found.ty self.old self.new }
    {
        if !repeats(found.row.decl.kind, self.place.keyword) {
            return Err(BindFault::Ill(IllCause::Redeclared, token));
        }
        self.names.look_up(Space::Tag, token, denoted)?;
        self.pending.base = Some(found.ty);
        self.pending.is_untagged = false;
        Ok(())
    }

    /// Any other `struct T`: the last token is the visible tag, or declares one in the present scope (action `TagUse`;
    /// C11 6.7.2.3p3, p8).
    ///
    /// `Redeclared`: the visible tag has another keyword.
    pub fn tag_use(&mut self, types: &mut Types, tokens: &[Tok]) -> Result<(), BindFault>
        requires { IsTyped types.old self.old }
        ensures ok { OnOk result (Does (HasTokens tokens.now) types.old self.old tag_used types.new self.new) }
        ensures ill { IfErr result (λ f. Refuses f (Fails (HasTokens tokens.now) types.old self.old tag_used)) }
        ensures typed { IsTyped types.new self.new }
        ensures keeps { Keeps types.old types.new }
    {
        let token = self.place.last;
        let name = name_at(tokens, token);
        let denoted = self.names.meaning(Space::Tag, name);
        match self.names.get(denoted) {
            Some(found) => {
                self.use_tag(token, denoted, found)?;
                Ok(())
            }
            None => {
                self.names.look_up(Space::Tag, token, None)?;
                self.tag_again(types, None, token, name)?;
                Ok(())
            }
        }
    }

    /// A brace at a token in the place of a tag: a new structure, union or enumeration, whose members follow (action
    /// `Anon`).
    pub fn untagged(&mut self, types: &mut Types, brace: u32) -> Result<(), OutOfMemory>
        requires { IsTyped types.old self.old }
        ensures ok { OnOk result (Does Any types.old self.old (λ _. untagged_at brace) types.new self.new) }
        ensures typed { IsTyped types.new self.new }
        ensures keeps { Keeps types.old types.new }
    {
        let ty = self.tag_type(types, None, brace)?;
        self.pending.base = Some(ty);
        self.pending.is_untagged = is_record(self.place.keyword);
        self.fill(types);
        Ok(())
    }
}
