//! Conflicts of identifiers of which it was asked whether they are typedef names, and denied (C11 6.7.8, 6.9.1).
ghost use Rattle.std.specs.Prelude.{◌≡◌, ◌<◌, ◌≤◌, ◌↔◌, [], length, is_some, IsTrue, IfOk, OnOk};
ghost use Rattle.cr_paths.specs.Paths.{path_at, AreDistinct};
ghost use Rattle.cr_declared.specs.Rows.{AreRows};
ghost use Rattle.cr_groups.specs.Adding.{Adds, OfFirst};
ghost use Rattle.cr_groups.specs.Firsts.{find_number, AreFirsts};
ghost use Rattle.cr_groups.specs.Rows.{IsSound, AreSound};
ghost use Rattle.cr_conflicts.specs.Asks as spec;
ghost use Rattle.cr_conflicts.specs.Asks.{ordinary, token_of_name, parameter_token, built_in_token, HasToken, HaveTokens, IsTop, IsTypedefOver, IsOverTypedef, IsOfTypedef, IsTypeName, IsOfToken, OldAdds, DeniedAdds, AnswerAdds, AskAdds, AreByToken};

use crate::pairs::{add_at, row_at, slot_as};
use crate::uses::{name_in, place_in};
use cr_base::{Name, OutOfMemory, Place, Tok};
use cr_declared::{Row, Slot, UseRow};
use cr_facts::FactSet;
use cr_groups::{
    Group, Names, Sort, add_deeper, depth, first_at, group_at, is_one_of, is_same, nearest,
    note_first, outermost,
};
use cr_paths::Paths;
use cr_scope::Space;
use indexmap::IndexMap;
use std::alloc::Global;

/// The tokens of one of the names that declare parameters, those that denote what is built in, and those that declare the
/// old name, each with the number of its first use or declaration.
#[derive(Drop)]
pub struct ByToken {
    pub parameters: IndexMap<usize, usize>,
    pub built_ins: IndexMap<usize, usize>,
    pub declared: IndexMap<usize, usize>,
}

// A token that has one of the names.
fn if_named(tokens: &[Tok], names: Names, token: u32) -> Option<usize>
    requires { token < length tokens.now }
    ensures { result ≡ spec.if_named tokens.now names.old names.new token }
{
    if is_one_of(names, name_in(tokens, token)) {
        Some(token as usize)
    } else {
        None
    }
}

fn parameter_in(tokens: &[Tok], names: Names, one: UseRow) -> Option<usize>
    requires { HasToken tokens.now one }
    ensures { result ≡ parameter_token tokens.now names.old names.new one }
{
    match one {
        UseRow::IsParameter(token) => if_named(tokens, names, token),
        _ => None,
    }
}

fn built_in_in(tokens: &[Tok], names: Names, one: UseRow) -> Option<usize>
    requires { HasToken tokens.now one }
    ensures { result ≡ built_in_token tokens.now names.old names.new one }
{
    match one {
        UseRow::IsBuiltIn(token) => if_named(tokens, names, token),
        _ => None,
    }
}

fn declared_in(name: Name, row: Row) -> Option<usize>
    ensures { result ≡ token_of_name name row }
{
    if is_same(row.decl.name, name) {
        Some(row.decl.token as usize)
    } else {
        None
    }
}

// The tokens of one of the names that declare parameters.
fn parameters_of(
    alloc: Global,
    tokens: &[Tok],
    uses: &[UseRow],
    names: Names,
) -> Result<IndexMap<usize, usize>, OutOfMemory>
    requires there { HaveTokens tokens.now uses.now }
    ensures { IfOk result (λ firsts. AreFirsts (parameter_token tokens.now names.old names.new)
        uses.now firsts.entries (length uses.now)) }
{
    let mut firsts = IndexMap::new(alloc);
    let mut i = 0;
    'each: while i < uses.len() {
        note_first(&mut firsts, parameter_in(tokens, names, uses[i]), i)?;
        i += 1;
    }
    Ok(firsts)
}

// The tokens of one of the names that denote what is built in.
fn built_ins_of(
    alloc: Global,
    tokens: &[Tok],
    uses: &[UseRow],
    names: Names,
) -> Result<IndexMap<usize, usize>, OutOfMemory>
    requires there { HaveTokens tokens.now uses.now }
    ensures { IfOk result (λ firsts. AreFirsts (built_in_token tokens.now names.old names.new)
        uses.now firsts.entries (length uses.now)) }
{
    let mut firsts = IndexMap::new(alloc);
    let mut i = 0;
    'each: while i < uses.len() {
        note_first(&mut firsts, built_in_in(tokens, names, uses[i]), i)?;
        i += 1;
    }
    Ok(firsts)
}

// The tokens that declare a name.
fn declared_of(
    alloc: Global,
    rows: &[Row],
    name: Name,
) -> Result<IndexMap<usize, usize>, OutOfMemory>
    ensures { IfOk result (λ firsts. AreFirsts (token_of_name name)
        rows.now firsts.entries (length rows.now)) }
{
    let mut firsts = IndexMap::new(alloc);
    let mut i = 0;
    'each: while i < rows.len() {
        note_first(&mut firsts, declared_in(name, rows[i]), i)?;
        i += 1;
    }
    Ok(firsts)
}

// An identifier of which it was asked: its token, the number of its scope's path, and how many declarations there were.
#[derive(Clone, Copy)]
pub struct Asked {
    pub token: u32,
    pub path: usize,
    pub before: usize,
}

fn ordinary(path: usize, name: Name) -> Slot
    ensures { result ≡ spec.ordinary path name }
{
    Slot {
        path,
        space: Space::Ordinary,
        name,
    }
}

// The depth of the innermost declarations of a name.
fn top(paths: &Paths, groups: &IndexMap<Slot, Group>, sought: Slot, before: usize) -> Option<usize>
    requires distinct { AreDistinct paths.now }
    requires file_scope { path_at paths.now 0 ≡ [] }
    requires within { sought.path < length paths.now }
    ensures { IsTop paths.now groups.now.entries sought before result }
{
    match nearest(paths, groups, sought, before, Sort::Any) {
        Some(at) => Some(depth(paths, at)),
        None => None,
    }
}

// Adds the typedefs of the old name that are deeper than all of the new one.
fn add_typedefs_over(
    alloc: Global,
    facts: &mut FactSet,
    paths: &Paths,
    groups: &IndexMap<Slot, Group>,
    names: Names,
    asked: Asked,
    site: Place,
) -> Result<(), OutOfMemory>
    requires distinct { AreDistinct paths.now }
    requires file_scope { path_at paths.now 0 ≡ [] }
    requires path { asked.path < length paths.now }
    ensures { OnOk result (Adds facts.old facts.new (IsTypedefOver paths.now groups.now.entries
        names.old names.new asked.path asked.before site)) }
{
    let over = top(paths, groups, ordinary(asked.path, names.new), asked.before);
    let sought = ordinary(asked.path, names.old);
    add_deeper(
        alloc,
        facts,
        paths,
        groups,
        sought,
        asked.before,
        over,
        Sort::Typedef,
        site,
    )?;
    Ok(())
}

// Adds what is deeper than some typedef of the old name, and would no longer hide it.
fn add_over_typedef(
    alloc: Global,
    facts: &mut FactSet,
    paths: &Paths,
    groups: &IndexMap<Slot, Group>,
    names: Names,
    asked: Asked,
    site: Place,
) -> Result<(), OutOfMemory>
    requires distinct { AreDistinct paths.now }
    requires file_scope { path_at paths.now 0 ≡ [] }
    requires path { asked.path < length paths.now }
    ensures { OnOk result (Adds facts.old facts.new (IsOverTypedef paths.now groups.now.entries
        names.old asked.path asked.before site)) }
{
    let sought = ordinary(asked.path, names.old);
    let Some(at) = outermost(paths, groups, sought, asked.before, Sort::Typedef) else {
        return Ok(());
    };
    let over = Some(depth(paths, at));
    add_deeper(
        alloc,
        facts,
        paths,
        groups,
        sought,
        asked.before,
        over,
        Sort::Other,
        site,
    )?;
    Ok(())
}

// Whether the group of a slot is of a typedef name.
fn is_of_typedef(groups: &IndexMap<Slot, Group>, slot: Slot) -> bool
    ensures { IsTrue result ↔ IsOfTypedef groups.now.entries slot }
{
    match group_at(groups, slot) {
        Some(group) => group.is_typedef,
        None => false,
    }
}

// Whether a name is a typedef name.
fn is_type_name(paths: &Paths, groups: &IndexMap<Slot, Group>, name: Name, asked: Asked) -> bool
    requires distinct { AreDistinct paths.now }
    requires file_scope { path_at paths.now 0 ≡ [] }
    requires path { asked.path < length paths.now }
    ensures { IsTrue result
        ↔ IsTypeName paths.now groups.now.entries name asked.path asked.before }
{
    match nearest(
        paths,
        groups,
        ordinary(asked.path, name),
        asked.before,
        Sort::Any,
    ) {
        Some(at) => is_of_typedef(groups, ordinary(at, name)),
        None => false,
    }
}

// Adds a conflict of the first declaration of the old name at a token.
fn add_of_token(
    alloc: Global,
    facts: &mut FactSet,
    rows: &[Row],
    groups: &IndexMap<Slot, Group>,
    declared: &IndexMap<usize, usize>,
    names: Names,
    token: u32,
    site: Place,
) -> Result<(), OutOfMemory>
    requires declared { AreFirsts (token_of_name names.old)
        rows.now declared.now.entries (length rows.now) }
    ensures { OnOk result (Adds facts.old facts.new
        (IsOfToken rows.now groups.now.entries names.old token site)) }
{
    let Some(n) = first_at(declared, token as usize) else {
        return Ok(());
    };
    let Some(row) = row_at(rows, n) else {
        return Ok(());
    };
    add_at(alloc, facts, groups, slot_as(row, row.decl.name), site)?;
    Ok(())
}

// Adds what a parameter of the old name would be, if the new one is a typedef name.
fn add_taken(
    alloc: Global,
    facts: &mut FactSet,
    paths: &Paths,
    rows: &[Row],
    groups: &IndexMap<Slot, Group>,
    declared: &IndexMap<usize, usize>,
    names: Names,
    asked: Asked,
    site: Place,
) -> Result<(), OutOfMemory>
    requires distinct { AreDistinct paths.now }
    requires file_scope { path_at paths.now 0 ≡ [] }
    requires path { asked.path < length paths.now }
    requires declared { AreFirsts (token_of_name names.old)
        rows.now declared.now.entries (length rows.now) }
    ensures { OnOk result (Adds facts.old facts.new
        (λ f. IsTypeName paths.now groups.now.entries names.new asked.path asked.before
        × IsOfToken rows.now groups.now.entries names.old asked.token site f)) }
{
    if !is_type_name(paths, groups, names.new, asked) {
        return Ok(());
    }
    add_of_token(
        alloc,
        facts,
        rows,
        groups,
        declared,
        names,
        asked.token,
        site,
    )?;
    Ok(())
}

// Adds what an ask of a token of the old name adds, where it declares a parameter or not.
fn add_of_old(
    alloc: Global,
    facts: &mut FactSet,
    paths: &Paths,
    rows: &[Row],
    groups: &IndexMap<Slot, Group>,
    declared: &IndexMap<usize, usize>,
    names: Names,
    asked: Asked,
    parameter: bool,
    site: Place,
) -> Result<(), OutOfMemory>
    requires distinct { AreDistinct paths.now }
    requires file_scope { path_at paths.now 0 ≡ [] }
    requires path { asked.path < length paths.now }
    requires declared { AreFirsts (token_of_name names.old)
        rows.now declared.now.entries (length rows.now) }
    ensures { OnOk result (Adds facts.old facts.new (OldAdds paths.now rows.now groups.now.entries
        names.old names.new asked.token asked.path asked.before site (IsTrue parameter))) }
{
    add_over_typedef(alloc, facts, paths, groups, names, asked, site)?;
    if !parameter {
        return Ok(());
    }
    add_taken(
        alloc, facts, paths, rows, groups, declared, names, asked, site,
    )?;
    add_typedefs_over(alloc, facts, paths, groups, names, asked, site)?;
    Ok(())
}

// Adds what an ask of a token of the new name adds.
fn add_if_new(
    alloc: Global,
    facts: &mut FactSet,
    paths: &Paths,
    groups: &IndexMap<Slot, Group>,
    names: Names,
    asked: Asked,
    name: Name,
    site: Place,
) -> Result<(), OutOfMemory>
    requires distinct { AreDistinct paths.now }
    requires file_scope { path_at paths.now 0 ≡ [] }
    requires path { asked.path < length paths.now }
    ensures { OnOk result (Adds facts.old facts.new (λ f. (name ≡ names.new)
        × IsTypedefOver paths.now groups.now.entries names.old names.new
        asked.path asked.before site f)) }
{
    if !is_same(name, names.new) {
        return Ok(());
    }
    add_typedefs_over(alloc, facts, paths, groups, names, asked, site)?;
    Ok(())
}

// Adds what an ask adds that was denied.
fn add_denied(
    alloc: Global,
    facts: &mut FactSet,
    paths: &Paths,
    rows: &[Row],
    tokens: &[Tok],
    groups: &IndexMap<Slot, Group>,
    declared: &IndexMap<usize, usize>,
    names: Names,
    asked: Asked,
    parameter: bool,
) -> Result<(), OutOfMemory>
    requires distinct { AreDistinct paths.now }
    requires file_scope { path_at paths.now 0 ≡ [] }
    requires token { asked.token < length tokens.now }
    requires path { asked.path < length paths.now }
    requires declared { AreFirsts (token_of_name names.old)
        rows.now declared.now.entries (length rows.now) }
    ensures { OnOk result (Adds facts.old facts.new (DeniedAdds tokens.now paths.now rows.now
        groups.now.entries names.old names.new asked.token asked.path asked.before
        (IsTrue parameter))) }
{
    let name = name_in(tokens, asked.token);
    let site = place_in(tokens, asked.token);
    add_if_new(alloc, facts, paths, groups, names, asked, name, site)?;
    if !is_same(name, names.old) {
        return Ok(());
    }
    add_of_old(
        alloc, facts, paths, rows, groups, declared, names, asked, parameter, site,
    )?;
    Ok(())
}

/// Finds the uses and declarations of the two names by their tokens.
pub fn by_token(
    alloc: Global,
    tokens: &[Tok],
    rows: &[Row],
    uses: &[UseRow],
    names: Names,
) -> Result<ByToken, OutOfMemory>
    requires there { HaveTokens tokens.now uses.now }
    ensures { IfOk result (λ found. AreByToken tokens.now rows.now uses.now
        names.old names.new found) }
{
    let parameters = parameters_of(alloc, tokens, uses, names)?;
    let built_ins = built_ins_of(alloc, tokens, uses, names)?;
    let declared = declared_of(alloc, rows, names.old)?;
    Ok(ByToken {
        parameters,
        built_ins,
        declared,
    })
}

// Whether something is noted under a token.
fn is_noted(firsts: &IndexMap<usize, usize>, token: u32) -> bool
    ensures { result ≡ is_some (find_number token firsts.now.entries) }
{
    first_at(firsts, token as usize).is_some()
}

// Adds what an ask adds that had an answer.
fn add_answered(
    alloc: Global,
    facts: &mut FactSet,
    paths: &Paths,
    rows: &[Row],
    tokens: &[Tok],
    uses: &[UseRow],
    groups: &IndexMap<Slot, Group>,
    found: &ByToken,
    names: Names,
    asked: Asked,
    answer: bool,
) -> Result<(), OutOfMemory>
    requires kept { AreRows paths.now rows.now }
    requires token { asked.token < length tokens.now }
    requires path { asked.path < length paths.now }
    requires found { AreByToken tokens.now rows.now uses.now names.old names.new found.now }
    ensures { OnOk result (Adds facts.old facts.new (AnswerAdds tokens.now paths.now rows.now
        groups.now.entries names.old names.new uses.now
        asked.token asked.path asked.before answer)) }
{
    if answer {
        return Ok(());
    }
    let parameter = is_noted(&found.parameters, asked.token);
    let built_in = is_noted(&found.built_ins, asked.token);
    if !parameter && !built_in {
        return Ok(());
    }
    add_denied(
        alloc,
        facts,
        paths,
        rows,
        tokens,
        groups,
        &found.declared,
        names,
        asked,
        parameter,
    )?;
    Ok(())
}

// Adds what a use adds, where it is an ask.
fn add_ask(
    alloc: Global,
    facts: &mut FactSet,
    paths: &Paths,
    rows: &[Row],
    tokens: &[Tok],
    uses: &[UseRow],
    groups: &IndexMap<Slot, Group>,
    found: &ByToken,
    names: Names,
    one: UseRow,
) -> Result<(), OutOfMemory>
    requires kept { AreRows paths.now rows.now }
    requires sound { IsSound tokens.now paths.now rows.now one }
    requires found { AreByToken tokens.now rows.now uses.now names.old names.new found.now }
    ensures { OnOk result (Adds facts.old facts.new (AskAdds tokens.now paths.now rows.now
        groups.now.entries names.old names.new uses.now one)) }
{
    match one {
        UseRow::WasAsked(token, path, before, answer) => {
            let asked = Asked {
                token,
                path,
                before,
            };
            add_answered(
                alloc, facts, paths, rows, tokens, uses, groups, found, names, asked, answer,
            )?;
            Ok(())
        }
        _ => Ok(()),
    }
}

/// Adds the conflicts of asks that were denied.
pub fn add_asks(
    alloc: Global,
    facts: &mut FactSet,
    paths: &Paths,
    rows: &[Row],
    tokens: &[Tok],
    uses: &[UseRow],
    groups: &IndexMap<Slot, Group>,
    found: &ByToken,
    names: Names,
) -> Result<(), OutOfMemory>
    requires kept { AreRows paths.now rows.now }
    requires sound { AreSound tokens.now paths.now rows.now uses.now }
    requires found { AreByToken tokens.now rows.now uses.now names.old names.new found.now }
    ensures { OnOk result (Adds facts.old facts.new (OfFirst (AskAdds tokens.now paths.now rows.now
        groups.now.entries names.old names.new uses.now) uses.now (length uses.now))) }
{
    let mut i = 0;
    'each: while i < uses.len() {
        add_ask(
            alloc, facts, paths, rows, tokens, uses, groups, found, names, uses[i],
        )?;
        i += 1;
    }
    Ok(())
}
