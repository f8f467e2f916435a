//! Conflicts of what is looked up (C11 6.2.1).
ghost use Rattle.std.specs.Prelude.{◌≡◌, ◌<◌, ◌≤◌, ℕ, None, length, IfSome, OnOk, MatchOption};
ghost use Rattle.cr_binding.specs.UnitConflicts.{made_by};
ghost use Rattle.cr_declared.specs.Rows.{AreRows};
ghost use Rattle.cr_groups.specs.Adding.{Adds};
ghost use Rattle.cr_groups.specs.Outward.{limit_over};
ghost use Rattle.cr_groups.specs.Rows.{name_in, place_in, IsSound, AreSound};
ghost use Rattle.cr_conflicts.specs.Clauses.{limit_of, Captures, UseAdds, UsesAdd, floor_of, IsMeantAt, IsTheOne, Hides};
ghost use Rattle.cr_paths.specs.Paths.{path_at};

use cr_base::{Name, Origin, OutOfMemory, Place, Tok};
use cr_declared::{Row, Slot, UseRow};
use cr_facts::FactSet;
use cr_groups::{Group, Names, Sort, add_deeper, add_here, depth, is_same, nearest, shows_from};
use cr_paths::Paths;
use cr_scope::Space;
use indexmap::IndexMap;
use std::alloc::Global;

// The spelling of a token.
pub fn name_in(tokens: &[Tok], token: u32) -> Name
    requires { token < length tokens.now }
    ensures { result ≡ name_in tokens.now token }
{
    tokens[token as usize].text
}

// The place of a token; where preprocessing made it, the place of the outermost macro's name.
pub fn place_in(tokens: &[Tok], token: u32) -> Place
    requires { token < length tokens.now }
    ensures { result ≡ place_in tokens.now token }
{
    match tokens[token as usize].origin {
        Origin::At(place) => place,
        Origin::Made => tokens[token as usize].site,
    }
}

// A tag that a mention declares is declared when its conflicts are looked for.
fn made_by(rows: &[Row], denoted: Option<usize>, before: usize) -> usize
    requires { denoted ≡ None → before < length rows.now }
    ensures { result ≡ made_by denoted before }
{
    match denoted {
        Some(_) => before,
        None => {
            if before < rows.len() {
                before + 1
            } else {
                unreachable!()
            }
        }
    }
}

// The depth over which is what is deeper than what is denoted.
fn depth_of(paths: &Paths, rows: &[Row], denoted: Option<usize>) -> Option<usize>
    requires kept { AreRows paths.now rows.now }
    requires there { IfSome denoted (λ c. c < length rows.now) }
    ensures { limit_over result ≡ limit_of paths.now rows.now denoted }
{
    match denoted {
        None => None,
        Some(c) => Some(depth(paths, rows[c].path)),
    }
}

// A name that is looked up: its name space and token, the number of its scope's path, how many declarations there were,
// and which one it denotes.
#[derive(Clone, Copy)]
pub struct Sought {
    pub space: Space,
    pub token: u32,
    pub path: usize,
    pub before: usize,
    pub denoted: Option<usize>,
}

// Adds what captures a mention of the new name.
fn add_captured(
    alloc: Global,
    facts: &mut FactSet,
    paths: &Paths,
    rows: &[Row],
    tokens: &[Tok],
    groups: &IndexMap<Slot, Group>,
    names: Names,
    sought: Sought,
) -> Result<(), OutOfMemory>
    requires kept { AreRows paths.now rows.now }
    requires token { sought.token < length tokens.now }
    requires path { sought.path < length paths.now }
    requires new_tag { sought.denoted ≡ None → sought.before < length rows.now }
    requires denoted { IfSome sought.denoted (λ c. c < length rows.now) }
    ensures { OnOk result (Adds facts.old facts.new (Captures tokens.now paths.now rows.now
        groups.now.entries names.old names.new
        sought.space sought.token sought.path sought.before sought.denoted)) }
{
    if is_same(name_in(tokens, sought.token), names.new) {
        let slot = Slot {
            path: sought.path,
            space: sought.space,
            name: names.old,
        };
        let before = made_by(rows, sought.denoted, sought.before);
        let over = depth_of(paths, rows, sought.denoted);
        let site = place_in(tokens, sought.token);
        add_deeper(
            alloc,
            facts,
            paths,
            groups,
            slot,
            before,
            over,
            Sort::Any,
            site,
        )?;
    }
    Ok(())
}

// The depth of what is denoted.
fn floor_of(paths: &Paths, rows: &[Row], denoted: Option<usize>) -> usize
    requires kept { AreRows paths.now rows.now }
    requires there { IfSome denoted (λ c. c < length rows.now) }
    ensures { result ≡ floor_of paths.now rows.now denoted }
{
    match denoted {
        None => 0,
        Some(c) => depth(paths, rows[c].path),
    }
}

// The scope of what is denoted, or of the tag that is declared.
fn meant_at(
    paths: &Paths,
    rows: &[Row],
    groups: &IndexMap<Slot, Group>,
    sought: Slot,
    before: usize,
    denoted: Option<usize>,
) -> Option<usize>
    requires kept { AreRows paths.now rows.now }
    requires within { sought.path < length paths.now }
    requires there { IfSome denoted (λ c. c < length rows.now) }
    ensures { IsTheOne
        (IsMeantAt paths.now rows.now groups.now.entries sought before denoted) result }
{
    match denoted {
        None => nearest(paths, groups, sought, before, Sort::Any),
        Some(c) => Some(rows[c].path),
    }
}

// Adds what hides the meaning of a mention of the old name.
fn add_hidden(
    alloc: Global,
    facts: &mut FactSet,
    paths: &Paths,
    rows: &[Row],
    tokens: &[Tok],
    groups: &IndexMap<Slot, Group>,
    names: Names,
    sought: Sought,
) -> Result<(), OutOfMemory>
    requires kept { AreRows paths.now rows.now }
    requires token { sought.token < length tokens.now }
    requires path { sought.path < length paths.now }
    requires new_tag { sought.denoted ≡ None → sought.before < length rows.now }
    requires denoted { IfSome sought.denoted (λ c. c < length rows.now) }
    ensures { OnOk result (Adds facts.old facts.new (Hides tokens.now paths.now rows.now
        groups.now.entries names.old names.new
        sought.space sought.token sought.path sought.before sought.denoted)) }
{
    if !is_same(name_in(tokens, sought.token), names.old) {
        return Ok(());
    }
    let space = sought.space;
    let before = made_by(rows, sought.denoted, sought.before);
    let over = Slot {
        path: sought.path,
        space,
        name: names.new,
    };
    let floor = floor_of(paths, rows, sought.denoted);
    if !shows_from(paths, groups, over, before, floor) {
        return Ok(());
    }
    let meant = Slot {
        path: sought.path,
        space,
        name: names.old,
    };
    let Some(at) = meant_at(paths, rows, groups, meant, before, sought.denoted) else {
        return Ok(());
    };
    let here = Slot {
        path: at,
        space,
        name: names.old,
    };
    let site = place_in(tokens, sought.token);
    add_here(alloc, facts, groups, here, before, Sort::Any, site)?;
    Ok(())
}

// Adds what a use tells.
fn add_use(
    alloc: Global,
    facts: &mut FactSet,
    paths: &Paths,
    rows: &[Row],
    tokens: &[Tok],
    groups: &IndexMap<Slot, Group>,
    names: Names,
    one: UseRow,
) -> Result<(), OutOfMemory>
    requires kept { AreRows paths.now rows.now }
    requires sound { IsSound tokens.now paths.now rows.now one }
    ensures { OnOk result (Adds facts.old facts.new (UseAdds tokens.now paths.now rows.now
        groups.now.entries names.old names.new one)) }
{
    match one {
        UseRow::LookedUp(space, token, path, before, denoted) => {
            let sought = Sought {
                space,
                token,
                path,
                before,
                denoted,
            };
            add_captured(alloc, facts, paths, rows, tokens, groups, names, sought)?;
            add_hidden(alloc, facts, paths, rows, tokens, groups, names, sought)?;
            Ok(())
        }
        _ => Ok(()),
    }
}

/// Adds what the uses of a unit tell.
pub fn add_uses(
    alloc: Global,
    facts: &mut FactSet,
    paths: &Paths,
    rows: &[Row],
    tokens: &[Tok],
    groups: &IndexMap<Slot, Group>,
    names: Names,
    uses: &[UseRow],
) -> Result<(), OutOfMemory>
    requires kept { AreRows paths.now rows.now }
    requires sound { AreSound tokens.now paths.now rows.now uses.now }
    ensures { OnOk result (Adds facts.old facts.new (UsesAdd tokens.now paths.now rows.now
        groups.now.entries names.old names.new uses.now (length uses.now))) }
{
    let mut i = 0;
    'each: while i < uses.len() {
        add_use(alloc, facts, paths, rows, tokens, groups, names, uses[i])?;
        i += 1;
    }
    Ok(())
}
