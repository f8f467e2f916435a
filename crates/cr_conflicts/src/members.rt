//! Members of structures and unions: their keys, and those that would have one name in a record (C11 6.7.2.1, 6.2.3).
ghost use Rattle.std.specs.Prelude.{◌≡◌, ◌<◌, length, slice_get, IfOk, IfSome, OnOk};
ghost use Rattle.cr_scope.specs.Declarations.{same_space};
ghost use Rattle.cr_scope.specs.declared.Space.TheVariants as space;
ghost use Rattle.std.specs.List.{find};
ghost use Rattle.cr_groups.specs.Adding.{Adds, OfFirst};
ghost use Rattle.cr_groups.specs.Built.{AreSpelled};
ghost use Rattle.cr_groups.specs.Firsts.{AreFirsts};
ghost use Rattle.cr_conflicts.specs.Members as spec;
ghost use Rattle.cr_conflicts.specs.Members.{tag_token, is_tag_row, token_record_key_in, record_key_of, record_key_in, member_key_in, holder_of, MeetingAdds, IsMember, AreAllMembers, AreAtTokens};

use crate::pairs::{later, row_at};
use crate::uses::{name_in, place_in};
use cr_base::{Key, Kind, Name, NameTable, Origin, OutOfMemory, RecordKey, TagKind, Text, Tok};
use cr_declared::Row;
use cr_facts::{Fact, FactSet};
use cr_groups::{Names, add_fact, first_at, is_same, note_first};
use cr_scope::Space;
use indexmap::IndexMap;
use std::alloc::Global;

/// A member that a name selects: the number of the record in which it does, that of the record in which the member is
/// written, and the token that declares it.
#[derive(Clone, Copy, Debug, PartialEq, Eq)]
pub struct MemberRow {
    pub holder: usize,
    pub own: usize,
    pub token: u32,
}

fn is_tag(sort: Space) -> bool
    ensures { result ≡ same_space sort space.Tag }
{
    match sort {
        Space::Tag => true,
        Space::Label | Space::Ordinary => false,
    }
}

fn tag_in(row: Row) -> Option<usize>
    ensures { result ≡ tag_token row }
{
    if is_tag(row.decl.space) {
        Some(row.decl.token as usize)
    } else {
        None
    }
}

/// Finds the tokens that declare tags, each with the number of its first declaration.
pub fn tags_of(alloc: Global, rows: &[Row]) -> Result<IndexMap<usize, usize>, OutOfMemory>
    ensures { IfOk result (λ tags. AreFirsts tag_token rows.now tags.entries (length rows.now)) }
{
    let mut firsts = IndexMap::new(alloc);
    let mut i = 0;
    'each: while i < rows.len() {
        note_first(&mut firsts, tag_in(rows[i]), i)?;
        i += 1;
    }
    Ok(firsts)
}

// The first declaration of a tag at a token.
fn tag_at(rows: &[Row], tags: &IndexMap<usize, usize>, token: u32) -> Option<Row>
    requires tags { AreFirsts tag_token rows.now tags.now.entries (length rows.now) }
    ensures { result ≡ find (is_tag_row token) rows.now }
{
    let Some(n) = first_at(tags, token as usize) else {
        return None;
    };
    row_at(rows, n)
}

fn tag_kind(kind: Kind) -> TagKind
    ensures { result ≡ spec.tag_kind kind }
{
    match kind {
        Kind::Struct => TagKind::Struct,
        Kind::Union => TagKind::Union,
        _ => TagKind::Enum,
    }
}

// The key of a record by a token: its place, or its number where preprocessing made it.
fn token_record_key(unit: u32, tokens: &[Tok], token: u32) -> RecordKey
    requires { token < length tokens.now }
    ensures { result ≡ token_record_key_in unit tokens.now token }
{
    match tokens[token as usize].origin {
        Origin::At(place) => RecordKey::At(place),
        Origin::Made => RecordKey::Made(unit, token),
    }
}

// The key of a record by its first token, and by the declaration of a tag there.
fn key_by_tag(
    alloc: Global,
    unit: u32,
    tokens: &[Tok],
    table: &NameTable,
    token: u32,
    tag: Option<Row>,
) -> Result<RecordKey, OutOfMemory>
    requires token { token < length tokens.now }
    requires spelled { IfSome tag (λ x. x.decl.name.0 < length table.now) }
    ensures { IfOk result (λ k. k ≡ record_key_of unit table.now tokens.now token tag) }
{
    match tag {
        None => Ok(token_record_key(unit, tokens, token)),
        Some(row) => {
            if row.path == 0 {
                let text = Text::new(alloc, table.text(row.decl.name))?;
                Ok(RecordKey::Tag(tag_kind(row.decl.kind), text))
            } else {
                Ok(token_record_key(unit, tokens, token))
            }
        }
    }
}

/// The key of a member: the record in which it is written, and its name.
pub fn member_key(
    alloc: Global,
    unit: u32,
    tokens: &[Tok],
    table: &NameTable,
    rows: &[Row],
    tags: &IndexMap<usize, usize>,
    records: &[u32],
    one: MemberRow,
) -> Result<Key, OutOfMemory>
    requires rows { AreSpelled table.now tokens.now rows.now }
    requires tags { AreFirsts tag_token rows.now tags.now.entries (length rows.now) }
    requires member { IsMember table.now tokens.now records.now one }
    ensures { IfOk result (λ k. k
        ≡ member_key_in unit table.now tokens.now rows.now records.now one) }
{
    let first = records[one.own];
    let tag = tag_at(rows, tags, first);
    let record = key_by_tag(alloc, unit, tokens, table, first, tag)?;
    let text = Text::new(alloc, table.text(name_in(tokens, one.token)))?;
    Ok(Key::Member(record, text))
}

fn holder_in(tokens: &[Tok], name: Name, one: MemberRow) -> Option<usize>
    requires { one.token < length tokens.now }
    ensures { result ≡ holder_of tokens.now name one }
{
    if is_same(name_in(tokens, one.token), name) {
        Some(one.holder)
    } else {
        None
    }
}

/// Finds the records that have a member of a name, each with the member's number.
pub fn holders_of(
    alloc: Global,
    tokens: &[Tok],
    members: &[MemberRow],
    name: Name,
) -> Result<IndexMap<usize, usize>, OutOfMemory>
    requires there { AreAtTokens tokens.now members.now }
    ensures { IfOk result (λ holders. AreFirsts (holder_of tokens.now name)
        members.now holders.entries (length members.now)) }
{
    let mut firsts = IndexMap::new(alloc);
    let mut i = 0;
    'each: while i < members.len() {
        note_first(&mut firsts, holder_in(tokens, name, members[i]), i)?;
        i += 1;
    }
    Ok(firsts)
}

/// A member by its number.
pub fn member_at(members: &[MemberRow], n: usize) -> Option<MemberRow>
    ensures { result ≡ slice_get members.now n }
{
    members.get(n).copied()
}

// Adds the conflict of a member of the old name that has one of the new name beside it.
fn add_meeting(
    alloc: Global,
    facts: &mut FactSet,
    unit: u32,
    tokens: &[Tok],
    table: &NameTable,
    rows: &[Row],
    tags: &IndexMap<usize, usize>,
    records: &[u32],
    members: &[MemberRow],
    holders: &IndexMap<usize, usize>,
    names: Names,
    one: MemberRow,
) -> Result<(), OutOfMemory>
    requires rows { AreSpelled table.now tokens.now rows.now }
    requires tags { AreFirsts tag_token rows.now tags.now.entries (length rows.now) }
    requires all { AreAllMembers table.now tokens.now records.now members.now }
    requires member { IsMember table.now tokens.now records.now one }
    requires holders { AreFirsts (holder_of tokens.now names.new)
        members.now holders.now.entries (length members.now) }
    ensures { OnOk result (Adds facts.old facts.new (MeetingAdds unit table.now tokens.now rows.now
        records.now members.now names.old names.new one)) }
{
    if !is_same(name_in(tokens, one.token), names.old) {
        return Ok(());
    }
    let Some(n) = first_at(holders, one.holder) else {
        return Ok(());
    };
    let Some(other) = member_at(members, n) else {
        return Ok(());
    };
    let key = member_key(alloc, unit, tokens, table, rows, tags, records, one)?;
    let site = place_in(tokens, later(one.token, other.token));
    add_fact(facts, Fact::Conflict(key, site))?;
    Ok(())
}

/// Adds the conflicts of members of the old name that have one of the new name beside them.
pub fn add_meetings(
    alloc: Global,
    facts: &mut FactSet,
    unit: u32,
    tokens: &[Tok],
    table: &NameTable,
    rows: &[Row],
    tags: &IndexMap<usize, usize>,
    records: &[u32],
    members: &[MemberRow],
    holders: &IndexMap<usize, usize>,
    names: Names,
) -> Result<(), OutOfMemory>
    requires rows { AreSpelled table.now tokens.now rows.now }
    requires tags { AreFirsts tag_token rows.now tags.now.entries (length rows.now) }
    requires all { AreAllMembers table.now tokens.now records.now members.now }
    requires holders { AreFirsts (holder_of tokens.now names.new)
        members.now holders.now.entries (length members.now) }
    ensures { OnOk result (Adds facts.old facts.new (OfFirst
        (MeetingAdds unit table.now tokens.now rows.now records.now members.now
        names.old names.new) members.now (length members.now))) }
{
    let mut i = 0;
    'each: while i < members.len() {
        add_meeting(
            alloc, facts, unit, tokens, table, rows, tags, records, members, holders, names,
            members[i],
        )?;
        i += 1;
    }
    Ok(())
}
