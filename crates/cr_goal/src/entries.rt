//! The entries of a run.
ghost use Rattle.std.specs.Prelude.{◌≡◌, ◌++◌, Some, IfOk, codes};
ghost use Rattle.cr_world.specs.Outside.{Files, Rose, OnlyRead, ReadsOnly};
ghost use Rattle.cr_compdb.specs.Database.{database};
ghost use Rattle.cr_goal.specs.declared.goal.Listing.TheVariants as listing;
ghost use Rattle.cr_goal.specs.declared.refusal.Status.TheVariants as status;
ghost use Rattle.cr_goal.specs.Units as spec;
ghost use Rattle.cr_goal.specs.Reading.{AreEntriesRead, AreEntriesReadAt};
ghost use Rattle.cr_goal.specs.Refusals.{Answers, HasReadCause, IsRefusal};

use crate::goal::Listing;
use crate::number::push_number;
use crate::refusal::{Refusal, Status, refusal_of};
use cr_base::{List, OutOfMemory, PathText, Text, Unit};
use cr_compdb::{DbFault, Entry, FieldName, read_db};
use cr_world::{ReadEnd, Tree};
use std::alloc::Global;

const MAX_DATABASE: usize = 67_108_864;

/// The entries of the database, or the source alone. The database is refused where it is absent, has more than 67,108,864
/// bytes, isn't JSON of the form that Clang describes, or lists more than 16,384 entries; `ReadFault` comes only where its
/// read failed in this call. Nothing else is read, and no file changes.
pub fn read_entries<T: Tree>(
    alloc: Global,
    tree: &mut T,
    units: &Listing,
) -> Result<Vec<Entry>, Refusal>
    ensures reads { ReadsOnly (T.files tree.old) (T.files tree.new) (T.reads tree.old) (T.reads tree.new) (T.replaces tree.old) (T.replaces tree.new) (T.replacings tree.old) (T.replacings tree.new) }
    ensures asked { OnlyRead (λ path. units.now ≡ listing.Database path) (T.readings tree.old) (T.readings tree.new) }
    ensures own { IfOk result (λ v. AreEntriesRead units.now v.items (T.readings tree.old) (T.readings tree.new)) }
    ensures decided { (files : Files) → T.files tree.old ≡ Some files
        → Answers (λ v. v.items) (spec.entries_of files units.now) result }
    ensures cause { HasReadCause (λ path. (units.now ≡ listing.Database path) × Rose (T.reads tree.old path) (T.reads tree.new path)) result }
{
    match units {
        Listing::Database(path) => read_database(alloc, tree, path),
        Listing::Alone(source) => Ok(lone_entry(alloc, source)?),
    }
}

fn lone_entry(alloc: Global, source: &PathText) -> Result<Vec<Entry>, OutOfMemory>
    ensures { IfOk result (λ v. v.items ≡ spec.lone_entry source.now) }
{
    let mut entries = Vec::new(alloc);
    entries.push(Entry::Unit(Unit {
        number: 0,
        main: source.copy(alloc)?,
        directory: PathText::empty(alloc),
        quote_dirs: List::of(Vec::new(alloc)),
        dirs: List::of(Vec::new(alloc)),
        system_dirs: List::of(Vec::new(alloc)),
        words: Text::new(alloc, b"")?,
    }))?;
    Ok(entries)
}

// A refusal of a database.
fn bad_database(alloc: Global, what: &[u8]) -> Refusal
    ensures { IsRefusal status.Database (codes "database: " ++ what.now) result }
{
    refusal_of(alloc, Status::Database, b"database: ", what)
}

fn read_database<T: Tree>(
    alloc: Global,
    tree: &mut T,
    path: &PathText,
) -> Result<Vec<Entry>, Refusal>
    ensures reads { ReadsOnly (T.files tree.old) (T.files tree.new) (T.reads tree.old) (T.reads tree.new) (T.replaces tree.old) (T.replaces tree.new) (T.replacings tree.old) (T.replacings tree.new) }
    ensures asked { OnlyRead (λ p. p ≡ path.now) (T.readings tree.old) (T.readings tree.new) }
    ensures own { IfOk result (λ v. AreEntriesReadAt path.now v.items (T.readings tree.old) (T.readings tree.new)) }
    ensures decided { (files : Files) → T.files tree.old ≡ Some files
        → Answers (λ v. v.items) (spec.entries_in (files path.now)) result }
    ensures cause { HasReadCause (λ p. (p ≡ path.now) × Rose (T.reads tree.old p) (T.reads tree.new p)) result }
{
    let mut bytes = Vec::new(alloc);
    match tree.read(alloc, path, MAX_DATABASE, &mut bytes) {
        ReadEnd::Bytes => entries_in(alloc, &bytes),
        ReadEnd::Absent => Err(bad_database(alloc, b"absent")),
        ReadEnd::Long => Err(bad_database(alloc, b"long")),
        ReadEnd::Failed => Err(Refusal::ReadFault(path.copy(alloc)?)),
        ReadEnd::OutOfMemory => Err(Refusal::OutOfMemory),
    }
}

fn entries_in(alloc: Global, bytes: &[u8]) -> Result<Vec<Entry>, Refusal>
    ensures decided { Answers (λ v. v.items) (spec.entries_or_fault (database bytes.now)) result }
    ensures cause { HasReadCause (λ p. ⊥) result }
{
    match read_db(alloc, bytes) {
        Ok(entries) => Ok(entries),
        Err(DbFault::OutOfMemory) => Err(Refusal::OutOfMemory),
        Err(DbFault::LimitUnits) => Err(refusal_of(alloc, Status::Limit, b"limit: ", b"units")),
        Err(fault) => {
            let text = fault_text(alloc, fault)?;
            Err(bad_database(alloc, text.bytes()))
        }
    }
}

// What is wrong with a database.
fn fault_text(alloc: Global, fault: DbFault) -> Result<Text, OutOfMemory>
    ensures { IfOk result (λ text. text ≡ spec.fault_text fault) }
{
    match fault {
        DbFault::NotJson => Text::new(alloc, b"not json"),
        DbFault::NotArray => Text::new(alloc, b"not array"),
        DbFault::Field(number, name) => entry_text(alloc, number, b" field ", field_name(name)),
        DbFault::Quote(number) => entry_text(alloc, number, b" quote", b""),
        DbFault::LimitUnits | DbFault::OutOfMemory => Text::new(alloc, b""),
    }
}

fn entry_text(alloc: Global, number: u32, what: &[u8], name: &[u8]) -> Result<Text, OutOfMemory>
    ensures { IfOk result (λ text. text ≡ spec.entry_text number what.now name.now) }
{
    let mut text = b"entry ".to_vec(alloc)?;
    push_number(alloc, &mut text, number as usize)?;
    text.extend_from_slice(what)?;
    text.extend_from_slice(name)?;
    Text::new(alloc, &text)
}

fn field_name(name: FieldName) -> &'static [u8]
    ensures { result.now ≡ spec.field_name name }
{
    match name {
        FieldName::Object => b"object",
        FieldName::Directory => b"directory",
        FieldName::File => b"file",
        FieldName::Words => b"words",
    }
}
