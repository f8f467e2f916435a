//! What the words of the command line ask for.
ghost use Rattle.std.specs.Prelude.{◌≡◌, map, string_bytes};
ghost use Rattle.std.specs.Option.{option_map};
ghost use Rattle.std.specs.List.{list_all};
ghost use Rattle.cr_words.specs.Requests as spec;
ghost use Rattle.cr_words.specs.Seen.{given_of, name_of, aim_of, rename_of, task_of, Reads, Tells};

use crate::given::{Given, first_fault, givens, is_given, value_of};
use crate::kind::WordKind;
use crate::number::number_of;
use crate::qualified_name::{QualifiedName, qualified_name};
use cr_base::OutOfMemory;
use std::alloc::Global;

/// What is to be renamed. Offsets are in bytes from 0 in the old file.
#[derive(Clone, Copy)]
pub enum Aim<'a> {
    /// What stands at this offset of this file, in the units of this database or in the file alone.
    Offset(&'a [u8], u32, Option<&'a [u8]>),
    /// What has this name in this file.
    NameInFile(&'a [u8], QualifiedName<'a>),
    /// What has this name in the units of this database.
    NameInDatabase(&'a [u8], QualifiedName<'a>),
}

/// A rename to `new_name`. `root` is the folder outside of which no file may change, and `in_place`
/// whether the files are written.
#[derive(Clone, Copy)]
pub struct Rename<'a> {
    pub aim: Aim<'a>,
    pub new_name: &'a [u8],
    pub root: Option<&'a [u8]>,
    pub in_place: bool,
}

/// A rename, or the making of so many units to try it on.
#[derive(Clone, Copy)]
pub enum Task<'a> {
    Rename(Rename<'a>),
    Generate(u32),
}

/// How the work is shared: 1 to 16 workers, 0 to 8 retries, and the seed of rehearsed faults.
#[derive(Clone, Copy)]
pub struct Pooling {
    pub workers: u32,
    pub retries: u32,
    pub rehearse: Option<u32>,
}

/// What the words ask for.
#[derive(Clone, Copy)]
pub struct Request<'a> {
    pub task: Task<'a>,
    pub pooling: Pooling,
}

/// Why the words were refused: the word that is wrong or missing, or want of memory.
#[derive(Clone, Copy)]
pub enum WordsFault<'a> {
    Usage(&'a [u8]),
    OutOfMemory,
}

impl<'a> From<OutOfMemory> for WordsFault<'a> {
    ghost use Rattle.cr_words.specs.declared.request.WordsFault.TheVariants as fault;

    ghost from_gives = { λ _ e. e ≡ fault.OutOfMemory };

    fn from(_: OutOfMemory) -> Self {
        WordsFault::OutOfMemory
    }
}

/// What the words of the command line ask for, without the program's name.
///
/// The fault names the first word that is an unknown option, a repeated one, one without its value or
/// with a value of another form, or a second plain word; else the word that is missing or in the way.
pub fn read_words<'a>(alloc: Global, words: &'a [String]) -> Result<Request<'a>, WordsFault<'a>>
    ensures { Reads (spec.read_words (map string_bytes words.now)) result }
{
    let givens = givens(alloc, words)?;
    if let Some(word) = first_fault(&givens) {
        return Err(WordsFault::Usage(word));
    }
    match read_task(&givens) {
        Ok(task) => Ok(Request {
            task,
            pooling: read_pooling(&givens),
        }),
        Err(word) => Err(WordsFault::Usage(word)),
    }
}

fn read_pooling(givens: &[Given<'_>]) -> Pooling
    ensures { result ≡ spec.pooling (map given_of givens.now) }
{
    Pooling {
        workers: number_at(givens, WordKind::Workers).unwrap_or(4),
        retries: number_at(givens, WordKind::Retries).unwrap_or(2),
        rehearse: number_at(givens, WordKind::Rehearse),
    }
}

fn number_at(givens: &[Given<'_>], kind: WordKind) -> Option<u32>
    ensures { result ≡ spec.number_at kind (map given_of givens.now) }
{
    match value_of(givens, kind) {
        Some(value) => number_of(value),
        None => None,
    }
}

fn name_in<'a>(givens: &[Given<'a>]) -> Option<QualifiedName<'a>>
    ensures { option_map name_of result ≡ spec.name_in (map given_of givens.now) }
{
    match value_of(givens, WordKind::QualifiedName) {
        Some(value) => qualified_name(value),
        None => None,
    }
}

fn read_task<'a>(givens: &[Given<'a>]) -> Result<Task<'a>, &'a [u8]>
    ensures { Tells task_of (λ w. w.now) (spec.task (map given_of givens.now)) result }
{
    match number_at(givens, WordKind::Generate) {
        Some(units) if may_generate(givens) => Ok(Task::Generate(units)),
        Some(_) => Err(b"--generate"),
        None => match read_rename(givens) {
            Ok(rename) => Ok(Task::Rename(rename)),
            Err(word) => Err(word),
        },
    }
}

fn may_generate(givens: &[Given<'_>]) -> bool
    ensures { result ≡ list_all spec.may_stand_by_generate (map given_of givens.now) }
{
    givens.iter().all(may_stand_by_generate)
}

fn may_stand_by_generate(given: &Given<'_>) -> bool
    ensures { result ≡ spec.may_stand_by_generate (given_of given.now) }
{
    given.is(WordKind::Generate)
        || given.is(WordKind::Workers)
        || given.is(WordKind::Retries)
        || given.is(WordKind::Rehearse)
}

fn read_rename<'a>(givens: &[Given<'a>]) -> Result<Rename<'a>, &'a [u8]>
    ensures { Tells rename_of (λ w. w.now) (spec.rename (map given_of givens.now)) result }
{
    let Some(new_name) = value_of(givens, WordKind::NewName) else {
        return Err(b"--new-name");
    };
    let aim = read_aim(givens)?;
    Ok(Rename {
        aim,
        new_name,
        root: value_of(givens, WordKind::Root),
        in_place: is_given(givens, WordKind::InPlace),
    })
}

fn read_aim<'a>(givens: &[Given<'a>]) -> Result<Aim<'a>, &'a [u8]>
    ensures { Tells aim_of (λ w. w.now) (spec.aim (map given_of givens.now)) result }
{
    let source = value_of(givens, WordKind::Source);
    let database = value_of(givens, WordKind::Database);
    match (number_at(givens, WordKind::Offset), name_in(givens)) {
        (Some(offset), None) => match source {
            Some(source) => Ok(Aim::Offset(source, offset, database)),
            None => Err(b"SOURCE"),
        },
        (None, Some(name)) => aim_by_name(source, database, name),
        _ => Err(b"--offset"),
    }
}

// A name is looked for in a file or in a database, and not in both.
fn aim_by_name<'a>(
    source: Option<&'a [u8]>,
    database: Option<&'a [u8]>,
    name: QualifiedName<'a>,
) -> Result<Aim<'a>, &'a [u8]>
    ensures { Tells aim_of (λ w. w.now) (spec.aim_by_name (option_map (λ s. s.now) source.entry) (option_map (λ d. d.now) database.entry) (name_of name.entry)) result }
{
    match (source, database) {
        (Some(source), None) => Ok(Aim::NameInFile(source, name)),
        (None, Some(database)) => Ok(Aim::NameInDatabase(database, name)),
        (Some(source), Some(_)) => Err(source),
        (None, None) => Err(b"SOURCE"),
    }
}
