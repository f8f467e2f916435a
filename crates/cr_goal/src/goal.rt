//! What a run is to do, from the words of the command line.
ghost use Rattle.std.specs.Prelude.{◌≡◌, IfOk, map, string_bytes};
ghost use Rattle.std.specs.Option.{option_map};
ghost use Rattle.cr_words.specs.Seen.{aim_of, rename_of, task_of};
ghost use Rattle.cr_goal.specs.Goals as spec;
ghost use Rattle.cr_goal.specs.Refusals.{Answers, HasReadCause};
ghost use Rattle.cr_goal.specs.Seen.{goal_of_code, sought_of_code};

use crate::refusal::{Refusal, Status, refusal_of};
use cr_base::{OutOfMemory, PathText, is_identifier, is_keyword, is_reserved};
use cr_words::{Aim, QualifiedName, Rename, Task, WordsFault, read_words};
use std::alloc::Global;

/// What is sought: what stands at an offset of a file, in bytes from 0; or what has a name.
#[derive(Drop)]
pub enum Sought<'a> {
    StandsAt(PathText, u32),
    HasName(QualifiedName<'a>),
}

/// Where the units of a run are listed: in the database at a path, or the file at a path is the one unit.
#[derive(Drop)]
pub enum Listing {
    Database(PathText),
    Alone(PathText),
}

/// A rename of what is sought in some units to a new name. No file outside `root` may change, where there is one, and
/// `in_place` tells whether the files are written.
#[derive(Drop)]
pub struct Goal<'a> {
    pub sought: Sought<'a>,
    pub units: Listing,
    pub new: &'a [u8],
    pub root: Option<PathText>,
    pub in_place: bool,
}

/// What the words ask for, those of the command line without the program's name; or the first refusal that they decide:
/// words that are wrong or missing, a new name that can't be given, or what isn't built.
#[tactic(auto, unfolding(crate::specs::Goals::goal_of))]
pub fn read_goal<'a>(alloc: Global, words: &'a [String]) -> Result<Goal<'a>, Refusal>
    ensures goal { Answers goal_of_code (spec.goal_of (map string_bytes words.now)) result }
    ensures cause { HasReadCause (λ path. ⊥) result }
{
    match read_words(alloc, words) {
        Ok(request) => goal_of_task(alloc, &request.task),
        Err(WordsFault::Usage(word)) => Err(refusal_of(alloc, Status::Usage, b"usage: ", word)),
        Err(WordsFault::OutOfMemory) => Err(Refusal::OutOfMemory),
    }
}

fn goal_of_task<'a>(alloc: Global, task: &Task<'a>) -> Result<Goal<'a>, Refusal>
    ensures goal { Answers goal_of_code (spec.goal_of_task (task_of task.now)) result }
    ensures cause { HasReadCause (λ path. ⊥) result }
{
    match task {
        Task::Rename(rename) => goal_of_rename(alloc, rename),
        Task::Generate(_) => Err(refusal_of(alloc, Status::Unbuilt, b"unbuilt: ", b"--generate")),
    }
}

fn goal_of_rename<'a>(alloc: Global, rename: &Rename<'a>) -> Result<Goal<'a>, Refusal>
    ensures goal { Answers goal_of_code (spec.goal_of_rename (rename_of rename.now)) result }
    ensures cause { HasReadCause (λ path. ⊥) result }
{
    if is_refused(rename.new_name) {
        let refusal = refusal_of(alloc, Status::Reserved, b"reserved: ", rename.new_name);
        return Err(refusal);
    }
    Ok(Goal {
        sought: sought_by(alloc, rename.aim)?,
        units: units_by(alloc, rename.aim)?,
        new: rename.new_name,
        root: root_of(alloc, rename.root)?,
        in_place: rename.in_place,
    })
}

fn sought_by<'a>(alloc: Global, aim: Aim<'a>) -> Result<Sought<'a>, OutOfMemory>
    ensures { IfOk result (λ sought. sought_of_code sought ≡ spec.sought_by (aim_of aim.entry)) }
{
    Ok(match aim {
        Aim::Offset(source, offset, _) => Sought::StandsAt(path_of_word(alloc, source)?, offset),
        Aim::NameInFile(_, name) => Sought::HasName(name),
        Aim::NameInDatabase(_, name) => Sought::HasName(name),
    })
}

fn units_by(alloc: Global, aim: Aim<'_>) -> Result<Listing, OutOfMemory>
    ensures { IfOk result (λ units. units ≡ spec.units_by (aim_of aim.entry)) }
{
    Ok(match aim {
        Aim::Offset(_, _, Some(database)) => Listing::Database(path_of_word(alloc, database)?),
        Aim::Offset(source, _, None) => Listing::Alone(path_of_word(alloc, source)?),
        Aim::NameInFile(source, _) => Listing::Alone(path_of_word(alloc, source)?),
        Aim::NameInDatabase(database, _) => Listing::Database(path_of_word(alloc, database)?),
    })
}

fn root_of(alloc: Global, root: Option<&[u8]>) -> Result<Option<PathText>, OutOfMemory>
    ensures { IfOk result (λ path. path ≡ option_map spec.path_of_word (option_map (λ r. r.now) root.entry)) }
{
    Ok(match root {
        Some(root) => Some(path_of_word(alloc, root)?),
        None => None,
    })
}

fn path_of_word(alloc: Global, word: &[u8]) -> Result<PathText, OutOfMemory>
    ensures { IfOk result (λ path. path ≡ spec.path_of_word word.now) }
{
    PathText::normalise(alloc, &PathText::empty(alloc), word)
}

// A new name that is refused by itself.
#[tactic(auto, unfolding(crate::specs::Goals::is_refused))]
fn is_refused(new: &[u8]) -> bool
    ensures { result ≡ spec.is_refused new.now }
{
    !is_identifier(new)
        || is_keyword(new)
        || new == b"defined".as_slice()
        || new == b"main".as_slice()
        || is_reserved(new)
}
