//! What a run is to do, from the words of the command line.
ghost use Rattle.std.specs.Prelude.{◌≡◌, map, string_bytes, Ok};
ghost use Rattle.cr_words.specs.Seen.{rename_of, task_of};
ghost use Rattle.cr_run.specs.Goal as spec;
ghost use Rattle.cr_run.specs.Reading.{HasReadCause};
ghost use Rattle.cr_run.specs.Refusals.{Answers};
ghost use Rattle.cr_run.specs.Seen.{goal_of_code};

use crate::refusal::Refusal;
use cr_base::{PathText, is_identifier, is_keyword, is_reserved};
use cr_words::{Aim, Rename, Task, WordsFault, read_words};
use std::alloc::Global;

/// A rename of what stands at an offset, in bytes from 0, of the source.
#[derive(Drop)]
pub struct Goal<'a> {
    pub source: PathText,
    pub offset: u32,
    pub database: Option<PathText>,
    pub new: &'a [u8],
    pub in_place: bool,
}

/// What the words ask for, or the first refusal that they decide.
#[tactic(auto, unfolding(crate::specs::Goal::goal_of))]
pub fn read_goal<'a>(alloc: Global, words: &'a [String]) -> Result<Goal<'a>, Refusal<'a>>
    ensures goal { Answers goal_of_code (spec.goal_of (map string_bytes words.now)) result }
    ensures cause { HasReadCause (λ path. ⊥) result }
{
    match read_words(alloc, words) {
        Ok(request) => goal_of_task(alloc, &request.task),
        Err(WordsFault::Usage(word)) => Err(Refusal::Usage(word)),
        Err(WordsFault::OutOfMemory) => Err(Refusal::OutOfMemory),
    }
}

fn goal_of_task<'a>(alloc: Global, task: &Task<'a>) -> Result<Goal<'a>, Refusal<'a>>
    ensures goal { Answers goal_of_code (spec.goal_of_task (task_of task.now)) result }
    ensures cause { HasReadCause (λ path. ⊥) result }
{
    match task {
        Task::Rename(rename) => goal_of_rename(alloc, rename),
        Task::Generate(_) => Err(Refusal::UnbuiltOption(b"--generate")),
    }
}

fn goal_of_rename<'a>(alloc: Global, rename: &Rename<'a>) -> Result<Goal<'a>, Refusal<'a>>
    ensures goal { Answers goal_of_code (spec.goal_of_rename (rename_of rename.now)) result }
    ensures cause { HasReadCause (λ path. ⊥) result }
{
    if is_refused(rename.new_name) {
        return Err(Refusal::Reserved(rename.new_name));
    }
    let Aim::Offset(source, offset, database) = rename.aim else {
        return Err(Refusal::UnbuiltOption(b"--qualified-name"));
    };
    if rename.root.is_some() {
        return Err(Refusal::UnbuiltOption(b"--root"));
    }
    let base = PathText::empty(alloc);
    let database = match database {
        Some(path) => Some(PathText::normalise(alloc, &base, path)?),
        None => None,
    };
    Ok(Goal {
        source: PathText::normalise(alloc, &base, source)?,
        offset,
        database,
        new: rename.new_name,
        in_place: rename.in_place,
    })
}

// A new name that is refused by itself.
#[tactic(auto, unfolding(crate::specs::Goal::is_refused))]
fn is_refused(new: &[u8]) -> bool
    ensures { result ≡ spec.is_refused new.now }
{
    !is_identifier(new)
        || is_keyword(new)
        || new == b"defined".as_slice()
        || new == b"main".as_slice()
        || is_reserved(new)
}
