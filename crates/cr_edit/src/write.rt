//! The files that are written.
ghost use Rattle.std.specs.Prelude.{◌≡◌, ◌++◌, ℕ, take, IfOk, IfSome, IfNone};
ghost use Rattle.cr_world.specs.Outside.{Rose, NoneFell, AllStay};
ghost use Rattle.cr_edit.specs.Written as spec;
ghost use Rattle.cr_edit.specs.Writing.{writes_from, paths_of, AllReplaced, Stops};

use crate::edits::FileEdit;
use cr_base::{OutOfMemory, PathText, Text};
use cr_goal::push_number;
use cr_world::{DoneEnd, Tree};
use std::alloc::Global;

/// A file that is to be replaced, and what is said if that fails.
#[derive(Drop)]
pub struct Write {
    pub edit: FileEdit,
    pub fault: Text,
}

/// The files of the edits, in their order.
pub fn writes_of(alloc: Global, edits: Vec<FileEdit>) -> Result<Vec<Write>, OutOfMemory>
    ensures { IfOk result (λ writes. writes.items ≡ writes_from 0 edits.items) }
{
    let mut writes = Vec::new(alloc);
    for (n, edit) in edits.into_iter().enumerate() {
        let fault = fault_text(alloc, &edit.path, n)?;
        writes.push(Write { edit, fault })?;
    }
    Ok(writes)
}

// What is said where the file at a path can't be replaced after so many others.
fn fault_text(alloc: Global, path: &PathText, written: usize) -> Result<Text, OutOfMemory>
    ensures { IfOk result (λ text. text ≡ spec.fault_text path.now written) }
{
    let mut text = path.bytes().to_vec(alloc)?;
    text.extend_from_slice(b" after ")?;
    push_number(alloc, &mut text, written)?;
    text.extend_from_slice(b" files")?;
    Text::new(alloc, &text)
}

/// Replaces the files in their order, up to the first that fails, which it answers.
pub fn replace_all<'a, T: Tree>(tree: &mut T, writes: &'a [Write]) -> Option<&'a Write>
    ensures all { IfNone result (AllReplaced writes.now (T.files tree.old) (T.files tree.new)) }
    ensures stopped { IfSome result (λ w. Stops writes.now w.now (T.files tree.old) (T.files tree.new)) }
    ensures counts { NoneFell (T.replaces tree.old) (T.replaces tree.new) }
    ensures reads { AllStay (T.reads tree.old) (T.reads tree.new) }
    ensures asked { (n : ℕ) × (T.replacings tree.new ≡ T.replacings tree.old ++ take n (paths_of writes.now)) }
    ensures readings { T.readings tree.new ≡ T.readings tree.old }
    ensures failed { IfSome result (λ w. Rose (T.replaces tree.old w.now.edit.path) (T.replaces tree.new w.now.edit.path)) }
{
    for write in writes {
        match tree.replace(&write.edit.path, write.edit.edited.items()) {
            DoneEnd::Done => {}
            DoneEnd::Failed => return Some(write),
        }
    }
    None
}
