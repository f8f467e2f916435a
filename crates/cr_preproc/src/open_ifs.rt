//! The conditionals of a file that are open (C11 6.10.1).
ghost use Rattle.std.specs.Prelude.{◌≡◌, [], List as ListOf, OnOk, OnErr, false, if◌then◌else◌};
ghost use Rattle.cr_phase4.specs.Tasks.{State, only, ends, Ill};
ghost use Rattle.cr_phase4.specs.Conditionals as spec;
ghost use Rattle.cr_preproc.specs.OpenIfs.{with_first, with_group, by_elif, first_of};
ghost use Rattle.cr_base.specs.declared.cause.IllCause.TheVariants as cause;
ghost use Rattle.cr_base.specs.declared.token.Place.{Place as ThePlace};
ghost use Rattle.cr_macros.specs.Tokens.{Text, Token};

use cr_base::{OutOfMemory, Place};
use cr_phase4::{Group, OpenIf, Word};
use std::alloc::Global;
use std::marker::Model;

// What an `elif` asks for: nothing, since it stands wrong; that its list is evaluated; or that its group is
// skipped.
#[derive(Clone, Copy, Debug, PartialEq, Eq)]
pub enum Elif {
    Stray,
    Asks,
    Skips,
}

// Seen as the conditionals that are open, the innermost first.
#[derive(Drop)]
pub struct OpenIfs {
    open: Vec<OpenIf>,
}

impl Model for OpenIfs {
    ghost use Rattle.std.specs.Prelude.{List, reverse};
    ghost use Rattle.cr_phase4.specs.declared.conditionals.OpenIf.{OpenIf};

    ghost Value = { List OpenIf };

    ghost view = { λ s. reverse s.open.items };
}

pub fn group_if(is_true: bool) -> Group
    ensures { result ≡ spec.group_if is_true }
{
    if is_true { Group::Taken } else { Group::Before }
}

fn group_of_else(group: Group) -> Group
    ensures { result ≡ spec.group_of_else group }
{
    match group {
        Group::Before => Group::Taken,
        Group::Taken | Group::Past => Group::Past,
    }
}

impl OpenIfs {
    pub fn new(alloc: Global) -> OpenIfs
        ensures { result ≡ [] }
    {
        OpenIfs {
            open: Vec::new(alloc),
        }
    }

    // The innermost one.
    pub fn first(&self) -> Option<OpenIf>
        ensures { result ≡ first_of self.now }
    {
        self.open.last().copied()
    }

    // Whether lines are read there.
    pub fn is_live(&self) -> bool
        ensures { result ≡ spec.is_live self.now }
    {
        match self.first() {
            None => true,
            Some(innermost) => matches!(innermost.group, Group::Taken),
        }
    }

    // Whether the lines around the innermost one are read.
    fn is_live_around(&self) -> bool
        ensures { result ≡ spec.is_live_around self.now }
    {
        match self.open.len() {
            0 | 1 => true,
            n => matches!(self.open[n - 2].group, Group::Taken),
        }
    }

    // Whether a word is read there on a live line, or ends a group of a conditional that began on one.
    pub fn is_word_live(&self, word: Word) -> bool
        ensures { result ≡ spec.is_word_live self.now word }
    {
        match word {
            Word::If | Word::Ifdef | Word::Ifndef => self.is_live(),
            Word::Elif | Word::Else | Word::Endif => self.is_live_around(),
        }
    }

    pub fn begin(&mut self, hash: Place, group: Group) -> Result<(), OutOfMemory>
        ensures begun { OnOk result (self.new ≡ spec.opened hash group self.old) }
        ensures kept { OnErr result (self.new ≡ self.old) }
    {
        self.open.push(OpenIf {
            hash,
            group,
            in_else: false,
        })?;
        Ok(())
    }

    // Whether the innermost one could go on to its `else`.
    pub fn to_else(&mut self) -> bool
        ensures goes_on { (hash : ThePlace) (s : State) → spec.else_in hash self.old s ≡ (if result then only self.new s else ends (Ill cause.StrayElse hash) s) }
        ensures kept { result ≡ false → self.new ≡ self.old }
    {
        match self.first() {
            Some(innermost) if !innermost.in_else => {
                self.set_first(OpenIf {
                    hash: innermost.hash,
                    group: group_of_else(innermost.group),
                    in_else: true,
                });
                true
            }
            _ => false,
        }
    }

    // Whether the innermost one could be closed.
    pub fn endif(&mut self) -> bool
        ensures closed { (hash : ThePlace) (s : State) → spec.endif hash self.old s ≡ (if result then only self.new s else ends (Ill cause.StrayElse hash) s) }
        ensures kept { result ≡ false → self.new ≡ self.old }
    {
        self.open.pop().is_some()
    }

    // Puts another in the place of the innermost one, if there is one.
    fn set_first(&mut self, innermost: OpenIf)
        ensures { self.new ≡ with_first innermost self.old }
    {
        if self.open.pop().is_some() {
            match self.open.push(innermost) {
                Ok(()) => {}
                Err(_) => unreachable!(),
            }
        }
    }

    // Puts the innermost one, if there is one, into another group.
    pub fn set_group(&mut self, group: Group)
        ensures { self.new ≡ with_group group self.old }
    {
        if let Some(innermost) = self.first() {
            self.set_first(OpenIf {
                hash: innermost.hash,
                group,
                in_else: innermost.in_else,
            });
        }
    }

    // What an `elif` asks for.
    pub fn elif(&self) -> Elif
        ensures { (path : Text) (hash : ThePlace) (ts : ListOf Token) (s : State) → spec.elif path hash ts self.now s ≡ by_elif path hash ts self.now result s }
    {
        match self.first() {
            None => Elif::Stray,
            Some(innermost) if innermost.in_else => Elif::Stray,
            Some(innermost) => match innermost.group {
                Group::Before => Elif::Asks,
                Group::Taken | Group::Past => Elif::Skips,
            },
        }
    }
}
