//! The preprocessing of a unit, step by step.
ghost use Rattle.std.specs.Prelude.{◌≡◌, ◌<◌, ◌^◌, ◌++◌, ◌∷◌, ℕ, [], List as ListOf, Some, None, Ok, Err, IfOk, OnOk, OnErr, IfSome, length};
ghost use Rattle.cr_base.specs.declared.unit.Unit.{Unit as TheUnit};
ghost use Rattle.cr_snapshot.specs.declared.known.KnownFile.{KnownFile as TheFile};
ghost use Rattle.cr_preproc.specs.declared.open_file.OpenFile.{OpenFile as TheOpenFile};
ghost use Rattle.cr_preproc.specs.declared.preproc.Preproc.{Preproc as ThePreproc};
ghost use Rattle.cr_preproc.specs.declared.preproc.Ending.{Ending as TheEnding};
ghost use Rattle.cr_preproc.specs.declared.turning.Doing.{Doing as TheDoing};
ghost use Rattle.cr_phase4.specs.Search.{world_of};
ghost use Rattle.cr_preproc.specs.Turning.{IsTurned, IsOpened};
ghost use Rattle.cr_preproc.specs.Progressing.{IsProgress};
ghost use Rattle.cr_preproc.specs.Falling.{Falls, CountsFile, TurnFalls};
ghost use Rattle.cr_phase4.specs.Preprocessing.{does_first_file};
ghost use Rattle.cr_macros.specs.Tokens.{Text};
ghost use Rattle.cr_preproc.specs.Preprocs.{IsFresh, IsPreproc, IsSound, IsPreStep, IsTurn, IsOuter, IsSameUnit, IsSilent, answer_of, path_of, next_of, IsOfSearch, GoesByTheDefinition, EndsByTheDefinition};

use crate::expansion::Fault;
use crate::open_file::OpenFile;
use crate::progress::Progress;
use crate::search::first_file;
use crate::trace::Trace;
use crate::turning::{Context, Doing, Turned, after_search, turn};
use crate::words::words_path;
use cr_base::{IllCause, NameTable, OutOfMemory, PathNo, PathText, Place, PpTok, Unit};
use cr_snapshot::Snapshot;
use std::alloc::Global;

/// What a step of preprocessing leads to.
#[derive(Drop)]
pub enum PreTurn {
    /// A step was made.
    More,
    /// Files are wanted of which nothing is known: the paths at which the next one is looked for, up to
    /// the first at which one is there.
    Needs(Vec<PathText>),
    /// All tokens are given.
    Done,
    /// The unit is ill-formed, or over a limit, and where.
    Ill(IllCause, Place),
}

// How a unit's preprocessing has ended.
#[derive(Clone, Copy, Debug)]
pub enum Ending {
    Done,
    Ill(Fault),
    OutOfMemory,
}

// The files that no include names and that are still to be opened.
#[derive(Clone, Copy, Debug)]
pub enum Firsts {
    Words,
    Main,
    Nothing,
}

// How many levels of includes may be open in a file that no include names.
const LEVELS: usize = 200;

/// The preprocessing of a translation unit (C11 5.1.1.2, phase 4; 6.10), which goes step by step.
#[derive(Drop)]
pub struct Preproc {
    alloc: Global,
    unit: Unit,
    progress: Progress,
    file: Option<OpenFile>,
    outer: Vec<OpenFile>,
    firsts: Firsts,
    doing: Doing,
    ending: Option<Ending>,
}

fn answer(ending: Ending) -> Result<PreTurn, OutOfMemory>
    ensures { result ≡ answer_of ending }
{
    match ending {
        Ending::Done => Ok(PreTurn::Done),
        Ending::Ill(fault) => Ok(PreTurn::Ill(fault.cause, fault.place)),
        Ending::OutOfMemory => Err(OutOfMemory),
    }
}

fn next_first(firsts: Firsts) -> Firsts
    ensures { result ≡ next_of firsts }
{
    match firsts {
        Firsts::Words => Firsts::Main,
        Firsts::Main | Firsts::Nothing => Firsts::Nothing,
    }
}

impl Preproc {
    /// A unit of which nothing is preprocessed. `old` and `new` are the name that is renamed and the one
    /// that takes its place: the trace tells of identifiers that are spelled so.
    pub fn new(alloc: Global, unit: &Unit, old: &[u8], new: &[u8]) -> Result<Preproc, OutOfMemory>
        ensures { IfOk result (λ p. IsFresh unit.now old.now new.now p) }
    {
        Ok(Preproc {
            alloc,
            unit: unit.copy(alloc)?,
            progress: Progress::new(alloc, old, new)?,
            file: None,
            outer: Vec::new(alloc),
            firsts: Firsts::Words,
            doing: Doing::Reads,
            ending: None,
        })
    }

    /// One step: a preprocessing token is taken from a file, or a rule of macro expansion is used.
    ///
    /// The files that the snapshot knows are those of the steps before. `More` says that the step was
    /// made; `Needs` that the next file to be included is looked for at a path of which nothing is known,
    /// before the first at which one is there, and changes nothing; `Done` that all tokens are given; `Ill`
    /// that the unit ends by that cause at that place, or over a limit, whose place is free. After `Done`,
    /// `Ill` and want of memory it answers the same again.
    ///
    /// What was left of the unit's preprocessing is the events that a step kept, and then what is left now,
    /// also where the unit ends. Of a use of a rule that fails nothing is told. Where memory is wanting the
    /// tokens, the trace and the names are given back.
    pub fn step(&mut self, snapshot: &Snapshot) -> Result<PreTurn, OutOfMemory>
        requires good { IsPreproc snapshot.now self.old }
        ensures step { IfOk result (λ turn. IsPreStep snapshot.now self.old self.new turn) }
        ensures good { IsPreproc snapshot.now self.new }
        ensures memory { OnErr result (self.new.ending ≡ Some Ending.OutOfMemory) }
        ensures ended { (end : TheEnding) → self.old.ending ≡ Some end → (result ≡ answer_of end) × (self.new ≡ self.old) }
    {
        match self.ending {
            Some(ending) => answer(ending),
            None => self.go(snapshot),
        }
    }

    // Makes turns up to a step or the unit's end.
    fn go(&mut self, snapshot: &Snapshot) -> Result<PreTurn, OutOfMemory>
        requires good { IsPreproc snapshot.now self.old }
        requires going { self.old.ending ≡ None }
        ensures step { IfOk result (λ turn. IsPreStep snapshot.now self.old self.new turn) }
        ensures good { IsPreproc snapshot.now self.new }
        ensures memory { OnErr result (self.new.ending ≡ Some Ending.OutOfMemory) }
    {
        'turns: loop {
            match self.turn(snapshot) {
                Ok(None) => {
                    if let Some(ending) = self.ending {
                        return answer(ending);
                    }
                }
                Ok(Some(turn)) => return Ok(turn),
                Err(_) => break,
            }
        }
        self.run_out();
        Err(OutOfMemory)
    }

    // Memory is wanting: what was made is given back, for nothing is said of it any more.
    fn run_out(&mut self)
        ensures good { (files : ListOf TheFile) → IsPreproc files self.new }
        ensures ending { self.new.ending ≡ Some Ending.OutOfMemory }
    {
        self.progress.give_back(self.alloc);
        self.ending = Some(Ending::OutOfMemory);
    }

    // A step, or something that is none.
    fn turn(&mut self, snapshot: &Snapshot) -> Result<Option<PreTurn>, OutOfMemory>
        requires good { IsPreproc snapshot.now self.old }
        requires going { self.old.ending ≡ None }
        ensures turn { IfOk result (λ turn. IsTurn snapshot.now self.old self.new turn) }
        ensures falls { IfOk result (λ turn. TurnFalls self.old self.new turn) }
        ensures room { OnOk result (length self.new.progress.names < 2 ^ 31) }
    {
        let step = self.turn_in_room(snapshot)?;
        self.progress.check_room()?;
        Ok(step)
    }

    // The same, where the table of names may be left with too many texts.
    fn turn_in_room(&mut self, snapshot: &Snapshot) -> Result<Option<PreTurn>, OutOfMemory>
        requires good { IsSound snapshot.now self.old }
        requires going { self.old.ending ≡ None }
        requires room { length self.old.progress.names < 2 ^ 31 }
        ensures turn { IfOk result (λ turn. IsTurn snapshot.now self.old self.new turn) }
        ensures falls { IfOk result (λ turn. TurnFalls self.old self.new turn) }
    {
        match &mut self.file {
            None => {
                let step = self.open_first(snapshot)?;
                Ok(step)
            }
            Some(file) => {
                let context = Context {
                    alloc: self.alloc,
                    unit: &self.unit,
                    snapshot,
                };
                let turned = turn(context, &mut self.progress, file, &mut self.doing)?;
                let step = self.follow(turned)?;
                Ok(step)
            }
        }
    }

    // Another file is worked on.
    fn open(&mut self, file: OpenFile) -> Result<(), OutOfMemory>
        ensures { (f : TheOpenFile) → self.old.file ≡ Some f → OnOk result ((self.new ≡ record self.old { file = Some file; outer = self.new.outer }) × (self.new.outer.items ≡ self.old.outer.items ++ f ∷ [])) }
    {
        if let Some(including) = self.file.replace(file) {
            self.outer.push(including)?;
        }
        Ok(())
    }

    // What comes of a turn in the innermost file.
    fn follow(&mut self, turned: Turned) -> Result<Option<PreTurn>, OutOfMemory>
        ensures turn { (files : ListOf TheFile) (p : ThePreproc) (f g : TheOpenFile) → IsSameUnit p self.old → p.file ≡ Some f → self.old.file ≡ Some g → IsOuter files p.progress.names p.outer.items
            → IsTurned (world_of files) p.unit files p.progress self.old.progress f g p.doing self.old.doing turned → IfOk result (λ turn. IsTurn files p self.new turn) }
        ensures falls { (p : ThePreproc) (f g : TheOpenFile) → IsSameUnit p self.old → p.file ≡ Some f → self.old.file ≡ Some g → Falls p.progress self.old.progress f g p.doing self.old.doing turned → IfOk result (λ turn. TurnFalls p self.new turn) }
    {
        match turned {
            Turned::Steps => Ok(Some(PreTurn::More)),
            Turned::Needs(paths) => Ok(Some(PreTurn::Needs(paths))),
            Turned::Goes => Ok(None),
            Turned::Ends(fault) => {
                self.ending = Some(Ending::Ill(fault));
                Ok(None)
            }
            Turned::Opens(file) => {
                self.open(file)?;
                Ok(None)
            }
            Turned::Closes => {
                self.file = self.outer.pop();
                self.doing = Doing::Reads;
                Ok(None)
            }
        }
    }

    // The path of the next file that no include names.
    fn first_path(&self) -> Result<Option<PathText>, OutOfMemory>
        ensures { IfOk result (λ path. path ≡ path_of self.now.unit self.now.firsts) }
    {
        match self.firsts {
            Firsts::Nothing => Ok(None),
            Firsts::Words => Ok(Some(words_path(self.alloc, &self.unit)?)),
            Firsts::Main => Ok(Some(self.unit.main.copy(self.alloc)?)),
        }
    }

    // The next file that no include names is opened.
    fn open_first(&mut self, snapshot: &Snapshot) -> Result<Option<PreTurn>, OutOfMemory>
        requires good { IsSound snapshot.now self.old }
        requires going { self.old.ending ≡ None }
        requires room { length self.old.progress.names < 2 ^ 31 }
        requires file { self.old.file ≡ None }
        ensures turn { IfOk result (λ turn. IsTurn snapshot.now self.old self.new turn) }
        ensures falls { IfOk result (λ turn. TurnFalls self.old self.new turn) }
    {
        match self.first_path()? {
            None => {
                self.ending = Some(Ending::Done);
                Ok(None)
            }
            Some(path) => {
                let turned = self.look_for(snapshot, path)?;
                let step = self.follow_first(turned);
                Ok(step)
            }
        }
    }

    // A file that no include names is looked for.
    fn look_for(&mut self, snapshot: &Snapshot, path: PathText) -> Result<Turned, OutOfMemory>
        requires good { IsProgress self.old.progress }
        requires room { length self.old.progress.names < 2 ^ 31 }
        ensures opened { (u : TheUnit) → IfOk result (λ t. IsOpened (world_of snapshot.now) u snapshot.now self.old.progress self.new.progress (does_first_file (world_of snapshot.now) u path) t) }
        ensures rest { self.new ≡ record self.old { progress = self.new.progress } }
        ensures counts { IfOk result (λ t. CountsFile self.old.progress self.new.progress t) }
    {
        let number = snapshot.number(&path);
        let mut paths = Vec::new(self.alloc);
        paths.push(path)?;
        match number {
            None => Ok(Turned::Needs(paths)),
            Some(path) => {
                let found = first_file(self.alloc, snapshot, &paths)?;
                let site = Place { path, offset: 0 };
                let progress = &mut self.progress;
                let turned = after_search(self.alloc, progress, Some(LEVELS), site, found)?;
                Ok(turned)
            }
        }
    }

    // What comes of that.
    fn follow_first(&mut self, turned: Turned) -> Option<PreTurn>
        requires { IsOfSearch turned }
        ensures turn { (files : ListOf TheFile) (p : ThePreproc) (path : Text) → IsSameUnit p self.old → p.file ≡ None → self.old.file ≡ None → p.doing ≡ self.old.doing → IsSound files p → path_of p.unit p.firsts ≡ Some path
            → IsOpened (world_of files) p.unit files p.progress self.old.progress (does_first_file (world_of files) p.unit path) turned → IsTurn files p self.new result }
        ensures falls { (p : ThePreproc) (path : Text) → IsSameUnit p self.old → p.file ≡ None → self.old.file ≡ None → path_of p.unit p.firsts ≡ Some path → CountsFile p.progress self.old.progress turned → TurnFalls p self.new result }
    {
        match turned {
            Turned::Needs(paths) => Some(PreTurn::Needs(paths)),
            Turned::Ends(fault) => {
                self.ending = Some(Ending::Ill(fault));
                None
            }
            Turned::Opens(file) => {
                self.firsts = next_first(self.firsts);
                self.file = Some(file);
                None
            }
            Turned::Goes => {
                self.firsts = next_first(self.firsts);
                None
            }
            Turned::Steps | Turned::Closes => unreachable!(),
        }
    }

    /// The final tokens so far.
    pub fn tokens(&self) -> &[PpTok]
        ensures { result.now ≡ self.now.progress.tokens.items }
    {
        &self.progress.tokens
    }

    /// What is kept of the unit for the renaming so far.
    pub fn trace(&self) -> &Trace
        ensures { result.now ≡ self.now.progress.trace }
    {
        &self.progress.trace
    }

    /// The table that gave the names of the tokens. It holds fewer than 2^31 texts.
    pub fn names(&self) -> &NameTable
        ensures names { result.now ≡ self.now.progress.names }
        ensures room { (files : ListOf TheFile) → IsPreproc files self.now → length result.now < 2 ^ 31 }
    {
        &self.progress.names
    }

    /// These three.
    pub fn into_parts(self) -> (NameTable, Vec<PpTok>, Trace)
        ensures parts { result ≡ (self.progress.names, self.progress.tokens, self.progress.trace) }
        ensures room { (files : ListOf TheFile) → IsPreproc files self → length result.0 < 2 ^ 31 }
    {
        let Preproc { progress, .. } = self;
        let Progress {
            names,
            tokens,
            trace,
            ..
        } = progress;
        (names, tokens, trace)
    }
}

/// The law that a unit is preprocessed as it is defined (C11 5.1.1.2, phase 4; 6.10), where the same files
/// are known at each step: after n steps what has happened is the unit's preprocessing up to its nth step,
/// and the tokens and the trace are those of what has happened; where it has come to its end, to a fault or
/// to files that are wanted, so does the definition, after as many steps and with the same tokens and trace.
/// It does no work.
pub fn steps_preprocess_the_unit()
    ensures goes { GoesByTheDefinition }
    ensures ends { EndsByTheDefinition }
{}
