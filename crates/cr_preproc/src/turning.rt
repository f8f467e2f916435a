//! What is done in an open file, one thing after another.
ghost use Rattle.std.specs.Prelude.{◌≡◌, ◌≤◌, ◌<◌, ◌+◌, ◌^◌, ℕ, [], ◌∷◌, List as ListOf, Some, None, Ok, Err, IfOk, IfErr, OnOk, length, drop};
ghost use Rattle.cr_base.specs.declared.token.Place.{Place as ThePlace};
ghost use Rattle.cr_base.specs.declared.unit.Unit.{Unit as TheUnit};
ghost use Rattle.cr_lex.specs.Lexing as lexing;
ghost use Rattle.cr_lex.specs.Seen.{fault_in};
ghost use Rattle.cr_macros.specs.Tokens.{Text, Token, tokens_of};
ghost use Rattle.cr_snapshot.specs.declared.known.KnownFile.{KnownFile as TheFile};
ghost use Rattle.cr_snapshot.specs.Files.{finding, Present};
ghost use Rattle.cr_snapshot.specs.IncludeSearch.{candidates};
ghost use Rattle.cr_preproc.specs.declared.progress.Progress.{Progress as TheProgress};
ghost use Rattle.cr_preproc.specs.declared.open_file.OpenFile.{OpenFile as TheOpenFile};
ghost use Rattle.cr_preproc.specs.declared.turning.Doing.{Doing as TheDoing};
ghost use Rattle.cr_phase4.specs.Tasks.{State, Task, Nothing, Done, Reply, Ends, Goes, go_on, ◌>>>◌, in_directive};
ghost use Rattle.cr_phase4.specs.Lines as lines;
ghost use Rattle.cr_phase4.specs.Search as searching;
ghost use Rattle.cr_phase4.specs.Search.{World, world_of};
ghost use Rattle.cr_phase4.specs.Runs.{runs, after_run as spec_after_run, expands};
ghost use Rattle.cr_phase4.specs.Directives.{opens, opens_found};
ghost use Rattle.cr_phase4.specs.Preprocessing.{at_end, does_file};
ghost use Rattle.cr_preproc.specs.OpenFiles.{Reading, reading_of, IsOpen, reads_file};
ghost use Rattle.cr_preproc.specs.OpenFileSteps.{HasLine, LacksLine, TellsNext};
ghost use Rattle.cr_preproc.specs.Progressing.{state_of, IsProgress};
ghost use Rattle.cr_expand.specs.declared.machine.TheConstants.{LIMIT};
ghost use Rattle.cr_preproc.specs.Expanding.{Boxed, end_by, IsUsed, IsExpanding, still_in, ahead_in, table_for};
ghost use Rattle.cr_preproc.specs.Leading.{Leads, IsLed, IsDirected, decided, includes_given, list_left, run_left};
ghost use Rattle.cr_preproc.specs.Listings.{IsListing};
ghost use Rattle.cr_preproc.specs.Turning.{doing_left, then_left, file_goes, carried, directed_left, ended_behind, enters, IsDoing, IsWorking, IsTurned, IsNext, IsBehind, IsOpened, IsEnded, AreAsked, led_left, LooksAt, IsSmall, IsFitting, WantsNoFile, decision_left};
ghost use Rattle.cr_preproc.specs.RunTurns.{IsGiving};
ghost use Rattle.cr_preproc.specs.Falling.{then_rank, rank, Falls, CountsFile, IsBelow, IsUnexpanded};
ghost use Rattle.cr_preproc.specs.Seen.{AreNamed, IsNamed, seen_search};

use crate::conditional::{Decision, Led, choose, conditional, decide};
use crate::directing::{Directed, direct, include_given, site_of};
use crate::expansion::{Expansion, Fault, Use};
use crate::header::Header;
use crate::include::included;
use crate::line::{Line, line_of};
use crate::listing::{Listed, Listing};
use crate::open_file::OpenFile;
use crate::progress::Progress;
use crate::reader::Coming;
use crate::search::{Search, first_file};
use cr_base::{IllCause, OutOfMemory, PathNo, PathText, Place, PpTok, Unit};
use cr_expand::defined_macros_are_known;
use cr_lex::LexFault;
use cr_snapshot::{Found, Snapshot};
use std::alloc::Global;
use std::mem::replace;

// What comes behind a run that is expanded.
#[derive(Clone, Copy, Debug)]
pub enum Then {
    // The directive that is the present line.
    Line,
    // The file's end.
    Close,
    // The unit ends so, unless the run ends it by something else than an open call.
    Fails(Fault),
}

// What is done next in an open file.
#[derive(Drop)]
pub enum Doing {
    // A token is taken, or the present line is carried out.
    Reads,
    // The run is expanded, and then this comes.
    Expands(Box<Expansion>, Then),
    // The list of a conditional is expanded.
    Decides(Listing, Decision),
    // The list of an include is expanded.
    Includes(Listing),
    // The file of an include at this place is looked for at these paths.
    Looks(Vec<PathText>, Place),
    // Nothing: the unit ends so.
    Fails(Fault),
}

// What a turn came to.
#[derive(Drop)]
pub enum Turned {
    // A step was made.
    Steps,
    // No step was made.
    Goes,
    // The file is at its end.
    Closes,
    // A file is included.
    Opens(OpenFile),
    // Nothing is known of these paths; nothing is changed.
    Needs(Vec<PathText>),
    // The unit ends so.
    Ends(Fault),
}

// What each turn of a unit is made with.
#[derive(Clone, Copy)]
pub struct Context<'a> {
    pub alloc: Global,
    pub unit: &'a Unit,
    pub snapshot: &'a Snapshot,
}

fn lex_fault(fault: LexFault) -> Fault
    ensures { (file : ℕ) (s : lexing.Fault) → fault ≡ fault_in (record { 0 = file }) s → lines.fault_of file (Some s) ≡ Some (end_by result) }
{
    match fault {
        LexFault::OpenComment(place) => Fault {
            cause: IllCause::OpenComment,
            place,
        },
        LexFault::Trigraph(place) => Fault {
            cause: IllCause::Trigraph,
            place,
        },
    }
}

// How the unit ends where its run ends it.
fn earlier(then: Then, fault: Fault) -> Fault
    ensures { end_by result ≡ ended_behind then (end_by fault) }
{
    match then {
        Then::Fails(end) if fault.cause == IllCause::OpenCall => end,
        _ => fault,
    }
}

fn start_of(file: &OpenFile) -> Place {
    Place {
        path: file.number,
        offset: 0,
    }
}

// The run of a file is expanded, and then this comes.
fn expand_run(
    alloc: Global,
    progress: &Progress,
    file: &OpenFile,
    then: Then,
) -> Result<Doing, OutOfMemory>
    requires good { IsProgress progress.now }
    requires literal { file.now.literal.0 < length progress.now.names }
    requires run { AreNamed progress.now.names file.now.run.items }
    ensures left { (w : World) (u : TheUnit) (files : ListOf TheFile) (k : Task Nothing) → IsOpen progress.now.names files file.now → IfOk result (λ d. doing_left w u progress.now (reading_of progress.now.names files file.now) k d ≡ then_left w u (reading_of progress.now.names files file.now) k then (runs file.now.path (tokens_of progress.now.names file.now.run.items) (state_of progress.now))) }
    ensures does { IfOk result (λ d. IsDoing progress.now file.now d) }
    ensures falls { (f : TheOpenFile) → IfOk result (λ d. rank f d ≡ then_rank then) }
{
    let place = site_of(start_of(file), &file.run);
    let expansion = Expansion::boxed(alloc, progress, file.literal, place, &file.run)?;
    Ok(Doing::Expands(expansion, then))
}

// Takes a token, or ends the unit where no more may be read.
fn take(
    alloc: Global,
    snapshot: &Snapshot,
    progress: &mut Progress,
    file: &mut OpenFile,
    doing: &mut Doing,
) -> Result<Turned, OutOfMemory>
    requires working { IsWorking snapshot.now progress.old file.old doing.old }
    requires room { length progress.old.names < 2 ^ 31 }
    requires reads { doing.old ≡ Doing.Reads }
    requires line { LacksLine (reading_of progress.old.names snapshot.now file.old) }
    requires token { TellsNext (reading_of progress.old.names snapshot.now file.old) Coming.Token }
    ensures turned { (u : TheUnit) → IfOk result (λ t. IsTurned (world_of snapshot.now) u snapshot.now progress.old progress.new file.old file.new doing.old doing.new t) }
    ensures falls { IfOk result (λ t. Falls progress.old progress.new file.old file.new doing.old doing.new t) }
{
    if !progress.may_read() {
        let place = site_of(start_of(file), &file.line);
        file.put_text(&progress.names)?;
        let fault = Fault {
            cause: IllCause::LimitReading,
            place,
        };
        *doing = expand_run(alloc, progress, file, Then::Fails(fault))?;
        return Ok(Turned::Goes);
    }
    match snapshot.get(&file.path) {
        Found::Known(_, bytes) => {
            defined_macros_are_known();
            file.take(&mut progress.names, bytes)?;
            Ok(Turned::Steps)
        }
        Found::Absent | Found::Unknown => unreachable!(),
    }
}

// What comes of the end of a file.
fn closing(file: &OpenFile) -> Then
    ensures left { (w : World) (u : TheUnit) (r : Reading) (k : Task Nothing) (path : Text) (run : ListOf Token) (s : State) → (at_end path run None file.now.open_ifs >>> λ d. k) s ≡ then_left w u r k result (runs path run s) }
    ensures falls { then_rank result ≡ 1 }
{
    match file.open_ifs.first() {
        None => Then::Close,
        Some(innermost) => Then::Fails(Fault {
            cause: IllCause::OpenIf,
            place: innermost.hash,
        }),
    }
}

fn read(
    alloc: Global,
    snapshot: &Snapshot,
    progress: &mut Progress,
    file: &mut OpenFile,
    doing: &mut Doing,
) -> Result<Turned, OutOfMemory>
    requires working { IsWorking snapshot.now progress.old file.old doing.old }
    requires room { length progress.old.names < 2 ^ 31 }
    requires reads { doing.old ≡ Doing.Reads }
    ensures turned { (u : TheUnit) → IfOk result (λ t. IsTurned (world_of snapshot.now) u snapshot.now progress.old progress.new file.old file.new doing.old doing.new t) }
    ensures falls { IfOk result (λ t. Falls progress.old progress.new file.old file.new doing.old doing.new t) }
{
    if file.has_line() {
        *doing = carry_out(alloc, progress, file)?;
        return Ok(Turned::Goes);
    }
    match file.coming() {
        Coming::Token => take(alloc, snapshot, progress, file, doing),
        Coming::Fault(fault) => {
            *doing = expand_run(alloc, progress, file, Then::Fails(lex_fault(fault)))?;
            Ok(Turned::Goes)
        }
        Coming::End => {
            *doing = expand_run(alloc, progress, file, closing(file))?;
            Ok(Turned::Goes)
        }
    }
}

// Carries the present line out, but for a live directive that isn't conditional: before that, the run is
// expanded.
fn carry_out(
    alloc: Global,
    progress: &mut Progress,
    file: &mut OpenFile,
) -> Result<Doing, OutOfMemory>
    requires good { IsProgress progress.old }
    requires room { length progress.old.names < 2 ^ 31 }
    requires literal { file.old.literal.0 < length progress.old.names }
    requires run { AreNamed progress.old.names file.old.run.items }
    requires line { AreNamed progress.old.names file.old.line.items }
    ensures next { (w : World) (u : TheUnit) (files : ListOf TheFile) → IsWorking files progress.old file.old Doing.Reads → HasLine (reading_of progress.old.names files file.old) → IfOk result (λ e. IsNext w u files progress.old progress.new file.new e (λ k. doing_left w u progress.old (reading_of progress.old.names files file.old) k Doing.Reads)) }
    ensures reading { OnOk result (progress.new.reading ≡ progress.old.reading) }
    ensures falls { IfOk result (λ e. rank file.new e < 6) }
{
    match line_of(&progress.names, &file.line) {
        Line::Plain => {
            file.put_text(&progress.names)?;
            file.end_line();
            Ok(Doing::Reads)
        }
        Line::Conditional(hash, t, word, rest) => {
            let led = conditional(alloc, progress, &mut file.open_ifs, hash, t, word, rest)?;
            let next = follow(alloc, progress, file, hash, led)?;
            Ok(next)
        }
        Line::Directive(..) | Line::Empty | Line::Wordless(_) => {
            if file.open_ifs.is_live() {
                let begun = expand_run(alloc, progress, file, Then::Line)?;
                Ok(begun)
            } else {
                file.end_line();
                Ok(Doing::Reads)
            }
        }
    }
}

// What comes of a conditional directive.
fn follow(
    alloc: Global,
    progress: &Progress,
    file: &mut OpenFile,
    hash: Place,
    led: Led,
) -> Result<Doing, OutOfMemory>
    requires good { IsProgress progress.now }
    requires literal { file.old.literal.0 < length progress.now.names }
    requires run { AreNamed progress.now.names file.old.run.items }
    requires asked { AreAsked progress.now.names led }
    ensures next { (w : World) (u : TheUnit) (files : ListOf TheFile) (k : Task Nothing) → IsWorking files progress.now file.old Doing.Reads → IfOk result (λ e. doing_left w u progress.now (reading_of progress.now.names files file.new) k e ≡ led_left w u progress.now (reading_of progress.now.names files file.old) k hash led) }
    ensures working { (files : ListOf TheFile) → IsWorking files progress.now file.old Doing.Reads → IfOk result (λ e. IsWorking files progress.now file.new e) }
    ensures falls { IfOk result (λ e. rank file.new e < 6) }
{
    match led {
        Led::Goes => {
            file.end_line();
            Ok(Doing::Reads)
        }
        Led::Fails(fault) => expand_run(alloc, progress, file, Then::Fails(fault)),
        Led::Asks(decision, list) => {
            let listing = Listing::new(alloc, progress, file.literal, hash, &list)?;
            Ok(Doing::Decides(listing, decision))
        }
    }
}

// Opens a file, in which so many levels of includes may be open, unless it is one that isn't opened again.
pub fn open(
    alloc: Global,
    progress: &mut Progress,
    levels: Option<usize>,
    path: PathText,
    number: PathNo,
    bytes: &[u8],
) -> Result<Turned, OutOfMemory>
    requires good { IsProgress progress.old }
    requires room { length progress.old.names < 2 ^ 31 }
    requires bytes { length bytes.now ≤ 16777216 }
    ensures opened { (w : World) (u : TheUnit) (site : ThePlace) (files : ListOf TheFile) → finding path files ≡ Present number.0 bytes.now → IfOk result (λ t. IsOpened w u files progress.old progress.new (opens_found (enters w u levels) site (searching.Finds path number.0 bytes.now)) t) }
    ensures wants { IfOk result (λ t. WantsNoFile t) }
    ensures counts { IfOk result (λ t. CountsFile progress.old progress.new t) }
{
    defined_macros_are_known();
    if progress.once.has(path.bytes()) {
        return Ok(Turned::Goes);
    }
    let place = Place {
        path: number,
        offset: 0,
    };
    let Some(levels) = levels else {
        return Ok(Turned::Ends(Fault {
            cause: IllCause::LimitIncludes,
            place,
        }));
    };
    if !progress.may_read() {
        return Ok(Turned::Ends(Fault {
            cause: IllCause::LimitReading,
            place,
        }));
    }
    let names = &mut progress.names;
    let file = OpenFile::new(alloc, names, levels, path, number, bytes)?;
    Ok(Turned::Opens(file))
}

// What comes of a search for a file.
pub fn after_search(
    alloc: Global,
    progress: &mut Progress,
    levels: Option<usize>,
    site: Place,
    found: Search,
) -> Result<Turned, OutOfMemory>
    requires good { IsProgress progress.old }
    requires room { length progress.old.names < 2 ^ 31 }
    requires small { IsSmall found }
    ensures opened { (u : TheUnit) (files : ListOf TheFile) (paths : ListOf Text) → seen_search found.entry ≡ searching.search (λ path. finding path files) paths → IfOk result (λ t. IsOpened (world_of files) u files progress.old progress.new (opens (world_of files) (enters (world_of files) u levels) site paths) t) }
    ensures counts { IfOk result (λ t. CountsFile progress.old progress.new t) }
{
    match found {
        Search::Lacks(paths) => Ok(Turned::Needs(paths)),
        Search::Misses => Ok(Turned::Ends(Fault {
            cause: IllCause::MissingFile,
            place: site,
        })),
        Search::Finds(path, number, bytes) => {
            let turned = open(alloc, progress, levels, path, number, bytes)?;
            Ok(turned)
        }
    }
}

// The file of an include is looked for.
fn look(
    context: Context,
    file: &OpenFile,
    header: &Header,
    site: Place,
) -> Result<Doing, OutOfMemory>
    requires { file.now.number.0 < length context.snapshot.now }
    ensures { (names : ListOf Text) → IsOpen names context.entry.snapshot.now file.now → IfOk result (λ d. LooksAt (candidates context.entry.unit.now file.now.path header.now.angled header.now.name.items) site d) }
{
    let paths = context.snapshot.candidates(
        context.alloc,
        context.unit,
        file.number,
        header.angled,
        &header.name,
    )?;
    Ok(Doing::Looks(paths, site))
}

// What comes of a directive that isn't conditional.
fn follow_directed(
    context: Context,
    progress: &Progress,
    file: &OpenFile,
    hash: Place,
    rest: &[PpTok],
    directed: Directed,
) -> Result<Result<Doing, Fault>, OutOfMemory>
    requires good { IsProgress progress.now }
    requires open { IsOpen progress.now.names context.snapshot.now file.now }
    requires rest { AreNamed progress.now.names rest.now }
    ensures behind { (old : TheProgress) (m : Task Nothing) → progress.now.names ≡ old.names → IsDirected (world_of context.entry.snapshot.now) context.entry.unit.now (does_file (world_of context.entry.snapshot.now) context.entry.unit.now file.now.levels) file.now.path hash (tokens_of progress.now.names rest.now) old progress.now m directed → IfOk result (λ next. IsBehind (world_of context.entry.snapshot.now) context.entry.unit.now context.entry.snapshot.now old progress.now file.now (λ k. directed_left (world_of context.entry.snapshot.now) context.entry.unit.now old (reading_of old.names context.entry.snapshot.now file.now) k m) next) }
    ensures falls { IfOk result (λ next. IsBelow 5 next) }
    ensures unexpanded { IsUnexpanded directed → IfOk result (λ next. IsBelow 4 next) }
{
    match directed {
        Directed::Goes => Ok(Ok(Doing::Reads)),
        Directed::Fails(fault) => Ok(Err(fault)),
        Directed::Expands => {
            let listing = Listing::new(context.alloc, progress, file.literal, hash, rest)?;
            Ok(Ok(Doing::Includes(listing)))
        }
        Directed::Looks(header, site) => {
            let doing = look(context, file, &header, site)?;
            Ok(Ok(doing))
        }
    }
}

// Carries out the directive that is the present line, behind its run.
fn directive(
    context: Context,
    progress: &mut Progress,
    file: &OpenFile,
) -> Result<Result<Doing, Fault>, OutOfMemory>
    requires good { IsProgress progress.old }
    requires room { length progress.old.names < 2 ^ 31 }
    requires open { IsOpen progress.old.names context.snapshot.now file.now }
    requires line { length file.now.line.items ≤ 33554432 }
    ensures behind { IfOk result (λ next. IsBehind (world_of context.entry.snapshot.now) context.entry.unit.now context.entry.snapshot.now progress.old progress.new file.now (λ k. (carried (world_of context.entry.snapshot.now) context.entry.unit.now (reading_of progress.old.names context.entry.snapshot.now file.now) (lines.line_of (tokens_of progress.old.names file.now.line.items)) >>> λ n. k) (state_of progress.old)) next) }
    ensures names { progress.new.names ≡ progress.old.names }
    ensures reading { OnOk result (progress.new.reading ≡ progress.old.reading) }
    ensures falls { IfOk result (λ next. IsBelow 5 next) }
{
    match line_of(&progress.names, &file.line) {
        Line::Directive(hash, word, rest) => {
            let directed = direct(
                context.alloc,
                progress,
                &file.path,
                &file.line,
                hash,
                word,
                rest,
            )?;
            let next = follow_directed(context, progress, file, hash, rest, directed)?;
            Ok(next)
        }
        Line::Wordless(hash) => Ok(Err(Fault {
            cause: IllCause::BadDirective,
            place: hash,
        })),
        Line::Plain => Ok(Ok(Doing::Reads)),
        Line::Empty => Ok(Ok(Doing::Reads)),
        Line::Conditional(..) => Ok(Ok(Doing::Reads)),
    }
}

// Goes on so behind a line that ends the run, or ends the unit.
fn behind_run(file: &mut OpenFile, doing: &mut Doing, next: Result<Doing, Fault>) -> Turned
    ensures turned { (w : World) (u : TheUnit) (files : ListOf TheFile) (p q : TheProgress) (d : TheDoing) → IsOpen q.names files file.old → IsBehind w u files p q file.old (λ k. doing_left w u p (reading_of p.names files file.old) k d) next → IsTurned w u files p q file.old file.new d doing.new result }
    ensures falls { (p q : TheProgress) (d : TheDoing) → q.reading ≤ p.reading → IsBelow (rank file.old d) next → Falls p q file.old file.new d doing.new result }
{
    match next {
        Err(fault) => Turned::Ends(fault),
        Ok(next) => {
            file.end_run();
            *doing = next;
            Turned::Goes
        }
    }
}

fn after_run(
    context: Context,
    progress: &mut Progress,
    file: &mut OpenFile,
    doing: &mut Doing,
    then: Then,
) -> Result<Turned, OutOfMemory>
    requires good { IsProgress progress.old }
    requires room { length progress.old.names < 2 ^ 31 }
    requires open { IsOpen progress.old.names context.snapshot.now file.old }
    requires line { length file.old.line.items + progress.old.reading ≤ 33554432 }
    ensures turned { (p : TheProgress) (d : TheDoing) → IsProgress p → ((k : Task Nothing) → Leads 0 p progress.old (doing_left (world_of context.entry.snapshot.now) context.entry.unit.now p (reading_of p.names context.entry.snapshot.now file.old) k d) (then_left (world_of context.entry.snapshot.now) context.entry.unit.now (reading_of progress.old.names context.entry.snapshot.now file.old) k then (Goes Done (state_of progress.old) []))) → IfOk result (λ t. IsTurned (world_of context.entry.snapshot.now) context.entry.unit.now context.entry.snapshot.now p progress.new file.old file.new d doing.new t) }
    ensures falls { (p : TheProgress) (e : Boxed) → p.reading ≡ progress.old.reading → IfOk result (λ t. Falls p progress.new file.old file.new (Doing.Expands e then) doing.new t) }
{
    match then {
        Then::Fails(fault) => Ok(Turned::Ends(fault)),
        Then::Close => Ok(Turned::Closes),
        Then::Line => {
            let next = directive(context, progress, file)?;
            Ok(behind_run(file, doing, next))
        }
    }
}

// A token of a run is given, and the run goes on; or the unit ends, where there is no room for the token.
fn give(
    progress: &mut Progress,
    t: PpTok,
    expansion: Box<Expansion>,
    then: Then,
) -> Result<Doing, OutOfMemory>
    requires good { IsProgress progress.old }
    requires name { IsNamed progress.old.names t }
    ensures given { IfOk result (λ next. IsGiving progress.old progress.new t (Doing.Expands expansion then) next) }
{
    if progress.give(t)? {
        Ok(Doing::Expands(expansion, then))
    } else {
        Ok(Doing::Fails(Fault {
            cause: IllCause::LimitTokens,
            place: t.site,
        }))
    }
}

// What comes of the expanded list of a conditional. Where the unit ends there, the work that the list used is
// there again for the run before it.
fn after_decision(
    alloc: Global,
    progress: &mut Progress,
    file: &mut OpenFile,
    given: &[PpTok],
    decision: Decision,
    hash: Place,
    before: u32,
) -> Result<Doing, OutOfMemory>
    requires good { IsProgress progress.old }
    requires literal { file.old.literal.0 < length progress.old.names }
    requires run { AreNamed progress.old.names file.old.run.items }
    requires before { before ≤ LIMIT }
    ensures next { (w : World) (u : TheUnit) (files : ListOf TheFile) → IsOpen progress.old.names files file.old → IsFitting progress.old file.old → IfOk result (λ e. IsNext w u files (record progress.old { used = before }) progress.new file.new e
        (λ k. decision_left w u (reading_of progress.old.names files file.old) k (state_of (record progress.old { used = before })) (decided decision hash (reading_of progress.old.names files file.old).open_ifs (tokens_of progress.old.names given.now) (state_of progress.old)))) }
    ensures reading { OnOk result (progress.new.reading ≡ progress.old.reading) }
    ensures falls { IfOk result (λ e. rank file.new e < 5) }
{
    match decide(alloc, progress, hash, given)? {
        Ok(holds) => {
            choose(&mut file.open_ifs, decision, hash, holds)?;
            file.end_line();
            Ok(Doing::Reads)
        }
        Err(fault) => {
            progress.used = before;
            let doing = expand_run(alloc, progress, file, Then::Fails(fault))?;
            Ok(doing)
        }
    }
}

// What comes of the end of the list of an include.
fn after_include(
    context: Context,
    progress: &mut Progress,
    file: &OpenFile,
    given: &[PpTok],
    hash: Place,
) -> Result<Result<Doing, Fault>, OutOfMemory>
    requires good { IsProgress progress.old }
    requires open { IsOpen progress.old.names context.snapshot.now file.now }
    ensures behind { IfOk result (λ next. IsBehind (world_of context.entry.snapshot.now) context.entry.unit.now context.entry.snapshot.now progress.old progress.new file.now (λ k. directed_left (world_of context.entry.snapshot.now) context.entry.unit.now progress.old (reading_of progress.old.names context.entry.snapshot.now file.now) k (includes_given (world_of context.entry.snapshot.now) context.entry.unit.now (does_file (world_of context.entry.snapshot.now) context.entry.unit.now file.now.levels) file.now.path hash (tokens_of progress.old.names given.now))) next) }
    ensures names { progress.new.names ≡ progress.old.names }
    ensures reading { OnOk result (progress.new.reading ≡ progress.old.reading) }
    ensures falls { IfOk result (λ next. IsBelow 4 next) }
{
    let directed = include_given(context.alloc, progress, hash, given)?;
    let next = follow_directed(context, progress, file, hash, &[], directed)?;
    Ok(next)
}

/// What is done next in an open file.
pub fn turn(
    context: Context,
    progress: &mut Progress,
    file: &mut OpenFile,
    doing: &mut Doing,
) -> Result<Turned, OutOfMemory>
    requires working { IsWorking context.snapshot.now progress.old file.old doing.old }
    requires room { length progress.old.names < 2 ^ 31 }
    ensures turned { IfOk result (λ t. IsTurned (world_of context.entry.snapshot.now) context.entry.unit.now context.entry.snapshot.now progress.old progress.new file.old file.new doing.old doing.new t) }
    ensures falls { IfOk result (λ t. Falls progress.old progress.new file.old file.new doing.old doing.new t) }
{
    match replace(doing, Doing::Reads) {
        Doing::Reads => {
            let turned = read(context.alloc, context.snapshot, progress, file, doing)?;
            Ok(turned)
        }
        Doing::Expands(expansion, then) => {
            let turned = run_turn(context, progress, file, doing, expansion, then)?;
            Ok(turned)
        }
        Doing::Decides(listing, decision) => {
            let turned = decide_turn(context.alloc, progress, file, doing, listing, decision)?;
            Ok(turned)
        }
        Doing::Includes(listing) => {
            let turned = include_turn(context, progress, file, doing, listing)?;
            Ok(turned)
        }
        Doing::Looks(paths, site) => {
            let turned = look_turn(
                context.alloc,
                context.snapshot,
                progress,
                file,
                doing,
                paths,
                site,
            )?;
            Ok(turned)
        }
        Doing::Fails(fault) => Ok(Turned::Ends(fault)),
    }
}

// The file of an include is looked for and opened; what is done stays where nothing is known of the paths.
fn look_turn(
    alloc: Global,
    snapshot: &Snapshot,
    progress: &mut Progress,
    file: &mut OpenFile,
    doing: &mut Doing,
    paths: Vec<PathText>,
    site: Place,
) -> Result<Turned, OutOfMemory>
    requires working { IsWorking snapshot.now progress.old file.old (Doing.Looks paths site) }
    requires room { length progress.old.names < 2 ^ 31 }
    requires reads { doing.old ≡ Doing.Reads }
    ensures turned { (u : TheUnit) → IfOk result (λ t. IsTurned (world_of snapshot.now) u snapshot.now progress.old progress.new file.old file.new (Doing.Looks paths site) doing.new t) }
    ensures falls { IfOk result (λ t. Falls progress.old progress.new file.old file.new (Doing.Looks paths site) doing.new t) }
{
    let levels = file.levels.checked_sub(1);
    let found = first_file(alloc, snapshot, &paths)?;
    match after_search(alloc, progress, levels, site, found)? {
        Turned::Needs(unknown) => {
            *doing = Doing::Looks(paths, site);
            Ok(Turned::Needs(unknown))
        }
        turned => Ok(turned),
    }
}

fn run_turn(
    context: Context,
    progress: &mut Progress,
    file: &mut OpenFile,
    doing: &mut Doing,
    mut expansion: Box<Expansion>,
    then: Then,
) -> Result<Turned, OutOfMemory>
    requires good { IsProgress progress.old }
    requires room { length progress.old.names < 2 ^ 31 }
    requires open { IsOpen progress.old.names context.snapshot.now file.old }
    requires line { length file.old.line.items + progress.old.reading ≤ 33554432 }
    requires expanding { IsExpanding progress.old expansion.value }
    requires literal { expansion.value.expander.machine.file ≡ file.old.literal }
    ensures turned { IfOk result (λ t. IsTurned (world_of context.entry.snapshot.now) context.entry.unit.now context.entry.snapshot.now progress.old progress.new file.old file.new (Doing.Expands expansion then) doing.new t) }
    ensures falls { IfOk result (λ t. Falls progress.old progress.new file.old file.new (Doing.Expands expansion then) doing.new t) }
{
    defined_macros_are_known();
    match expansion.step(progress)? {
        Use::Goes => {
            progress.used = expansion.used();
            *doing = Doing::Expands(expansion, then);
            Ok(Turned::Steps)
        }
        Use::Gives(t) => {
            progress.used = expansion.used();
            *doing = give(progress, t, expansion, then)?;
            Ok(Turned::Steps)
        }
        Use::Ends => {
            progress.used = expansion.used();
            let turned = after_run(context, progress, file, doing, then)?;
            Ok(turned)
        }
        Use::Fails(fault) => Ok(Turned::Ends(earlier(then, fault))),
    }
}

fn decide_turn(
    alloc: Global,
    progress: &mut Progress,
    file: &mut OpenFile,
    doing: &mut Doing,
    mut listing: Listing,
    decision: Decision,
) -> Result<Turned, OutOfMemory>
    requires good { IsProgress progress.old }
    requires room { length progress.old.names < 2 ^ 31 }
    requires literal { listing.expansion.value.expander.machine.file ≡ file.old.literal }
    requires listing { IsListing progress.old listing }
    requires run { AreNamed progress.old.names file.old.run.items }
    ensures turned { (w : World) (u : TheUnit) (files : ListOf TheFile) → IsOpen progress.old.names files file.old → IsFitting progress.old file.old → IfOk result (λ t. IsTurned w u files progress.old progress.new file.old file.new (Doing.Decides listing decision) doing.new t) }
    ensures falls { IfOk result (λ t. Falls progress.old progress.new file.old file.new (Doing.Decides listing decision) doing.new t) }
{
    defined_macros_are_known();
    match listing.step(progress)? {
        Listed::Goes => {
            *doing = Doing::Decides(listing, decision);
            Ok(Turned::Steps)
        }
        Listed::Ends => {
            let before = progress.used;
            progress.used = listing.used();
            let (given, hash) = (&listing.given, listing.hash);
            *doing = after_decision(alloc, progress, file, given, decision, hash, before)?;
            Ok(Turned::Goes)
        }
        Listed::Fails(fault) => {
            *doing = expand_run(alloc, progress, file, Then::Fails(fault))?;
            Ok(Turned::Goes)
        }
    }
}

fn include_turn(
    context: Context,
    progress: &mut Progress,
    file: &mut OpenFile,
    doing: &mut Doing,
    mut listing: Listing,
) -> Result<Turned, OutOfMemory>
    requires good { IsProgress progress.old }
    requires room { length progress.old.names < 2 ^ 31 }
    requires open { IsOpen progress.old.names context.snapshot.now file.old }
    requires line { length file.old.line.items + progress.old.reading ≤ 33554432 }
    requires listing { IsListing progress.old listing }
    requires literal { listing.expansion.value.expander.machine.file ≡ file.old.literal }
    ensures turned { IfOk result (λ t. IsTurned (world_of context.entry.snapshot.now) context.entry.unit.now context.entry.snapshot.now progress.old progress.new file.old file.new (Doing.Includes listing) doing.new t) }
    ensures falls { IfOk result (λ t. Falls progress.old progress.new file.old file.new (Doing.Includes listing) doing.new t) }
{
    defined_macros_are_known();
    match listing.step(progress)? {
        Listed::Goes => {
            *doing = Doing::Includes(listing);
            Ok(Turned::Steps)
        }
        Listed::Ends => {
            progress.used = listing.used();
            let next = after_include(context, progress, file, &listing.given, listing.hash)?;
            Ok(behind_run(file, doing, next))
        }
        Listed::Fails(fault) => Ok(Turned::Ends(fault)),
    }
}
