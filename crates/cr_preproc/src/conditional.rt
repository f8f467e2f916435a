//! The directives of conditional inclusion (C11 6.10.1).
ghost use Rattle.std.specs.Prelude.{◌≡◌, ◌<◌, ◌^◌, ◌∷◌, [], true, IfOk, OnOk, if◌then◌else◌, length, List as ListOf};
ghost use Rattle.cr_base.specs.declared.cause.IllCause.TheVariants as cause;
ghost use Rattle.cr_base.specs.declared.cause.Role.TheVariants as role;
ghost use Rattle.cr_base.specs.declared.token.Place.{Place as ThePlace};
ghost use Rattle.cr_macros.specs.Tokens.{Text, Token, token_of, tokens_of};
ghost use Rattle.cr_phase4.specs.Conditionals as spec;
ghost use Rattle.cr_preproc.specs.Leading.{IsLed, IsDecided, chosen};
ghost use Rattle.cr_preproc.specs.Progressing.{IsProgress, Did};
ghost use Rattle.cr_preproc.specs.Seen.{AreNamed, IsNamed};
ghost use Rattle.cr_phase4.specs.Tasks.{Done, ◌>>>◌, only, tell, marks};
ghost use Rattle.cr_preproc.specs.declared.conditional.Led.TheVariants as led;
ghost use Rattle.cr_phase4.specs.declared.conditionals.Word.TheVariants as word;
ghost use Rattle.cr_phase4.specs.declared.conditionals.OpenIf.{OpenIf as TheOpenIf};

use crate::condition::{answer_defined, is_macro, note_asked};
use crate::evaluate::{cause_of, is_true};
use crate::expansion::Fault;
use crate::open_ifs::{Elif, OpenIfs, group_if};
use crate::progress::Progress;
use cr_base::{IllCause, OutOfMemory, Place, PpTok, Role};
use cr_cond::CondFault;
use cr_expand::defined_macros_are_known;
use cr_macros::is_ident;
use cr_phase4::{Group, Word};
use std::alloc::Global;

// What the value of a list decides on: a conditional that begins, or the next group of the innermost one.
#[derive(Clone, Copy, Debug, PartialEq, Eq)]
pub enum Decision {
    If,
    Elif,
}

// What a conditional directive leads to.
#[derive(Drop)]
pub enum Led {
    // It is carried out.
    Goes,
    // The unit ends so, unless the run before it ends it by something else.
    Fails(Fault),
    // This list is expanded, whose value decides.
    Asks(Decision, Vec<PpTok>),
}

fn stray(hash: Place) -> Led
    ensures { result ≡ led.Fails (record { cause = cause.StrayElse; place = hash }) }
{
    Led::Fails(Fault {
        cause: IllCause::StrayElse,
        place: hash,
    })
}

fn bad_directive(hash: Place) -> Led
    ensures { result ≡ led.Fails (record { cause = cause.BadDirective; place = hash }) }
{
    Led::Fails(Fault {
        cause: IllCause::BadDirective,
        place: hash,
    })
}

// An `else` or an `endif` that is carried out, or stands wrong.
fn ended(hash: Place, good: bool) -> Led
    ensures { result ≡ (if good then led.Goes else led.Fails (record { cause = cause.StrayElse; place = hash })) }
{
    if good { Led::Goes } else { stray(hash) }
}

// The group of a conditional begins.
pub fn choose(
    open_ifs: &mut OpenIfs,
    decision: Decision,
    hash: Place,
    holds: bool,
) -> Result<(), OutOfMemory>
    ensures chosen { OnOk result (open_ifs.new ≡ chosen decision hash open_ifs.old holds) }
{
    match decision {
        Decision::If => open_ifs.begin(hash, group_if(holds)),
        Decision::Elif => {
            open_ifs.set_group(group_if(holds));
            Ok(())
        }
    }
}

// The list of an `if` or an `elif`, in which each `defined` is answered.
fn ask(
    alloc: Global,
    progress: &mut Progress,
    decision: Decision,
    list: &[PpTok],
) -> Result<Led, OutOfMemory>
    requires good { IsProgress progress.old }
    requires room { length progress.old.names < 2 ^ 31 }
    requires list { AreNamed progress.old.names list.now }
    ensures led { (path : Text) (hash : ThePlace) (cs : ListOf TheOpenIf) → IfOk result (λ l. IsLed path hash progress.old progress.new cs cs
        (spec.condition path hash (tokens_of progress.old.names list.now) >>> λ b. only (chosen decision hash cs b)) l) }
    ensures good { OnOk result (IsProgress progress.new) }
{
    defined_macros_are_known();
    note_asked(
        &mut progress.trace.seen,
        &progress.names,
        progress.renaming,
        list,
    )?;
    let answered = answer_defined(alloc, &mut progress.names, &progress.macros, list)?;
    // The table of names has each text once.
    let _ = progress.names.text(progress.renaming.old);
    Ok(Led::Asks(decision, answered))
}

fn begin_if(
    alloc: Global,
    progress: &mut Progress,
    open_ifs: &mut OpenIfs,
    hash: Place,
    rest: &[PpTok],
) -> Result<Led, OutOfMemory>
    requires good { IsProgress progress.old }
    requires room { length progress.old.names < 2 ^ 31 }
    requires rest { AreNamed progress.old.names rest.now }
    ensures led { (path : Text) → IfOk result (λ l. IsLed path hash progress.old progress.new open_ifs.old open_ifs.new (spec.conditional path hash (tokens_of progress.old.names rest.now) open_ifs.old word.If) l) }
    ensures good { OnOk result (IsProgress progress.new) }
{
    if open_ifs.is_live() {
        let led = ask(alloc, progress, Decision::If, rest)?;
        Ok(led)
    } else {
        open_ifs.begin(hash, Group::Past)?;
        Ok(Led::Goes)
    }
}

// An `ifdef` or an `ifndef` on a live line, whose group is taken where its name is that of a macro, or
// isn't.
fn begin_by(
    progress: &mut Progress,
    open_ifs: &mut OpenIfs,
    hash: Place,
    name: PpTok,
    wanted: bool,
) -> Result<Led, OutOfMemory>
    requires good { IsProgress progress.old }
    requires name { IsNamed progress.old.names name }
    requires live { spec.is_live open_ifs.old ≡ true }
    ensures led { (path : Text) (ts : ListOf Token) → IfOk result (λ l. IsLed path hash progress.old progress.new open_ifs.old open_ifs.new (spec.conditional path hash (token_of progress.old.names [] name ∷ ts) open_ifs.old (if wanted then word.Ifdef else word.Ifndef)) l) }
    ensures good { OnOk result (IsProgress progress.new) }
{
    if is_ident(name.kind) {
        progress.note(Role::Directive, name)?;
        let is = is_macro(&progress.names, &progress.macros, name);
        open_ifs.begin(hash, group_if(is == wanted))?;
        Ok(Led::Goes)
    } else {
        Ok(bad_directive(hash))
    }
}

// An `ifdef`, or an `ifndef` where no macro is wanted.
fn begin_named(
    progress: &mut Progress,
    open_ifs: &mut OpenIfs,
    hash: Place,
    rest: &[PpTok],
    wanted: bool,
) -> Result<Led, OutOfMemory>
    requires good { IsProgress progress.old }
    requires rest { AreNamed progress.old.names rest.now }
    ensures led { (path : Text) → IfOk result (λ l. IsLed path hash progress.old progress.new open_ifs.old open_ifs.new (spec.conditional path hash (tokens_of progress.old.names rest.now) open_ifs.old (if wanted then word.Ifdef else word.Ifndef)) l) }
    ensures good { OnOk result (IsProgress progress.new) }
{
    if !open_ifs.is_live() {
        open_ifs.begin(hash, Group::Past)?;
        return Ok(Led::Goes);
    }
    match rest {
        [] => Ok(bad_directive(hash)),
        [name, ..] => {
            let led = begin_by(progress, open_ifs, hash, *name, wanted)?;
            Ok(led)
        }
    }
}

fn elif(
    alloc: Global,
    progress: &mut Progress,
    open_ifs: &mut OpenIfs,
    hash: Place,
    rest: &[PpTok],
) -> Result<Led, OutOfMemory>
    requires good { IsProgress progress.old }
    requires room { length progress.old.names < 2 ^ 31 }
    requires rest { AreNamed progress.old.names rest.now }
    ensures led { (path : Text) → IfOk result (λ l. IsLed path hash progress.old progress.new open_ifs.old open_ifs.new (spec.elif path hash (tokens_of progress.old.names rest.now) open_ifs.old) l) }
    ensures good { OnOk result (IsProgress progress.new) }
{
    match open_ifs.elif() {
        Elif::Stray => Ok(stray(hash)),
        Elif::Asks => {
            let led = ask(alloc, progress, Decision::Elif, rest)?;
            Ok(led)
        }
        Elif::Skips => {
            open_ifs.set_group(Group::Past);
            Ok(Led::Goes)
        }
    }
}

// A conditional directive by its word.
fn carry_out(
    alloc: Global,
    progress: &mut Progress,
    open_ifs: &mut OpenIfs,
    hash: Place,
    word: Word,
    rest: &[PpTok],
) -> Result<Led, OutOfMemory>
    requires good { IsProgress progress.old }
    requires room { length progress.old.names < 2 ^ 31 }
    requires rest { AreNamed progress.old.names rest.now }
    ensures led { (path : Text) → IfOk result (λ l. IsLed path hash progress.old progress.new open_ifs.old open_ifs.new (spec.conditional path hash (tokens_of progress.old.names rest.now) open_ifs.old word) l) }
    ensures good { OnOk result (IsProgress progress.new) }
{
    match word {
        Word::If => {
            let led = begin_if(alloc, progress, open_ifs, hash, rest)?;
            Ok(led)
        }
        Word::Ifdef => {
            let led = begin_named(progress, open_ifs, hash, rest, true)?;
            Ok(led)
        }
        Word::Ifndef => {
            let led = begin_named(progress, open_ifs, hash, rest, false)?;
            Ok(led)
        }
        Word::Elif => {
            let led = elif(alloc, progress, open_ifs, hash, rest)?;
            Ok(led)
        }
        Word::Else => Ok(ended(hash, open_ifs.to_else())),
        Word::Endif => Ok(ended(hash, open_ifs.endif())),
    }
}

// Notes the word where it is live.
fn note_word(progress: &mut Progress, is_live: bool, t: PpTok) -> Result<(), OutOfMemory>
    requires good { IsProgress progress.old }
    ensures did { OnOk result (Did 0 progress.old progress.new (tell (if is_live then marks role.Directive (token_of progress.old.names [] t) else [])) Done) }
    ensures names { progress.new.names ≡ progress.old.names }
{
    if is_live {
        progress.note(Role::Directive, t)?;
    }
    Ok(())
}

// A conditional directive, with the tokens behind its word.
pub fn conditional(
    alloc: Global,
    progress: &mut Progress,
    open_ifs: &mut OpenIfs,
    hash: Place,
    t: PpTok,
    word: Word,
    rest: &[PpTok],
) -> Result<Led, OutOfMemory>
    requires good { IsProgress progress.old }
    requires room { length progress.old.names < 2 ^ 31 }
    requires word { IsNamed progress.old.names t }
    requires rest { AreNamed progress.old.names rest.now }
    ensures led { (path : Text) → IfOk result (λ l. IsLed path hash progress.old progress.new open_ifs.old open_ifs.new
        (tell (if spec.is_word_live open_ifs.old word then marks role.Directive (token_of progress.old.names [] t) else []) >>> λ d. spec.conditional path hash (tokens_of progress.old.names rest.now) open_ifs.old word) l) }
    ensures good { OnOk result (IsProgress progress.new) }
{
    note_word(progress, open_ifs.is_word_live(word), t)?;
    let led = carry_out(alloc, progress, open_ifs, hash, word, rest)?;
    Ok(led)
}

// Whether the expanded list of an `if` or an `elif` is true, or how the unit ends.
pub fn decide(
    alloc: Global,
    progress: &mut Progress,
    hash: Place,
    given: &[PpTok],
) -> Result<Result<bool, Fault>, OutOfMemory>
    requires good { IsProgress progress.old }
    ensures decided { IfOk result (λ r. IsDecided hash progress.old progress.new (tokens_of progress.old.names given.now) r) }
    ensures good { OnOk result (IsProgress progress.new) }
    ensures names { progress.new.names ≡ progress.old.names }
    ensures reading { OnOk result (progress.new.reading ≡ progress.old.reading) }
{
    progress.note_all(Role::Controlling, given)?;
    match is_true(alloc, &progress.names, given) {
        Ok(holds) => Ok(Ok(holds)),
        Err(CondFault::OutOfMemory) => Err(OutOfMemory),
        Err(fault) => Ok(Err(Fault {
            cause: cause_of(fault),
            place: hash,
        })),
    }
}
