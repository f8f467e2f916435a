//! What a unit has so far, and what is left of its limits.
ghost use Rattle.std.specs.Prelude.{◌≡◌, ◌<◌, ◌≤◌, ◌^◌, ◌-◌, [], ◌∷◌, List as ListOf, length, drop, true, false, is_some, Some, None, IfOk, OnOk};
ghost use Rattle.cr_base.specs.NameTable.{with_text};
ghost use Rattle.cr_base.specs.declared.token.Place.{Place as ThePlace};
ghost use Rattle.cr_macros.specs.Definition.{IsFirstPlaced, text_of};
ghost use Rattle.cr_macros.specs.Tokens.{Text, MacroText, token_of, tokens_of};
ghost use Rattle.cr_phase4.specs.Tasks.{Done, tell, change, marks, gives};
ghost use Rattle.cr_phase4.specs.Definition as spec;
ghost use Rattle.cr_phase4.specs.Definition.{Definition};
ghost use Rattle.cr_phase4.specs.Directives.{all_marks, defines, undefines};
ghost use Rattle.cr_phase4.specs.Preprocessing.{at_first};
ghost use Rattle.cr_preproc.specs.Progressing.{state_of, kept, IsProgress, IsSeen, IsTraced, IsNotOpaque, definition_of, definition_events, Did};
ghost use Rattle.cr_preproc.specs.Seen.{IsNamed, AreNamed, macros_of};
ghost use Rattle.cr_phase4.specs.Traces.{seen_as, trace_of};

use crate::definitions::{define, undefine, undefined_name};
use crate::once::Once;
use crate::roles::{note_captured, note_definition};
use crate::trace::{Renaming, Trace, note, note_all, note_new_macro, note_seen_places};
use cr_base::{NameTable, Origin, OutOfMemory, PpTok, Role};
use cr_expand::defined_macros_are_known;
use cr_macros::{ExpandFault, MacroTable};
use std::alloc::Global;

// How many final tokens a unit may have.
pub const MOST_TOKENS: usize = 1_048_576;

// How many tokens may be taken from files and files be opened.
pub const MOST_READ: u32 = 33_554_432;

// How many texts the table of names may hold before a turn.
const MOST_NAMES: usize = 2_147_483_648;

// The tables of a unit, the macro work that is used, how much may still be read, the final tokens and the
// trace.
#[derive(Drop)]
pub struct Progress {
    pub names: NameTable,
    pub renaming: Renaming,
    pub macros: MacroTable,
    pub once: Once,
    pub used: u32,
    pub reading: u32,
    pub tokens: Vec<PpTok>,
    pub trace: Trace,
}

// The name that a `define` line defines.
fn name_of(line: &[PpTok]) -> PpTok
    requires { 2 < length line.now }
    ensures { drop 2 line.now ≡ result ∷ drop 3 line.now }
{
    line[2]
}

// What stands behind it.
fn behind_name(line: &[PpTok]) -> &[PpTok]
    requires { 2 < length line.now }
    ensures { result.now ≡ drop 3 line.now }
{
    &line[3..]
}

impl Progress {
    // A unit that has nothing yet, for the renaming of one name to another.
    pub fn new(alloc: Global, old: &[u8], new: &[u8]) -> Result<Progress, OutOfMemory>
        ensures good { IfOk result (λ p. IsProgress p) }
        ensures state { IfOk result (λ p. state_of p ≡ at_first) }
        ensures tokens { IfOk result (λ p. p.tokens.items ≡ []) }
        ensures trace { IfOk result (λ p. kept p.trace ≡ trace_of old.now new.now []) }
        ensures old { IfOk result (λ p. text_of p.names p.renaming.old ≡ old.now) }
        ensures new { IfOk result (λ p. text_of p.names p.renaming.new ≡ new.now) }
        ensures room { IfOk result (λ p. length p.names < 2 ^ 31) }
    {
        let mut names = NameTable::new(alloc);
        let old = names.intern(old)?;
        let new = names.intern(new)?;
        Ok(Progress {
            names,
            renaming: Renaming { old, new },
            macros: MacroTable::new(alloc),
            once: Once::new(alloc),
            used: 0,
            reading: MOST_READ,
            tokens: Vec::new(alloc),
            trace: Trace::new(alloc),
        })
    }

    // Fails where the table of names has no room for what a turn may put into it.
    pub fn check_room(&self) -> Result<(), OutOfMemory>
        ensures { OnOk result (length self.now.names < 2 ^ 31) }
    {
        if self.names.len() < MOST_NAMES {
            Ok(())
        } else {
            Err(OutOfMemory)
        }
    }

    // Gives back the table of names, the tokens and the trace.
    pub fn give_back(&mut self, alloc: Global)
        ensures { self.new.names ≡ [] }
    {
        self.names = NameTable::new(alloc);
        self.tokens = Vec::new(alloc);
        self.trace = Trace::new(alloc);
    }

    // Notes for what a token is taken.
    pub fn note(&mut self, role: Role, t: PpTok) -> Result<(), OutOfMemory>
        requires good { IsProgress self.old }
        requires role { IsNotOpaque role }
        ensures did { OnOk result (Did 0 self.old self.new (tell (marks role (token_of self.old.names [] t))) Done) }
        ensures seen { OnOk result (IsSeen self.old self.new (seen_as (text_of self.old.names self.old.renaming.old) (text_of self.old.names self.old.renaming.new) role (token_of self.old.names [] t))) }
        ensures names { self.new.names ≡ self.old.names }
        ensures reading { OnOk result (self.new.reading ≡ self.old.reading) }
    {
        note(&mut self.trace.seen, &self.names, self.renaming, role, t)?;
        Ok(())
    }

    // The same of each of the tokens.
    pub fn note_all(&mut self, role: Role, tokens: &[PpTok]) -> Result<(), OutOfMemory>
        requires good { IsProgress self.old }
        requires role { IsNotOpaque role }
        ensures did { OnOk result (Did 0 self.old self.new (tell (all_marks role (tokens_of self.old.names tokens.now))) Done) }
        ensures names { self.new.names ≡ self.old.names }
        ensures reading { OnOk result (self.new.reading ≡ self.old.reading) }
    {
        note_all(
            &mut self.trace.seen,
            &self.names,
            self.renaming,
            role,
            tokens,
        )?;
        Ok(())
    }

    // Notes the tokens of a pragma.
    pub fn note_opaque(&mut self, tokens: &[PpTok]) -> Result<(), OutOfMemory>
        requires good { IsProgress self.old }
        ensures did { OnOk result (Did 0 self.old self.new (tell (all_marks Role.Opaque (tokens_of self.old.names tokens.now))) Done) }
        ensures names { self.new.names ≡ self.old.names }
        ensures reading { OnOk result (self.new.reading ≡ self.old.reading) }
    {
        let before = self.trace.seen.len();
        note_all(
            &mut self.trace.seen,
            &self.names,
            self.renaming,
            Role::Opaque,
            tokens,
        )?;
        note_seen_places(&mut self.trace.opaque, &self.trace.seen[before..])?;
        Ok(())
    }

    // Notes a definition that was carried out, of a name with what stands behind it.
    fn note_define(&mut self, name: PpTok, behind: &[PpTok]) -> Result<(), OutOfMemory>
        requires good { IsProgress self.old }
        requires name { IsNamed self.old.names name }
        requires defined { is_some (macros_of self.old.names self.old.macros (text_of self.old.names name.text)) ≡ true }
        ensures traced { (m : MacroText) → macros_of self.old.names self.old.macros (text_of self.old.names name.text) ≡ Some m → OnOk result (IsTraced self.old self.new (definition_events (definition_of self.old.names name behind.now m))) }
        ensures names { self.new.names ≡ self.old.names }
        ensures reading { OnOk result (self.new.reading ≡ self.old.reading) }
    {
        let Some(m) = self.macros.lookup(name.text) else {
            unreachable!()
        };
        let renaming = self.renaming;
        note_definition(&mut self.trace.seen, &self.names, renaming, name, behind, m)?;
        note_new_macro(&mut self.trace.new_macros, &self.names, renaming.new, name)?;
        note_captured(&mut self.trace.body_params, &self.names, renaming, m)?;
        Ok(())
    }

    // The same of a line, given from its `#` on.
    fn note_line(&mut self, line: &[PpTok]) -> Result<(), OutOfMemory>
        requires good { IsProgress self.old }
        requires line { AreNamed self.old.names line.now }
        requires defined { (d : Definition) × (spec.definition (tokens_of self.old.names (drop 2 line.now)) ≡ Some d) × (macros_of self.old.names self.old.macros d.name.text ≡ Some d.macro) }
        ensures traced { (d : Definition) → spec.definition (tokens_of self.old.names (drop 2 line.now)) ≡ Some d → macros_of self.old.names self.old.macros d.name.text ≡ Some d.macro → OnOk result (IsTraced self.old self.new (definition_events d)) }
        ensures names { self.new.names ≡ self.old.names }
        ensures reading { OnOk result (self.new.reading ≡ self.old.reading) }
    {
        self.note_define(name_of(line), behind_name(line))?;
        Ok(())
    }

    // Carries a `define` line out, given from its `#` on; false where it is wrong.
    pub fn define(&mut self, line: &[PpTok]) -> Result<bool, OutOfMemory>
        requires good { IsProgress self.old }
        requires words { 2 ≤ length line.now }
        requires placed { IsFirstPlaced line.now }
        requires line { AreNamed self.old.names line.now }
        requires long { length line.now ≤ 33554432 }
        ensures carried { IfOk result (λ carried. carried ≡ true → (hash : ThePlace) → Did 0 self.old self.new (defines hash (spec.definition (tokens_of self.old.names (drop 2 line.now)))) Done) }
        ensures wrong { IfOk result (λ carried. carried ≡ false → (spec.definition (tokens_of self.old.names (drop 2 line.now)) ≡ None) × (self.new ≡ self.old)) }
        ensures names { self.new.names ≡ self.old.names }
        ensures reading { OnOk result (self.new.reading ≡ self.old.reading) }
    {
        defined_macros_are_known();
        match define(&mut self.macros, &self.names, line) {
            Ok(()) => {
                self.note_line(line)?;
                Ok(true)
            }
            Err(ExpandFault::OutOfMemory) => Err(OutOfMemory),
            Err(_) => Ok(false),
        }
    }

    // Carries an `undef` out, given what stands behind the word; false where it is wrong.
    pub fn undefine(&mut self, tokens: &[PpTok]) -> Result<bool, OutOfMemory>
        requires good { IsProgress self.old }
        requires tokens { AreNamed self.old.names tokens.now }
        ensures carried { IfOk result (λ carried. carried ≡ true → (hash : ThePlace) → Did 0 self.old self.new (undefines hash (spec.undefined_name (tokens_of self.old.names tokens.now))) Done) }
        ensures wrong { IfOk result (λ carried. carried ≡ false → (spec.undefined_name (tokens_of self.old.names tokens.now) ≡ None) × (self.new ≡ self.old)) }
        ensures names { self.new.names ≡ self.old.names }
        ensures reading { OnOk result (self.new.reading ≡ self.old.reading) }
    {
        defined_macros_are_known();
        let Some(name) = undefined_name(&self.names, tokens) else {
            return Ok(false);
        };
        self.note(Role::Directive, name)?;
        undefine(&mut self.macros, &self.names, name.text);
        Ok(true)
    }

    // Adds a file that isn't opened again.
    pub fn add_once(&mut self, path: &[u8]) -> Result<(), OutOfMemory>
        requires good { IsProgress self.old }
        ensures did { OnOk result (Did 0 self.old self.new (change (λ s. record s { once = with_text s.once path.now })) Done) }
        ensures names { self.new.names ≡ self.old.names }
        ensures reading { OnOk result (self.new.reading ≡ self.old.reading) }
    {
        self.once.add(path)
    }

    // Whether one more token or file may be read, which counts it.
    pub fn may_read(&mut self) -> bool
        requires good { IsProgress self.old }
        ensures read { result ≡ true → (0 < self.old.reading) × (self.new ≡ record self.old { reading = self.old.reading - 1 }) }
        ensures none { result ≡ false → (self.old.reading ≡ 0) × (self.new ≡ self.old) }
        ensures good { IsProgress self.new }
        ensures names { self.new.names ≡ self.old.names }
    {
        if self.reading == 0 {
            return false;
        }
        self.reading -= 1;
        true
    }

    // Gives a final token; false where there are too many.
    pub fn give(&mut self, t: PpTok) -> Result<bool, OutOfMemory>
        requires good { IsProgress self.old }
        requires name { IsNamed self.old.names t }
        ensures given { IfOk result (λ given. given ≡ true → (hide : ListOf Text) → Did 0 self.old self.new (gives (token_of self.old.names hide t ∷ [])) Done) }
        ensures full { IfOk result (λ given. given ≡ false → (length self.old.tokens.items ≡ MOST_TOKENS) × (self.new ≡ self.old)) }
        ensures rest { OnOk result (self.new ≡ record self.old { tokens = self.new.tokens; trace = self.new.trace }) }
        ensures names { self.new.names ≡ self.old.names }
    {
        if self.tokens.len() >= MOST_TOKENS {
            return Ok(false);
        }
        self.note(Role::Final, t)?;
        self.tokens.push(t)?;
        Ok(true)
    }
}
