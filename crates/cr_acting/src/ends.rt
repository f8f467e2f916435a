//! What the end of a node puts back.
ghost use Rattle.std.specs.Prelude.{◌≡◌, false, OnOk};
ghost use Rattle.cr_grammar.specs.declared.symbols.NonTerm.TheVariants as n;
ghost use Rattle.cr_binding.specs.State.{State};
ghost use Rattle.cr_binding.specs.Binding.{leaves_values};
ghost use Rattle.cr_known.specs.Known.{saved_for, ended_alone};
ghost use Rattle.cr_acting.specs.Binding.{state_of, IsWhole, Leads};
ghost use Rattle.cr_acting.specs.Ends.{kept_by, values_by, IsKept, IsTypedSaving, AllKeptStays, saved_as, ended_as, IsKeptFor, ending_alone, putting_back, leaving, ending};
ghost use Rattle.cr_operands.specs.Operands.{IsMark, values_at};

use crate::binding::Binding;
use cr_base::OutOfMemory;
use cr_bound::{Saved, saved_stay};
use cr_grammar::NonTerm;
use cr_operands::{Target, growths_follow, operands_stay, targets_stay};

/// What the end of a node puts back: what was gathered of a declaration, or what an initialiser is for.
#[derive(Drop)]
pub enum Saving {
    Declaring(Saved),
    Aiming(Target),
}

/// What is kept of a node that begins, for its end: what that puts back, and the mark of the operands that there are.
#[derive(Drop)]
pub struct Kept {
    pub(crate) saving: Saving,
    pub(crate) mark: usize,
}

/// As types and operands are added, what is kept is the same. It does nothing: its contract is the law.
pub fn kept_stays()
    ensures { AllKeptStays }
{
    saved_stay();
    targets_stay();
}

// What initialiser goes on behind a node.
#[derive(Clone, Copy)]
enum Aims {
    AfterList,
    Same,
    Nothing,
}

fn aims_of(node: NonTerm) -> Aims
    ensures { (s : State) → saved_for node s ≡ saved_as result node s }
{
    match node {
        NonTerm::Braces => Aims::AfterList,
        NonTerm::InitOpt | NonTerm::CastTail | NonTerm::SizeLit => Aims::Same,
        _ => Aims::Nothing,
    }
}

// What ends with a node.
#[derive(Clone, Copy)]
enum Ending {
    Results,
    Words,
    Nothing,
}

fn ending_of(node: NonTerm, childless: bool) -> Ending
    ensures { (s : State) → ended_alone node childless s ≡ ended_as result s }
{
    match (node, childless) {
        (NonTerm::AssMore, false) => Ending::Results,
        (NonTerm::SpecsB, true) => Ending::Words,
        _ => Ending::Nothing,
    }
}

// Whether a node below any other leaves its operands to the one above.
fn is_expression(node: NonTerm) -> bool
    ensures { result ≡ leaves_values n.Unit node }
{
    match node {
        NonTerm::TypeName | NonTerm::Expr | NonTerm::ExprMore | NonTerm::Assign => true,
        NonTerm::AssTail | NonTerm::Cond | NonTerm::CondTail | NonTerm::AssMore => true,
        NonTerm::Bin1 | NonTerm::Bin2 | NonTerm::Bin3 | NonTerm::Bin4 | NonTerm::Bin5 => true,
        NonTerm::Bin6 | NonTerm::Bin7 | NonTerm::Bin8 | NonTerm::Bin9 | NonTerm::Bin10 => true,
        NonTerm::Tail1 | NonTerm::Tail2 | NonTerm::Tail3 | NonTerm::Tail4 => true,
        NonTerm::Tail5 | NonTerm::Tail6 | NonTerm::Tail7 => true,
        NonTerm::Tail8 | NonTerm::Tail9 | NonTerm::Tail10 => true,
        NonTerm::Cast | NonTerm::CastTail | NonTerm::Unary | NonTerm::SizeTail => true,
        NonTerm::SizeLit | NonTerm::PostTail | NonTerm::Primary => true,
        NonTerm::Assoc | NonTerm::OffTail => true,
        _ => false,
    }
}

// Nodes of expressions leave their operands, but for the type names of associations (C11 6.5.1.1).
fn leaves_values(above: NonTerm, node: NonTerm) -> bool
    ensures { result ≡ leaves_values above node }
{
    match (above, node) {
        (NonTerm::Assoc, NonTerm::TypeName) => false,
        _ => is_expression(node),
    }
}

impl Binding {
    /// What the end of a node that begins here wants.
    pub fn keep(&self, node: NonTerm) -> Kept
        requires { IsWhole self.now }
        ensures { IsKeptFor node self.now result }
    {
        Kept {
            saving: self.save(node),
            mark: self.operands.mark(),
        }
    }

    fn save(&self, node: NonTerm) -> Saving
        requires { IsWhole self.now }
        ensures saved { kept_by self.now.types result ≡ saved_for node (state_of self.now) }
        ensures typed { IsTypedSaving self.now.types result }
    {
        match aims_of(node) {
            Aims::AfterList => Saving::Aiming(
                self.operands
                    .target_after_list(&self.types, self.bound.records()),
            ),
            Aims::Same => Saving::Aiming(self.operands.target()),
            Aims::Nothing => Saving::Declaring(self.bound.save(node)),
        }
    }

    // Behind a further result two of a generic selection are put together; where no further word is, a list of them ends.
    fn end_alone(&mut self, node: NonTerm, childless: bool) -> Result<(), OutOfMemory>
        requires { IsWhole self.old }
        ensures { OnOk result (Leads self.old (ending_alone node childless) self.new) }
    {
        operands_stay();
        match ending_of(node, childless) {
            Ending::Results => {
                self.bound.stay();
                self.operands
                    .join_results(&mut self.types, self.bound.records())?;
                Ok(())
            }
            Ending::Words => {
                self.bound.end_words();
                Ok(())
            }
            Ending::Nothing => Ok(()),
        }
    }

    fn put_back(&mut self, saving: Saving)
        requires whole { IsWhole self.old }
        requires typed { IsTypedSaving self.old.types saving }
        ensures { Leads self.old (putting_back (kept_by self.old.types saving)) self.new }
    {
        operands_stay();
        match saving {
            Saving::Declaring(saved) => self.bound.restore(saved),
            Saving::Aiming(target) => self.operands.put_back(target),
        }
    }

    fn leave_operands(&mut self, leaves: bool, mark: usize)
        requires whole { IsWhole self.old }
        requires mark { IsMark self.old.operands mark }
        ensures { let values = values_at self.old.types self.old.operands mark in
            Leads self.old (leaving leaves values) self.new }
    {
        operands_stay();
        if !leaves {
            self.operands.restore(mark);
        }
    }

    /// A node below another ends, of which this was kept.
    pub fn end(
        &mut self,
        above: NonTerm,
        node: NonTerm,
        childless: bool,
        kept: Kept,
    ) -> Result<(), OutOfMemory>
        requires whole { IsWhole self.old }
        requires kept { IsKept self.old.types self.old.operands kept }
        ensures { let saved = kept_by self.old.types kept.saving in
            let values = values_by self.old.types self.old.operands kept in
            OnOk result (Leads self.old (ending above node childless saved values) self.new) }
    {
        kept_stays();
        growths_follow();
        self.end_alone(node, childless)?;
        self.put_back(kept.saving);
        self.leave_operands(leaves_values(above, node), kept.mark);
        Ok(())
    }
}
