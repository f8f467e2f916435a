//! The operands and the target of a unit.
ghost use Rattle.std.specs.Prelude.{◌≡◌, ◌∷◌, [], ℕ, true, drop, IfOk, IfErr, OnOk, OnErr};
ghost use Rattle.cr_grammar.specs.declared.symbols.NonTerm.TheVariants as n;
ghost use Rattle.cr_ll.specs.Guards.{is_string};
ghost use Rattle.cr_types.specs.Types.{Table, Void, IsTypeNo, Keeps, type_at};
ghost use Rattle.cr_typing.specs.declared.expressions.Op.TheVariants as op;
ghost use Rattle.cr_typing.specs.ExpressionTypes.{is_binary, is_unary, binary_type, unary_type};
ghost use Rattle.cr_typing.specs.Initialisers.{IsKindOf};
ghost use Rattle.cr_binding.specs.Source.{Source, token_of};
ghost use Rattle.cr_binding.specs.State.{State, Whole};
ghost use Rattle.cr_binding.specs.Expressions.{push, value_type, operand, on_two, on_one, first_type, second_type, operated, postfix, selection};
ghost use Rattle.cr_binding.specs.Initialising.{InBraces, item_within, list_opened, index_designator};
ghost use Rattle.cr_records.specs.Kept.{IsOf};
ghost use Rattle.cr_operands.specs.Kept.{IsLast, AreLast, is_postfix};
ghost use Rattle.cr_operands.specs.Operands.{IsMark, values_at, values_of, target_of, IsTarget, with_operands, seen, Numbers, IsHeld, Grows, StaysOver, Does, Same, DoesOver, with_put, with_cut, with_values, changing, with_target, aimed_at, conditional_values, last_item, item_of, item_ended, operated_as, Finds, Refuses, selects, may_select, designates};

use crate::fault::OperandFault;
use crate::operators::{
    Form, binary_operator, form_of, is_index, is_offset, postfix_operator, unary_operator,
};
use crate::target::Target;
use crate::values::{Row, Values};
use cr_base::{Name, OutOfMemory, TokKind};
use cr_grammar::NonTerm;
use cr_records::{Records, records_stay};
use cr_types::{Ty, TypeNo, Types};
use cr_typing::{ItemKind, Op};
use std::alloc::Global;

/// The operands that wait for an operator, and what the initialiser that is read is for.
#[derive(Drop)]
pub struct Operands {
    values: Values,
    target: Target,
    arith: TypeNo,
    text: TypeNo,
    mixed: TypeNo,
}

fn is_string(kind: TokKind) -> bool
    ensures { result ≡ is_string kind }
{
    matches!(kind, TokKind::Str)
}

impl Operands {
    /// No operands, and no object: its type is void.
    pub fn new(alloc: Global, types: &mut Types) -> Result<Operands, OutOfMemory>
        ensures none { IfOk result (λ o. (s : State)
            → with_operands types.new o s ≡ aimed_at Void (with_values [] s)) }
        ensures held { IfOk result (IsHeld types.new) }
        ensures records { types.new.records ≡ types.old.records }
        ensures keeps { Keeps types.old types.new }
    {
        let void = types.make(Ty::Void)?;
        let arith = types.make(Ty::Arith)?;
        let text = types.make(Ty::Arr(arith))?;
        let mixed = types.make(Ty::Mixed)?;
        Ok(Operands {
            values: Values::new(alloc),
            target: Target::Whole(void),
            arith,
            text,
            mixed,
        })
    }

    // ---- marks

    /// The mark of all operands that there are, which `restore` takes.
    pub fn mark(&self) -> usize
        ensures mark { IsMark self.now result }
        ensures values { (t : Table) → values_at t self.now result ≡ values_of t self.now }
    {
        self.values.top()
    }

    /// The operands of a mark that was given: those of a node are gone behind it.
    pub fn restore(&mut self, mark: usize)
        requires { IsMark self.old mark }
        ensures ok { (t : Table) → let values = values_at t self.old mark in
            Does t self.old (with_values values) t self.new }
        ensures grows { (t : Table) → IsHeld t self.old → Grows t self.old t self.new }
    {
        self.cut(mark);
    }

    fn cut(&mut self, mark: usize)
        requires { IsMark self.old mark }
        ensures { self.new ≡ with_cut mark self.old }
    {
        self.values.cut(mark);
    }

    // An operand above those of a mark.
    fn put(&mut self, ty: TypeNo, rest: usize) -> Result<(), OutOfMemory>
        requires { IsMark self.old rest }
        ensures ok { OnOk result
            (self.new ≡ with_put (record { ty = ty; rest = rest }) self.old) }
        ensures err { OnErr result (self.new ≡ self.old) }
    {
        self.values.put(Row { ty, rest })?;
        Ok(())
    }

    fn last(&self) -> Option<Row>
        ensures { IsLast self.now.values result }
    {
        self.values.row(self.values.top())
    }

    fn last_two(&self) -> Option<(Row, Row)>
        ensures { AreLast self.now.values result }
    {
        let right = self.last()?;
        let left = self.values.row(right.rest)?;
        Some((left, right))
    }

    // The mark of the operands below the last one.
    fn below(&self) -> usize
        ensures mark { IsMark self.now result }
        ensures values { (t : Table)
            → values_at t self.now result ≡ drop 1 (values_of t self.now) }
    {
        match self.last() {
            Some(row) => row.rest,
            None => self.values.top(),
        }
    }

    // ---- operands

    /// The type of the last operand; where there is none it is that of a generic selection with different results.
    pub fn operand(&self) -> TypeNo
        ensures { (t : Table) (s : State) → IsHeld t self.now
            → Numbers t result (operand (with_operands t self.now s)) }
    {
        match self.last() {
            Some(row) => row.ty,
            None => self.mixed,
        }
    }

    /// An operand of a type.
    pub fn push(&mut self, ty: TypeNo) -> Result<(), OutOfMemory>
        ensures ok { OnOk result ((t : Table) → IsHeld t self.old → IsTypeNo t ty
            → Does t self.old (push (type_at t ty)) t self.new) }
        ensures grows { OnOk result ((t : Table) → IsHeld t self.old → IsTypeNo t ty
            → Grows t self.old t self.new) }
        ensures err { OnErr result (self.new ≡ self.old) }
    {
        let top = self.values.top();
        self.put(ty, top)
    }

    /// The last operand is gone, where there is one.
    pub fn drop_last(&mut self)
        ensures ok { (t : Table) → Does t self.old (changing (drop 1)) t self.new }
        ensures grows { (t : Table) → IsHeld t self.old → Grows t self.old t self.new }
    {
        let mark = self.below();
        self.restore(mark);
    }

    /// A constant or a string literal, by the kind of its token, is an operand (C11 6.4.4, 6.4.5).
    pub fn push_value(&mut self, kind: TokKind) -> Result<(), OutOfMemory>
        ensures ok { OnOk result ((t : Table) (source : Source) (i : ℕ)
            → IsHeld t self.old → (token_of source i).kind ≡ kind
            → Does t self.old (push (value_type source i)) t self.new) }
        ensures grows { OnOk result ((t : Table) → IsHeld t self.old
            → Grows t self.old t self.new) }
        ensures err { OnErr result (self.new ≡ self.old) }
    {
        if is_string(kind) {
            self.push(self.text)
        } else {
            self.push(self.arith)
        }
    }

    // ---- operators

    // An operator of two operands takes the last two.
    fn binary(&mut self, types: &mut Types, records: &Records, of: Op) -> Result<(), OutOfMemory>
        requires of { IsOf types.old records.now }
        requires held { IsHeld types.old self.old }
        requires op { is_binary of ≡ true }
        ensures ok { OnOk result
            (Does types.old self.old (changing (on_two (binary_type of))) types.new self.new) }
        ensures err { OnErr result (Same types.old self.old types.new self.new) }
        ensures grows { Grows types.old self.old types.new self.new }
        ensures over { StaysOver types.old records.now types.new }
    {
        match self.last_two() {
            Some((left, right)) => {
                records_stay();
                let ty = records.typing().binary(types, of, left.ty, right.ty)?;
                self.put(ty, left.rest)
            }
            None => Ok(()),
        }
    }

    // An operator of one operand takes the last one.
    fn unary(&mut self, types: &mut Types, records: &Records, of: Op) -> Result<(), OutOfMemory>
        requires of { IsOf types.old records.now }
        requires held { IsHeld types.old self.old }
        requires op { is_unary of ≡ true }
        ensures ok { OnOk result
            (Does types.old self.old (changing (on_one (unary_type of))) types.new self.new) }
        ensures err { OnErr result (Same types.old self.old types.new self.new) }
        ensures grows { Grows types.old self.old types.new self.new }
        ensures over { StaysOver types.old records.now types.new }
    {
        match self.last() {
            Some(row) => {
                records_stay();
                let ty = records.typing().unary(types, of, row.ty)?;
                self.put(ty, row.rest)
            }
            None => Ok(()),
        }
    }

    // Of the last two operands the first.
    fn keep_first(&mut self, types: &Types)
        requires { IsHeld types.now self.old }
        ensures ok { Does types.now self.old (changing (on_two first_type)) types.now self.new }
        ensures grows { Grows types.now self.old types.now self.new }
    {
        if let Some((_, right)) = self.last_two() {
            self.cut(right.rest);
        }
    }

    // Of the last two operands the second.
    fn keep_second(&mut self, types: &Types) -> Result<(), OutOfMemory>
        requires { IsHeld types.now self.old }
        ensures ok { OnOk result
            (Does types.now self.old (changing (on_two second_type)) types.now self.new) }
        ensures err { OnErr result (self.new ≡ self.old) }
        ensures grows { Grows types.now self.old types.now self.new }
    {
        match self.last_two() {
            Some((left, right)) => self.put(right.ty, left.rest),
            None => Ok(()),
        }
    }

    // `?:`, whose condition gives way to the results (C11 6.5.15p5).
    fn conditional(&mut self, types: &mut Types, records: &Records) -> Result<(), OutOfMemory>
        requires of { IsOf types.old records.now }
        requires held { IsHeld types.old self.old }
        ensures ok { OnOk result
            (Does types.old self.old (changing conditional_values) types.new self.new) }
        ensures err { OnErr result (Same types.old self.old types.new self.new) }
        ensures grows { Grows types.old self.old types.new self.new }
        ensures over { StaysOver types.old records.now types.new }
    {
        let mark = self.mark();
        self.binary(types, records, Op::Choice)?;
        match self.keep_second(types) {
            Ok(()) => Ok(()),
            Err(fault) => {
                self.restore(mark);
                Err(fault)
            }
        }
    }

    // An operator behind its operand (C11 6.5.2).
    fn postfix(&mut self, types: &mut Types, records: &Records, of: Op) -> Result<(), OutOfMemory>
        requires of { IsOf types.old records.now }
        requires held { IsHeld types.old self.old }
        requires op { is_postfix of ≡ true }
        ensures ok { OnOk result
            (Does types.old self.old (changing (postfix of)) types.new self.new) }
        ensures err { OnErr result (Same types.old self.old types.new self.new) }
        ensures grows { Grows types.old self.old types.new self.new }
        ensures over { StaysOver types.old records.now types.new }
    {
        if is_index(of) {
            self.binary(types, records, Op::Index)
        } else {
            self.unary(types, records, of)
        }
    }

    // A primary expression that ends with an action, of which this is the first token's text (C11 6.5.1.1).
    fn primary(
        &mut self,
        types: &mut Types,
        records: &Records,
        text: &[u8],
    ) -> Result<(), OutOfMemory>
        requires of { IsOf types.old records.now }
        requires held { IsHeld types.old self.old }
        ensures ok { OnOk result
            (Does types.old self.old (changing (operated n.Primary text.now)) types.new self.new) }
        ensures err { OnErr result (Same types.old self.old types.new self.new) }
        ensures grows { Grows types.old self.old types.new self.new }
        ensures over { StaysOver types.old records.now types.new }
    {
        if is_offset(text) {
            self.unary(types, records, Op::Other)
        } else {
            self.keep_second(types)
        }
    }

    // An operator of a form, of which this is the first token's text.
    fn operate_as(
        &mut self,
        types: &mut Types,
        records: &Records,
        form: Form,
        text: &[u8],
    ) -> Result<(), OutOfMemory>
        requires of { IsOf types.old records.now }
        requires held { IsHeld types.old self.old }
        ensures ok { OnOk result
            (Does types.old self.old (changing (operated_as form text.now)) types.new self.new) }
        ensures err { OnErr result (Same types.old self.old types.new self.new) }
        ensures grows { Grows types.old self.old types.new self.new }
        ensures over { StaysOver types.old records.now types.new }
    {
        match form {
            Form::Comma => self.binary(types, records, Op::Comma),
            Form::Assignment => self.binary(types, records, Op::Assign),
            Form::Conditional => self.conditional(types, records),
            Form::Cast => {
                self.keep_first(types);
                Ok(())
            }
            Form::Prefix => self.unary(types, records, unary_operator(text)),
            Form::Postfix => self.postfix(types, records, postfix_operator(text)),
            Form::Primary => self.primary(types, records, text),
            Form::Infix => self.binary(types, records, binary_operator(text)),
        }
    }

    /// The operator of a node, of whose first token this is the text, takes its operands (C11 6.5).
    pub fn operate(
        &mut self,
        types: &mut Types,
        records: &Records,
        node: NonTerm,
        text: &[u8],
    ) -> Result<(), OutOfMemory>
        requires of { IsOf types.old records.now }
        requires held { IsHeld types.old self.old }
        ensures ok { OnOk result
            (Does types.old self.old (changing (operated node text.now)) types.new self.new) }
        ensures err { OnErr result (Same types.old self.old types.new self.new) }
        ensures grows { Grows types.old self.old types.new self.new }
        ensures over { StaysOver types.old records.now types.new }
    {
        self.operate_as(types, records, form_of(node), text)
    }

    /// `[e]` in the designator of an offset (C11 7.19p3).
    pub fn index_offset(&mut self, types: &mut Types, records: &Records) -> Result<(), OutOfMemory>
        requires of { IsOf types.old records.now }
        requires held { IsHeld types.old self.old }
        ensures ok { OnOk result
            (Does types.old self.old (changing (postfix op.Index)) types.new self.new) }
        ensures err { OnErr result (Same types.old self.old types.new self.new) }
        ensures grows { Grows types.old self.old types.new self.new }
        ensures over { StaysOver types.old records.now types.new }
    {
        self.postfix(types, records, Op::Index)
    }

    /// Two results of a generic selection are put together (C11 6.5.1.1).
    pub fn join_results(&mut self, types: &mut Types, records: &Records) -> Result<(), OutOfMemory>
        requires of { IsOf types.old records.now }
        requires held { IsHeld types.old self.old }
        ensures ok { let f = on_two (binary_type op.Generic) in
            OnOk result (Does types.old self.old (changing f) types.new self.new) }
        ensures err { OnErr result (Same types.old self.old types.new self.new) }
        ensures grows { Grows types.old self.old types.new self.new }
        ensures over { StaysOver types.old records.now types.new }
    {
        self.binary(types, records, Op::Generic)
    }

    /// `.name`, or by an arrow `->name`: the member that is selected takes the place of the last operand (C11 6.5.2.3). The
    /// answer is the token that declares it.
    ///
    /// `Ill`: nothing is selected, for the cause that is given; then nothing changes.
    pub fn select(
        &mut self,
        types: &Types,
        records: &Records,
        arrow: bool,
        name: Name,
    ) -> Result<u32, OperandFault>
        requires of { IsOf types.now records.now }
        requires held { IsHeld types.now self.old }
        ensures ok { let before = seen types.now records.now self.old in
            let after = seen types.now records.now self.new in
            IfOk result (λ k. Finds records.now name (selection arrow) (selects k) before after) }
        ensures ill { let before = seen types.now records.now self.old in
            IfErr result (Refuses records.now name (selection arrow) before) }
        ensures err { OnErr result (self.new ≡ self.old) }
        ensures grows { Grows types.now self.old types.now self.new }
    {
        match records.select(types, self.operand(), arrow, name) {
            Ok(selected) => {
                let rest = self.below();
                self.put(selected.ty, rest)?;
                Ok(selected.token)
            }
            Err(cause) => Err(OperandFault::Ill(cause)),
        }
    }

    // ---- initialisers

    /// An initialiser is for an object of a type (C11 6.7.9).
    pub fn aim(&mut self, ty: TypeNo)
        ensures ok { (t : Table) → Does t self.old (aimed_at (type_at t ty)) t self.new }
        ensures grows { (t : Table) → IsHeld t self.old → IsTypeNo t ty
            → Grows t self.old t self.new }
    {
        self.target = Target::Whole(ty);
    }

    /// An initialiser is for a compound literal of the last operand's type (C11 6.5.2.5).
    pub fn aim_at_operand(&mut self)
        ensures ok { (t : Table) (s : State) → IsHeld t self.old
            → let before = with_operands t self.old s in
            with_operands t self.new s ≡ aimed_at (operand before) before }
        ensures grows { (t : Table) → IsHeld t self.old → Grows t self.old t self.new }
    {
        let ty = self.operand();
        self.aim(ty);
    }

    /// A list in braces begins (C11 6.7.9p17).
    pub fn open_list(&mut self, types: &Types, records: &Records)
        requires of { IsOf types.now records.now }
        requires held { IsHeld types.now self.old }
        ensures ok { DoesOver types.now records.now self.old list_opened self.new }
        ensures grows { Grows types.now self.old types.now self.new }
    {
        self.target = self.target.list(types, records);
    }

    // What an item is that is the last operand.
    fn item(&self, is_string: bool) -> ItemKind
        ensures kind { (t : Table) → IsHeld t self.now → IsKindOf t result }
        ensures meant { (t : Table) (s : State) → IsHeld t self.now
            → item_of t result ≡ last_item is_string (with_operands t self.now s) }
    {
        if is_string {
            ItemKind::StringValue
        } else {
            ItemKind::Value(self.operand())
        }
    }

    /// An item of a list ends that is an expression: the last operand, which may be one string literal (C11 6.7.9p13 to p20).
    pub fn end_item(&mut self, types: &Types, records: &Records, is_string: bool)
        requires of { IsOf types.now records.now }
        requires held { IsHeld types.now self.old }
        ensures ok { DoesOver types.now records.now self.old (item_ended is_string) self.new }
        ensures grows { Grows types.now self.old types.now self.new }
    {
        let item = self.item(is_string);
        self.target.item(types, records, item);
        let rest = self.below();
        self.cut(rest);
    }

    /// `[e]` designates an element by the last operand (C11 6.7.9p6).
    pub fn designate_element(&mut self, types: &Types, records: &Records)
        requires of { IsOf types.now records.now }
        requires held { IsHeld types.now self.old }
        ensures ok { Does types.now self.old index_designator types.now self.new }
        ensures grows { Grows types.now self.old types.now self.new }
    {
        self.target.index(types, records);
        let rest = self.below();
        self.cut(rest);
    }

    /// `.name` designates a member (C11 6.7.9p7). The answer is the token that declares it, if an item of a list is designated.
    ///
    /// `Ill`: nothing is designated, for the cause that is given; then nothing changes.
    pub fn designate(
        &mut self,
        types: &Types,
        records: &Records,
        name: Name,
    ) -> Result<Option<u32>, OperandFault>
        requires of { IsOf types.now records.now }
        requires held { IsHeld types.now self.old }
        ensures ok { let before = seen types.now records.now self.old in
            let after = seen types.now records.now self.new in
            IfOk result (λ k. Finds records.now name designates (may_select k) before after) }
        ensures ill { let before = seen types.now records.now self.old in
            IfErr result (Refuses records.now name designates before) }
        ensures err { OnErr result (self.new ≡ self.old) }
        ensures grows { Grows types.now self.old types.now self.new }
    {
        self.target.designate(types, records, name)
    }

    /// What the initialiser that is read is for, so that it can be put back after another one inside it.
    pub fn target(&self) -> Target
        ensures target { result ≡ self.now.target }
        ensures held { (t : Table) → IsHeld t self.now → IsTarget t result }
    {
        self.target.copy()
    }

    /// The same after an item that is a list in braces.
    pub fn target_after_list(&self, types: &Types, records: &Records) -> Target
        requires of { IsOf types.now records.now }
        requires held { IsHeld types.now self.now }
        ensures target { (s : State) → let now = seen types.now records.now self.now s in
            target_of types.now result ≡ item_within now InBraces now.target }
        ensures held { IsTarget types.now result }
    {
        let mut target = self.target.copy();
        target.item(types, records, ItemKind::Braces);
        target
    }

    /// What was kept is put back.
    pub fn put_back(&mut self, target: Target)
        ensures ok { (t : Table) → Does t self.old (with_target (target_of t target)) t self.new }
        ensures grows { (t : Table) → IsHeld t self.old → IsTarget t target
            → Grows t self.old t self.new }
    {
        self.target = target;
    }
}
