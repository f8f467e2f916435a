//! What is bound of a unit.
ghost use Rattle.std.specs.Prelude.{◌≡◌, [], ℕ, IfOk, IfErr, OnOk};
ghost use Rattle.cr_types.specs.Types.{Table, Void, Arith, Mixed, Fun, Keeps};
ghost use Rattle.cr_records.specs.Kept.{IsKept as AreKept};
ghost use Rattle.cr_binding.specs.Source.{Source};
ghost use Rattle.cr_binding.specs.State.{State};
ghost use Rattle.cr_binding.specs.Specifying.{based, words_ended};
ghost use Rattle.cr_binding.specs.Actions.{passed};
ghost use Rattle.cr_bound.specs.Kept.{with_bound, IsTyped, AreSpelled, AreBasics};
ghost use Rattle.cr_bound.specs.Bound.{DoesAny, Does, Moves, StaysTyped, FailsAny, Stays, IsText, at_start, beginning, naming};
ghost use Rattle.cr_names.specs.Names.{Refuses};
ghost use Rattle.cr_bound.specs.Words.{read_by};

use crate::pending::Pending;
use crate::place::Place;
use crate::words::{Reading, reads, specifier};
use cr_base::{IllCause, OutOfMemory, TagKind};
use cr_grammar::NonTerm;
use cr_names::{BindFault, Names, names_stay};
use cr_records::{Records, records_stay};
use cr_types::{Ty, TypeNo, Types};
use std::alloc::Global;

// Types that need no specifiers: void, an arithmetic type, what a generic selection is whose results differ, and what the
// compiler supplies, a function of arithmetic type (our own rule).
#[derive(Clone, Copy)]
pub(crate) struct Basics {
    pub(crate) void: TypeNo,
    pub(crate) arith: TypeNo,
    pub(crate) mixed: TypeNo,
    pub(crate) supplied: TypeNo,
}

/// What is bound of a unit so far, but for its operands and initialisers.
#[derive(Drop)]
pub struct Bound {
    pub(crate) names: Names,
    pub(crate) records: Records,
    pub(crate) pending: Pending,
    pub(crate) place: Place,
    pub(crate) basics: Basics,
}

fn basic_types(types: &mut Types) -> Result<Basics, OutOfMemory>
    ensures basics { IfOk result (AreBasics types.new) }
    ensures records { types.new.records ≡ types.old.records }
    ensures keeps { Keeps types.old types.new }
{
    let void = types.make(Ty::Void)?;
    let arith = types.make(Ty::Arith)?;
    let mixed = types.make(Ty::Mixed)?;
    let supplied = types.make(Ty::Fun(arith))?;
    Ok(Basics {
        void,
        arith,
        mixed,
        supplied,
    })
}

impl Bound {
    /// A unit of which nothing is bound yet, over types that have no records.
    pub fn new(alloc: Global, types: &mut Types) -> Result<Bound, OutOfMemory>
        requires { types.old.records ≡ [] }
        ensures none { IfOk result (λ b. (s : State) → with_bound types.new b s ≡ at_start s) }
        ensures typed { IfOk result (IsTyped types.new) }
        ensures spelled { IfOk result (λ b. (t : Source) → AreSpelled t b) }
        ensures records { types.new.records ≡ types.old.records }
        ensures keeps { Keeps types.old types.new }
    {
        let basics = basic_types(types)?;
        Ok(Bound {
            names: Names::new(alloc),
            records: Records::new(alloc),
            pending: Pending::new(),
            place: Place {
                last: 0,
                in_body: false,
                jumps: Vec::new(alloc),
                refused: None,
                keyword: TagKind::Struct,
                filled: None,
            },
            basics,
        })
    }

    /// The declarations, scopes and uses.
    pub fn names(&self) -> &Names
        ensures { result.now ≡ self.now.names }
    {
        &self.names
    }

    /// The structures and unions.
    pub fn records(&self) -> &Records
        ensures { result.now ≡ self.now.records }
    {
        &self.records
    }

    /// The number of the last token.
    pub fn last(&self) -> u32
        ensures { (t : Table) (s : State) → (with_bound t self.now s).last ≡ result }
    {
        self.place.last
    }

    /// The token of the last word of a list of specifiers that isn't permitted, which is a fault when the next token or
    /// action comes (C11 6.7.2p2).
    pub fn refused(&self) -> Option<u32>
        ensures { (t : Table) (s : State) → (with_bound t self.now s).refused ≡ result }
    {
        self.place.refused
    }

    /// As types are added, but no records, the same is bound. It does nothing: its contract is the law.
    pub fn stay(&self)
        ensures { Stays self.now }
    {
        let _ = self.records.typing();
        names_stay();
        records_stay();
    }

    /// A token of a node, with its text.
    ///
    /// `BadSpecifiers`: among specifiers no permitted list goes on with it.
    pub fn pass(&mut self, node: NonTerm, i: u32, text: &[u8]) -> Result<(), BindFault>
        ensures ok { OnOk result (DoesAny (IsText i text.now) self.old (λ t. passed t node i) self.new) }
        ensures ill { IfErr result (λ f. Refuses f (FailsAny (IsText i text.now) self.old (λ t. passed t node i))) }
        ensures typed { StaysTyped self.old self.new }
    {
        self.read(reads(node), i, text)?;
        self.place.last = i;
        Ok(())
    }

    // What a token says.
    fn read(&mut self, reading: Reading, i: u32, text: &[u8]) -> Result<(), BindFault>
        ensures ok { OnOk result (DoesAny (IsText i text.now) self.old (λ t. read_by reading t i) self.new) }
        ensures ill { IfErr result (λ f. Refuses f (FailsAny (IsText i text.now) self.old (λ t. read_by reading t i))) }
        ensures typed { StaysTyped self.old self.new }
    {
        match reading {
            Reading::Specifier => {
                self.pending.read(specifier(text), i)?;
                Ok(())
            }
            Reading::Keyword => {
                self.place.announce(specifier(text));
                Ok(())
            }
            Reading::Nothing => Ok(()),
        }
    }

    /// A declaration begins (action `Decl`).
    pub fn begin(&mut self)
        ensures ok { Moves self.old beginning self.new }
        ensures typed { StaysTyped self.old self.new }
    {
        self.pending = Pending::new();
    }

    /// Its declarator is named by the last token (action `Name`).
    pub fn name(&mut self)
        ensures ok { Moves self.old naming self.new }
        ensures typed { StaysTyped self.old self.new }
    {
        self.pending.name = Some(self.place.last);
        self.pending.parameters = None;
    }

    /// A list of words ends (the end of a node of specifiers that isn't empty). A list that isn't permitted is `refused`
    /// when the next token or action comes (C11 6.7.2p2).
    pub fn end_words(&mut self)
        ensures ok { Moves self.old words_ended self.new }
        ensures typed { StaysTyped self.old self.new }
    {
        if !self.pending.specifiers.permitted() {
            self.place.refused = Some(self.pending.last_basic);
        }
    }
}
