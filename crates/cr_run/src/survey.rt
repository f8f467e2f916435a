//! The files of the translation units, read batch by batch.
ghost use Rattle.std.specs.Prelude.{◌≡◌, ◌≤◌, ◌<◌, ◌++◌, ◌∷◌, ◌*◌, ◌+◌, [], List, ℕ, Option, Some, None, map, take, length, slice_get, IfOk, OnOk, true, false, bytes_eq};
ghost use Rattle.std.specs.Option.{option_map};
ghost use Rattle.cr_base.specs.declared.unit.Unit.{Unit as UnitOf};
ghost use Rattle.cr_world.specs.Outside.{Files, Rose, OnlyRead};
ghost use Rattle.cr_small.specs.Seen.{tokens_of, key_of_code};
ghost use Rattle.cr_lex.specs.Lexing.{lexed};
ghost use Rattle.cr_small.specs.Keys.{Key};
ghost use Rattle.cr_small.specs.Laws.{IsNameOf};
ghost use Rattle.cr_small.specs.Texts.{IsTextOf};
ghost use Rattle.cr_small_facts.specs.TextFacts as fact_key;
ghost use Rattle.cr_small_facts.specs.Places.{ArePlaces};
ghost use Rattle.cr_run.specs.Table.{IsTable, IsFinding, RisesIn};
ghost use Rattle.cr_run.specs.Survey as spec;
ghost use Rattle.cr_run.specs.Survey.{Meaning, IsMeaning};
ghost use Rattle.cr_run.specs.Reading.{ReadsOnly, HasReadCause};
ghost use Rattle.cr_run.specs.Units.{mains, IsMain};
ghost use Rattle.std.specs.List.{list_any};
ghost use Rattle.cr_run.specs.Held.{Wanted, wanted_of, key_at, key_in_file, IsNamed, IsPlaced, IsFound, Holds, Adds, Added, AllMet, Met, Settled, Surveys, refusal_of_entries};

use crate::number::push_number;
use crate::refusal::Refusal;
use cr_base::{List, OutOfMemory, PathNo, PathText, Text, Unit};
use cr_facts::{FactSet, facts_are_ordered};
use cr_small::{EntityKey, SmallText, denotations_are_one, entities_have_one_name, places_rise};
use cr_small_facts::{
    a_text_tells_its_own_places, a_text_tells_the_places, facts_of, key_over, places_by_file,
};
use cr_world::{ReadEnd, Tree};
use std::alloc::Global;
use std::collections::BTreeMap;

pub const MAX_FILE: usize = 16_777_216;

const MAX_TOTAL: usize = 536_870_912;

const BATCH: usize = 64;

/// What is sought in the files: the entity of the source with a name and a key, and that no token is
/// spelled as the new name.
#[derive(Clone, Copy)]
pub struct Sought<'a, 'b> {
    pub source: &'a PathText,
    pub old: &'b [u8],
    pub key: Option<EntityKey<'b>>,
    pub new: &'a [u8],
}

/// What a file is found to be: its number, whether it is of the small form without the new name, the first place of
/// the entity at which the new name can't be spelled, and its bytes where the old name stands in it.
#[derive(Drop)]
pub struct Surveyed {
    pub number: u32,
    pub clear: bool,
    pub unspellable: Option<usize>,
    pub bytes: List<u8>,
}

/// What a file is found to be, and the facts that it tells.
#[derive(Drop)]
pub struct Finding {
    pub file: Surveyed,
    pub facts: FactSet,
}

impl<'a, 'b> Sought<'a, 'b> {
    // The key in the file of a number: an entity without external linkage stands in the source alone, which has
    // number 0.
    fn key_in_file(&self, number: u32) -> Option<EntityKey<'b>>
        ensures { option_map key_of_code result ≡ key_in_file number (option_map key_of_code self.now.key) }
    {
        match self.key? {
            EntityKey::External(name) => Some(EntityKey::External(name)),
            EntityKey::At(offset) => {
                if number == 0 {
                    Some(EntityKey::At(offset))
                } else {
                    None
                }
            }
        }
    }
}

impl Finding {
    /// A file that is absent or not of the small form.
    pub fn unclear(alloc: Global, number: u32) -> Finding
        ensures found { (meaning : Meaning) (wanted : Wanted) (path : List ℕ) → IsFound meaning wanted path None number result }
        ensures placed { (old : List ℕ) (key : Option Key) (path : List ℕ) → IsFinding (RisesIn old) key number path result }
    {
        Finding {
            file: Surveyed {
                number,
                clear: false,
                unspellable: None,
                bytes: List::of(Vec::new(alloc)),
            },
            facts: FactSet::new(alloc),
        }
    }

    /// A text of the small form of these bytes, in the file of a number. The source has number 0.
    pub fn of(
        alloc: Global,
        sought: &Sought,
        number: u32,
        bytes: &[u8],
        text: &SmallText,
    ) -> Result<Finding, OutOfMemory>
        requires text { IsTextOf bytes.now text.now }
        requires named { (k : Key) → key_in_file number (option_map key_of_code sought.now.key) ≡ Some k → IsNameOf sought.now.old.now k (lexed bytes.now).tokens text.now.denotes }
        ensures found { IfOk result (λ made. (meaning : Meaning) (wanted : Wanted) (path : List ℕ) → meaning (lexed bytes.now) ≡ Some text.now.denotes
            → wanted.new ≡ sought.now.new.now → wanted.key ≡ option_map key_of_code sought.now.key → key_at wanted path wanted.key ≡ key_in_file number wanted.key
            → IsFound meaning wanted path (Some bytes.now) number made) }
        ensures placed { IfOk result (λ made. (path : List ℕ) → IsFinding (RisesIn sought.now.old.now) (option_map key_of_code sought.now.key) number path made) }
    {
        places_rise();
        entities_have_one_name();
        a_text_tells_the_places();
        a_text_tells_its_own_places();
        let key = sought.key_in_file(number);
        let kept = bytes_for(alloc, text.has_text(sought.old), bytes)?;
        Ok(Finding {
            file: Surveyed {
                number,
                clear: !text.has_text(sought.new),
                unspellable: unspellable_in(bytes, sought.new, key, text),
                bytes: List::of(kept),
            },
            facts: facts_of(alloc, text, PathNo(number), sought.old)?,
        })
    }

    // Any text but the source.
    fn of_bytes(
        alloc: Global,
        sought: &Sought,
        number: u32,
        bytes: &[u8],
    ) -> Result<Finding, OutOfMemory>
        requires size { length bytes.now ≤ 16777216 }
        requires later { 0 < number }
        requires named { IsNamed sought.now.old.now (option_map key_of_code sought.now.key) }
        ensures found { IfOk result (λ made. (meaning : Meaning) (path : List ℕ) → IsMeaning meaning → bytes_eq sought.now.source.now path ≡ false
            → IsFound meaning (wanted_of sought.now) path (Some bytes.now) number made) }
        ensures placed { IfOk result (λ made. (path : List ℕ) → IsFinding (RisesIn sought.now.old.now) (option_map key_of_code sought.now.key) number path made) }
    {
        denotations_are_one();
        match SmallText::read(alloc, bytes)? {
            Some(text) => Finding::of(alloc, sought, number, bytes, &text),
            None => Ok(Finding::unclear(alloc, number)),
        }
    }
}

// The first place of the entity at which the new name can't be spelled.
fn unspellable_in(
    bytes: &[u8],
    new: &[u8],
    key: Option<EntityKey>,
    text: &SmallText,
) -> Option<usize>
    requires { IsTextOf bytes.now text.now }
    ensures { result ≡ spec.unspellable_in_text bytes.now new.now (option_map key_of_code key.entry) (tokens_of text.now) (Some text.now.denotes) }
{
    text.first_unspellable(bytes, new, key?)
}

// A file in which nothing changes need not be kept.
fn bytes_for(alloc: Global, changes: bool, bytes: &[u8]) -> Result<Vec<u8>, OutOfMemory>
    ensures { IfOk result (λ kept. changes ≡ true → kept.items ≡ bytes.now) }
{
    if !changes {
        return Ok(Vec::new(alloc));
    }
    Ok(bytes.to_vec(alloc)?)
}

/// The files that a run has come to, by their paths, the last number that one of them was given, the facts that they
/// tell, and how many bytes they have together. The source has number 0.
#[derive(Drop)]
pub struct Survey {
    pub files: BTreeMap<PathText, Surveyed>,
    pub last: u32,
    pub facts: FactSet,
    pub total: usize,
}

impl Survey {
    /// The source alone, of so many bytes.
    pub fn start(
        alloc: Global,
        source: PathText,
        found: Finding,
        size: usize,
    ) -> Result<Survey, OutOfMemory>
        ensures placed { IfOk result (λ made. (old : List ℕ) (key : Option Key) → IsFinding (RisesIn old) key 0 source found → IsTable (RisesIn old) key made) }
        ensures holds { IfOk result (λ made. (meaning : Meaning) (files : Files) (s : Wanted) → source ≡ s.source → size ≤ 16777216
            → size ≡ spec.size_of (files source) → IsFound meaning s source (files source) 0 found → Holds meaning files s [] made) }
    {
        let mut files = BTreeMap::new(alloc);
        files.insert(source, found.file)?;
        Ok(Survey {
            files,
            last: 0,
            facts: found.facts,
            total: size,
        })
    }

    /// Reads the main files of the units, and answers the first refusal among the batches.
    pub fn read_units<'a, T: Tree>(
        &mut self,
        alloc: Global,
        tree: &mut T,
        sought: &Sought,
        units: &[Unit],
    ) -> Result<(), Refusal<'a>>
        requires named { IsNamed sought.now.old.now (option_map key_of_code sought.now.key) }
        ensures placed { OnOk result (IsPlaced sought.now self.old → IsPlaced sought.now self.new) }
        ensures reads { ReadsOnly (T.files tree.old) (T.files tree.new) (T.reads tree.old) (T.reads tree.new) (T.replaces tree.old) (T.replaces tree.new) (T.replacings tree.old) (T.replacings tree.new) }
        ensures asked { OnlyRead (λ path. IsMain units.now path) (T.readings tree.old) (T.readings tree.new) }
        ensures surveyed { (meaning : Meaning) (files : Files) → IsMeaning meaning → T.files tree.old ≡ Some files
            → Holds meaning files (wanted_of sought.now) [] self.old → Surveys meaning files (wanted_of sought.now) units.now self.new result }
        ensures cause { HasReadCause (λ path. IsMain units.now path × Rose (T.reads tree.old path) (T.reads tree.new path)) result }
    {
        for n in 0..units.len().div_ceil(BATCH) {
            let end = units.len().min(BATCH * n + BATCH);
            let batch = &units[BATCH * n..end];
            self.read_batch(alloc, tree, sought, batch)?;
            self.settle(alloc, batch)?;
        }
        Ok(())
    }

    fn read_batch<'a, T: Tree>(
        &mut self,
        alloc: Global,
        tree: &mut T,
        sought: &Sought,
        batch: &[Unit],
    ) -> Result<(), Refusal<'a>>
        requires named { IsNamed sought.now.old.now (option_map key_of_code sought.now.key) }
        ensures placed { OnOk result (IsPlaced sought.now self.old → IsPlaced sought.now self.new) }
        ensures reads { ReadsOnly (T.files tree.old) (T.files tree.new) (T.reads tree.old) (T.reads tree.new) (T.replaces tree.old) (T.replaces tree.new) (T.replacings tree.old) (T.replacings tree.new) }
        ensures asked { OnlyRead (λ path. IsMain batch.now path) (T.readings tree.old) (T.readings tree.new) }
        ensures met { (meaning : Meaning) (files : Files) (done : List UnitOf) → IsMeaning meaning → T.files tree.old ≡ Some files
            → Holds meaning files (wanted_of sought.now) done self.old → Met meaning files (wanted_of sought.now) (done ++ batch.now) self.new result }
        ensures cause { HasReadCause (λ path. IsMain batch.now path × Rose (T.reads tree.old path) (T.reads tree.new path)) result }
    {
        for unit in batch {
            self.meet(alloc, tree, sought, unit)?;
        }
        Ok(())
    }

    // One more unit, whose main file is read where it isn't known.
    fn meet<'a, T: Tree>(
        &mut self,
        alloc: Global,
        tree: &mut T,
        sought: &Sought,
        unit: &Unit,
    ) -> Result<(), Refusal<'a>>
        requires named { IsNamed sought.now.old.now (option_map key_of_code sought.now.key) }
        ensures placed { OnOk result (IsPlaced sought.now self.old → IsPlaced sought.now self.new) }
        ensures reads { ReadsOnly (T.files tree.old) (T.files tree.new) (T.reads tree.old) (T.reads tree.new) (T.replaces tree.old) (T.replaces tree.new) (T.replacings tree.old) (T.replacings tree.new) }
        ensures asked { OnlyRead (λ path. path ≡ unit.now.main) (T.readings tree.old) (T.readings tree.new) }
        ensures met { (meaning : Meaning) (files : Files) (done : List UnitOf) → IsMeaning meaning → T.files tree.old ≡ Some files
            → Holds meaning files (wanted_of sought.now) done self.old → Met meaning files (wanted_of sought.now) (done ++ unit.now ∷ []) self.new result }
        ensures cause { HasReadCause (λ path. (path ≡ unit.now.main) × Rose (T.reads tree.old path) (T.reads tree.new path)) result }
    {
        facts_are_ordered();
        if unit.words.bytes().len() > MAX_FILE {
            return Err(Refusal::LimitFiles);
        }
        if self.files.contains_key(&unit.main) {
            return Ok(());
        }
        self.read_file(alloc, tree, sought, &unit.main)
    }

    fn read_file<'a, T: Tree>(
        &mut self,
        alloc: Global,
        tree: &mut T,
        sought: &Sought,
        path: &PathText,
    ) -> Result<(), Refusal<'a>>
        requires named { IsNamed sought.now.old.now (option_map key_of_code sought.now.key) }
        ensures placed { OnOk result (IsPlaced sought.now self.old → IsPlaced sought.now self.new) }
        ensures reads { ReadsOnly (T.files tree.old) (T.files tree.new) (T.reads tree.old) (T.reads tree.new) (T.replaces tree.old) (T.replaces tree.new) (T.replacings tree.old) (T.replacings tree.new) }
        ensures asked { OnlyRead (λ p. p ≡ path.now) (T.readings tree.old) (T.readings tree.new) }
        ensures added { (meaning : Meaning) (files : Files) → IsMeaning meaning → T.files tree.old ≡ Some files → bytes_eq sought.now.source.now path.now ≡ false
            → Added meaning (wanted_of sought.now) path.now (files path.now) self.old self.new result }
        ensures cause { HasReadCause (λ p. (p ≡ path.now) × Rose (T.reads tree.old p) (T.reads tree.new p)) result }
    {
        let Some(number) = self.last.checked_add(1) else {
            return Err(Refusal::OutOfMemory);
        };
        let mut bytes = Vec::new(alloc);
        match tree.read(alloc, path, MAX_FILE, &mut bytes) {
            ReadEnd::Bytes => {
                let found = Finding::of_bytes(alloc, sought, number, &bytes)?;
                self.add(path.copy(alloc)?, found, number, bytes.len())
            }
            ReadEnd::Absent => {
                let found = Finding::unclear(alloc, number);
                self.add(path.copy(alloc)?, found, number, 0)
            }
            ReadEnd::Long => Err(Refusal::LimitFiles),
            ReadEnd::Failed => Err(Refusal::ReadFault(path.copy(alloc)?)),
            ReadEnd::OutOfMemory => Err(Refusal::OutOfMemory),
        }
    }

    // Puts a file to the others, and its facts to theirs.
    fn add<'a>(
        &mut self,
        path: PathText,
        found: Finding,
        number: u32,
        size: usize,
    ) -> Result<(), Refusal<'a>>
        ensures adds { Adds path found number size self.old self.new result }
        ensures cause { HasReadCause (λ p. ⊥) result }
        ensures placed { OnOk result ((old : List ℕ) (key : Option Key) → number ≡ self.old.last + 1 → IsFinding (RisesIn old) key (self.old.last + 1) path found → IsTable (RisesIn old) key self.old → IsTable (RisesIn old) key self.new) }
    {
        facts_are_ordered();
        let total = self.total.saturating_add(size);
        if total > MAX_TOTAL {
            return Err(Refusal::LimitFiles);
        }
        self.facts.union(&found.facts)?;
        self.files.insert(path, found.file)?;
        self.last = number;
        self.total = total;
        Ok(())
    }

    /// The places that the facts tell of an entity of the source with this key, for each file by its number.
    pub fn places(&self, alloc: Global, key: EntityKey) -> Result<Vec<Vec<usize>>, OutOfMemory>
        ensures length { IfOk result (λ places. length places.items ≡ self.now.last + 1) }
        ensures places { IfOk result (λ places. (n : ℕ) (offsets : List ℕ) → slice_get (map (λ v. v.items) places.items) n ≡ Some offsets
            → ArePlaces self.now.facts n (fact_key.key_over 0 (key_of_code key.entry)) offsets) }
    {
        let key = key_over(alloc, PathNo(0), key)?;
        let places = places_by_file(alloc, &self.facts, &key, self.last as usize + 1)?;
        Ok(places)
    }

    /// The first place at which the new name can't be spelled refuses.
    pub fn spell<'a>(&self, alloc: Global) -> Result<(), Refusal<'a>>
        ensures settled { Settled (refusal_of_entries self.now.files.entries) result }
        ensures cause { HasReadCause (λ path. ⊥) result }
    {
        for (path, found) in self.files.iter() {
            if let Some(offset) = found.unspellable {
                return Err(Refusal::Spelling(place_text(alloc, path, offset)?));
            }
        }
        Ok(())
    }

    // The first unit of a batch that isn't clear refuses.
    fn settle<'a>(&self, alloc: Global, batch: &[Unit]) -> Result<(), Refusal<'a>>
        ensures settled { (meaning : Meaning) (files : Files) (s : Wanted) (units : List UnitOf) → Holds meaning files s units self.now
            → AllMet s.source units (mains batch.now) → Settled (spec.first_unbuilt meaning files s.new batch.now) result }
        ensures cause { HasReadCause (λ path. ⊥) result }
    {
        for unit in batch {
            if !self.is_clear(unit) {
                return Err(Refusal::Unbuilt(unit.main.copy(alloc)?));
            }
        }
        Ok(())
    }

    fn is_clear(&self, unit: &Unit) -> bool
        ensures { (meaning : Meaning) (files : Files) (s : Wanted) (units : List UnitOf) → Holds meaning files s units self.now
            → list_any (bytes_eq unit.now.main) (spec.files_so_far s.source units) ≡ true → result ≡ spec.is_clear meaning files s.new unit.now }
    {
        has_no_words(unit) && self.is_clear_file(&unit.main)
    }

    fn is_clear_file(&self, path: &PathText) -> bool
        ensures { (meaning : Meaning) (files : Files) (s : Wanted) (units : List UnitOf) → Holds meaning files s units self.now
            → list_any (bytes_eq path.now) (spec.files_so_far s.source units) ≡ true → result ≡ spec.is_clear_file meaning s.new (files path.now) }
    {
        match self.files.get(path) {
            Some(found) => found.clear,
            None => false,
        }
    }
}

fn has_no_words(unit: &Unit) -> bool
    ensures { result ≡ spec.is_empty unit.now.words }
{
    match unit.words.bytes() {
        [] => true,
        _ => false,
    }
}

// A place of a file, with a colon before the offset.
fn place_text(alloc: Global, path: &PathText, offset: usize) -> Result<Text, OutOfMemory>
    ensures { IfOk result (λ text. text ≡ spec.place_text path.now offset) }
{
    let mut text = path.bytes().to_vec(alloc)?;
    text.extend_from_slice(b":")?;
    push_number(alloc, &mut text, offset)?;
    Text::new(alloc, &text)
}
