//! The files that a run knows, and what each path holds.
ghost use Rattle.std.specs.Prelude.{◌≡◌, ◌≤◌, ◌++◌, ◌∷◌, ◌<◌, ℕ, List as ListOf, [], length, slice_get, position, bytes_eq, Err, true, IsTrue, IfOk, OnOk, OnErr, Some};
ghost use Rattle.std.specs.Option.{option_map};
ghost use Rattle.indexmap.specs.IndexMap.{values};
ghost use Rattle.cr_snapshot.specs.Files as spec;
ghost use Rattle.cr_snapshot.specs.Seen.{finding_of, file_of};
ghost use Rattle.cr_snapshot.specs.IncludeSearch as search;
ghost use Rattle.cr_snapshot.specs.declared.snapshot.KnowFault.TheVariants as fault;

use crate::known::{KnownFile, built_ins, put};
use crate::search::candidates;
use crate::totals::{Totals, totals_with};
use cr_base::{List, OutOfMemory, PathNo, PathText, Unit};
use indexmap::IndexMap;
use std::alloc::Global;
use std::marker::Model;

/// What is known of a path: the file that is there, by its number and bytes; that none is there; or
/// nothing.
#[derive(Clone, Copy, Debug)]
pub enum Found<'a> {
    Known(PathNo, &'a [u8]),
    Absent,
    Unknown,
}

/// The files that are known, and the paths that are known to hold none. Contracts see it as their list
/// in the order of their numbers, which are 0, 1, 2 and so on. Paths that begin with `//` are the
/// built-in headers and the texts of units' command words.
#[derive(Drop)]
pub struct Snapshot {
    alloc: Global,
    files: IndexMap<Vec<u8>, KnownFile>,
    totals: Totals,
}

impl Model for Snapshot {
    ghost use Rattle.std.specs.Prelude.{List};
    ghost use Rattle.indexmap.specs.IndexMap.{values};
    ghost use Rattle.cr_snapshot.specs.declared.known.KnownFile.{KnownFile};
    ghost use Rattle.cr_snapshot.specs.Files.{IsWithin};
    ghost use Rattle.cr_snapshot.specs.Tables.{IsKeyed};
    ghost use Rattle.cr_snapshot.specs.Totals.{AreOf};

    ghost Value = { List KnownFile };

    ghost view = { λ s. values s.files };

    ghost invariant = { λ s. IsKeyed (λ v. v.items) s.files.entries × IsWithin (values s.files) × AreOf s.totals (values s.files) };
}

/// Why a path isn't made known.
#[derive(Clone, Copy, Debug, PartialEq, Eq)]
pub enum KnowFault {
    /// A limit on files would be passed.
    LimitFiles,
    OutOfMemory,
}

impl From<OutOfMemory> for KnowFault {
    ghost use Rattle.std.specs.Prelude.{◌≡◌};
    ghost use Rattle.cr_snapshot.specs.declared.snapshot.KnowFault.TheVariants as fault;

    ghost from_gives = { λ _ e. e ≡ fault.OutOfMemory };

    fn from(_: OutOfMemory) -> Self {
        KnowFault::OutOfMemory
    }
}

fn known_file(path: PathText, found: Option<Vec<u8>>) -> KnownFile
    ensures { result ≡ file_of path found }
{
    let found = match found {
        None => None,
        Some(bytes) => Some(List::of(bytes)),
    };
    KnownFile { path, found }
}

// What a known file tells.
fn told(n: PathNo, file: &KnownFile) -> Found<'_>
    ensures { finding_of result ≡ spec.told n.0 file.now.found }
{
    match &file.found {
        None => Found::Absent,
        Some(bytes) => Found::Known(n, bytes.items()),
    }
}

impl Snapshot {
    /// A snapshot that knows the built-in headers, each at `//` and its name.
    pub fn new(alloc: Global) -> Result<Snapshot, OutOfMemory>
        ensures { IfOk result (λ snapshot. snapshot ≡ spec.built_ins) }
    {
        let files = built_ins(alloc)?;
        Ok(Snapshot {
            alloc,
            files,
            totals: Totals {
                paths: 0,
                present: 0,
                bytes: 0,
            },
        })
    }

    /// Makes a path known, with the bytes of its file where one is there, and answers its number, the
    /// next one. The path isn't known yet.
    ///
    /// `LimitFiles` comes exactly where the file has more than 16,777,216 bytes, more than 65,536 files
    /// would be there, they would have more than 536,870,912 bytes together, or more than 4,194,304
    /// paths would be known; in the last three, paths that begin with `//` don't count. A refusal and
    /// want of memory leave the snapshot as it was.
    pub fn know(&mut self, path: PathText, found: Option<Vec<u8>>) -> Result<PathNo, KnowFault>
        requires unknown { spec.finding path self.old ≡ spec.Unknown }
        requires room { IsTrue (search.is_apart path) → spec.apart_paths self.old < 65536 }
        ensures number { IfOk result (λ n. n.0 ≡ length self.old) }
        ensures known { OnOk result (self.new ≡ self.old ++ file_of path found ∷ []) }
        ensures limit { result ≡ Err fault.LimitFiles → spec.is_over self.old (file_of path found) ≡ true }
        ensures over { spec.is_over self.old (file_of path found) ≡ true → result ≡ Err fault.LimitFiles }
        ensures kept { OnErr result (self.new ≡ self.old) }
    {
        let file = known_file(path, found);
        let Some(totals) = totals_with(self.totals, &file) else {
            return Err(KnowFault::LimitFiles);
        };
        let n = self.files.len();
        put(self.alloc, &mut self.files, file)?;
        self.totals = totals;
        Ok(PathNo(n as u32))
    }

    /// What is known of a path. A file that is there has at most 16,777,216 bytes.
    pub fn get(&self, path: &PathText) -> Found<'_>
        ensures found { finding_of result ≡ spec.finding path.now self.now }
        ensures small { (n : ℕ) (bytes : ListOf ℕ) → spec.finding path.now self.now ≡ spec.Present n bytes → length bytes ≤ 16777216 }
    {
        match self.files.get_index_of(path.bytes()) {
            None => Found::Unknown,
            Some(n) => told(PathNo(n as u32), self.file_at(n)),
        }
    }

    /// The number of a path, where it is known.
    pub fn number(&self, path: &PathText) -> Option<PathNo>
        ensures { option_map (λ n. n.0) result ≡ position (λ file. bytes_eq path.now file.path) self.now }
    {
        match self.files.get_index_of(path.bytes()) {
            None => None,
            Some(n) => Some(PathNo(n as u32)),
        }
    }

    /// The path that has this number.
    pub fn path(&self, n: PathNo) -> &PathText
        requires { n.0 < length self.now }
        ensures { option_map (λ file. file.path) (slice_get self.now n.0) ≡ Some result.now }
    {
        &self.file_at(n.0 as usize).path
    }

    /// The path that has this number, if one has it.
    pub fn path_at(&self, n: PathNo) -> Option<&PathText>
        ensures { option_map (λ path. path.now) result ≡ option_map (λ file. file.path) (slice_get self.now n.0) }
    {
        match self.files.get_index(n.0 as usize) {
            Some((_, file)) => Some(&file.path),
            None => None,
        }
    }

    fn file_at(&self, n: usize) -> &KnownFile
        requires { n < length self.now }
        ensures { slice_get self.now n ≡ Some result.now }
    {
        match self.files.get_index(n) {
            Some((_, file)) => file,
            None => unreachable!(),
        }
    }

    /// The paths at which an include in the file `from` is looked for, in order. A quoted one: the
    /// directory of that file (of the unit for a text of command words, none for a built-in header),
    /// the unit's `-iquote`, `-I` and `-isystem` directories, then the built-in header of the name. An
    /// angled one: the `-I` and `-isystem` directories, then the built-in header. An absolute name has
    /// itself alone.
    pub fn candidates(
        &self,
        alloc: Global,
        unit: &Unit,
        from: PathNo,
        angled: bool,
        name: &[u8],
    ) -> Result<Vec<PathText>, OutOfMemory>
        requires { from.0 < length self.now }
        ensures { IfOk result (λ paths. option_map (λ file. search.candidates unit.now file.path angled name.now)
            (slice_get self.now from.0) ≡ Some paths.items) }
    {
        let paths = candidates(alloc, unit, self.path(from), angled, name)?;
        Ok(paths)
    }
}

/// A law over known files: what is known of a path stays known, with its number, and a file that is
/// made known is told by its path; and a number that is told is that of its path. It does no work.
pub fn known_files_stay_known()
    ensures stays { spec.StaysKnown }
    ensures tells { spec.TellsTheNewFile }
    ensures numbers { spec.NumbersItsPath }
{}
