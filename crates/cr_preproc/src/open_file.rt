//! A file that is read.
ghost use Rattle.std.specs.Prelude.{◌≡◌, ◌≤◌, ◌<◌, ◌^◌, ◌&&◌, [], List, length, IfOk, OnOk, OnErr};
ghost use Rattle.cr_base.specs.NameTable.{IsDistinct};
ghost use Rattle.cr_lex.specs.Lexing.{lexed};
ghost use Rattle.cr_macros.specs.Tokens.{Text, tokens_of};
ghost use Rattle.cr_macros.specs.Substitution.{in_quotes, escaped};
ghost use Rattle.cr_snapshot.specs.declared.known.KnownFile.{KnownFile};
ghost use Rattle.cr_snapshot.specs.Files.{Present, finding};
ghost use Rattle.cr_expand.specs.HideSets.{Grows};
ghost use Rattle.cr_phase4.specs.Conditionals.{is_live};
ghost use Rattle.cr_phase4.specs.Lines as spec;
ghost use Rattle.cr_phase4.specs.Preprocessing.{is_plain, run_with};
ghost use Rattle.cr_preproc.specs.Readers.{IsReading};
ghost use Rattle.cr_preproc.specs.OpenFiles.{bytes_at, IsOpen, reading_of};
ghost use Rattle.cr_preproc.specs.OpenFileSteps.{begins, has_line, TellsLine, TellsNext, Takes};

use crate::line::{Line, line_of};
use crate::open_ifs::OpenIfs;
use crate::reader::{Coming, Reader};
use cr_base::{Name, NameTable, OutOfMemory, PathNo, PathText, PpTok};
use cr_expand::put_escaped;
use cr_snapshot::known_files_stay_known;
use std::alloc::Global;

// A file that is read: how many levels of includes may still be open in it, its path with its number, what
// `__FILE__` gives there, the place that was come to, the open conditionals, the tokens of the run so far,
// and those of the present line.
#[derive(Drop)]
pub struct OpenFile {
    pub levels: usize,
    pub path: PathText,
    pub number: PathNo,
    pub literal: Name,
    pub reader: Reader,
    pub open_ifs: OpenIfs,
    pub run: Vec<PpTok>,
    pub line: Vec<PpTok>,
}

// The string that `__FILE__` gives in the file at a path.
fn literal_of(alloc: Global, path: &[u8]) -> Result<Vec<u8>, OutOfMemory>
    ensures { IfOk result (λ v. v.items ≡ in_quotes (escaped path.now)) }
{
    let mut text = Vec::new(alloc);
    text.push(b'"')?;
    put_escaped(&mut text, path)?;
    text.push(b'"')?;
    Ok(text)
}

impl OpenFile {
    // A file at its beginning.
    pub fn new(
        alloc: Global,
        names: &mut NameTable,
        levels: usize,
        path: PathText,
        number: PathNo,
        bytes: &[u8],
    ) -> Result<OpenFile, OutOfMemory>
        requires bytes { length bytes.now ≤ 16777216 }
        requires room { length names.old < 2 ^ 31 }
        ensures open { IfOk result (λ f. (files : List KnownFile) → finding path files ≡ Present number.0 bytes.now → IsOpen names.new files f) }
        ensures begins { IfOk result (λ f. (files : List KnownFile) → finding path files ≡ Present number.0 bytes.now → reading_of names.new files f ≡ begins levels path number.0 (lexed bytes.now)) }
        ensures names { Grows names.old names.new }
        ensures distinct { IsDistinct names.old → IsDistinct names.new }
    {
        known_files_stay_known();
        let literal = names.intern(&literal_of(alloc, path.bytes())?)?;
        let reader = Reader::new(number, names, bytes)?;
        Ok(OpenFile {
            levels,
            path,
            number,
            literal,
            reader,
            open_ifs: OpenIfs::new(alloc),
            run: Vec::new(alloc),
            line: Vec::new(alloc),
        })
    }

    // Whether the tokens of the present line are all there.
    pub fn has_line(&self) -> bool
        ensures says { result ≡ has_line self.now }
        ensures line { (names : List Text) (files : List KnownFile) → IsOpen names files self.now → TellsLine (reading_of names files self.now) result }
    {
        !self.line.is_empty() && self.reader.is_at_line_end()
    }

    // What comes where the present line isn't all there.
    pub fn coming(&self) -> Coming
        ensures { (names : List Text) (files : List KnownFile) → IsOpen names files self.now → TellsNext (reading_of names files self.now) result }
    {
        self.reader.coming()
    }

    // Takes the next token into the present line.
    pub fn take(&mut self, names: &mut NameTable, bytes: &[u8]) -> Result<(), OutOfMemory>
        requires bytes { length bytes.now ≤ 16777216 }
        requires room { length names.old < 2 ^ 31 }
        requires within { IsReading names.old bytes.now self.old.reader }
        ensures takes { OnOk result ((files : List KnownFile) → IsOpen names.old files self.old → bytes_at files self.old.path ≡ bytes.now → Takes (reading_of names.old files self.old) (reading_of names.new files self.new)) }
        ensures open { OnOk result ((files : List KnownFile) → IsOpen names.old files self.old → bytes_at files self.old.path ≡ bytes.now → IsOpen names.new files self.new) }
        ensures names { Grows names.old names.new }
        ensures distinct { IsDistinct names.old → IsDistinct names.new }
        ensures rest { self.new ≡ record self.old { reader = self.new.reader; line = self.new.line } }
    {
        if let Some(token) = self.reader.take(names, bytes)? {
            self.line.push(token)?;
        }
        Ok(())
    }

    // Whether the present line is text that is live.
    fn has_text(&self, names: &NameTable) -> bool
        ensures { result ≡ (is_live self.now.open_ifs && is_plain (spec.line_of (tokens_of names.now self.now.line.items))) }
    {
        self.open_ifs.is_live() && matches!(line_of(names, &self.line), Line::Plain)
    }

    // Puts the present line into the run, where it is text that is live.
    pub fn put_text(&mut self, names: &NameTable) -> Result<(), OutOfMemory>
        ensures run { OnOk result (tokens_of names.now self.new.run.items ≡ run_with self.old.open_ifs (tokens_of names.now self.old.run.items) (tokens_of names.now self.old.line.items)) }
        ensures reads { OnOk result ((files : List KnownFile) → let r = reading_of names.now files self.old in reading_of names.now files self.new ≡ record r { run = run_with r.open_ifs r.run r.taken }) }
        ensures open { OnOk result ((files : List KnownFile) → IsOpen names.now files self.old → IsOpen names.now files self.new) }
        ensures rest { self.new ≡ record self.old { run = self.new.run } }
        ensures err { OnErr result (self.new.run.items ≡ self.old.run.items) }
    {
        if self.has_text(names) {
            self.run.extend_from_slice(&self.line)?;
        }
        Ok(())
    }

    // Goes on behind a line that leaves the run.
    pub fn end_line(&mut self)
        ensures line { self.new.line.items ≡ [] }
        ensures reads { (names : List Text) (files : List KnownFile) → reading_of names files self.new ≡ record (reading_of names files self.old) { taken = [] } }
        ensures open { (names : List Text) (files : List KnownFile) → IsOpen names files self.old → IsOpen names files self.new }
        ensures rest { self.new ≡ record self.old { line = self.new.line } }
    {
        self.line.clear();
    }

    // Goes on behind a line that ends the run.
    pub fn end_run(&mut self)
        ensures line { self.new.line.items ≡ [] }
        ensures run { self.new.run.items ≡ [] }
        ensures reads { (names : List Text) (files : List KnownFile) → reading_of names files self.new ≡ record (reading_of names files self.old) { run = []; taken = [] } }
        ensures open { (names : List Text) (files : List KnownFile) → IsOpen names files self.old → IsOpen names files self.new }
        ensures rest { self.new ≡ record self.old { line = self.new.line; run = self.new.run } }
    {
        self.line.clear();
        self.run.clear();
    }
}
