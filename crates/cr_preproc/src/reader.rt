//! The tokens of a file, one by one, with the next one known.
ghost use Rattle.std.specs.Prelude.{◌≡◌, ◌≤◌, ◌<◌, ◌-◌, ◌^◌, List, length, IfOk, OnOk};
ghost use Rattle.cr_base.specs.NameTable.{IsDistinct};
ghost use Rattle.cr_lex.specs.Lexing.{lexed};
ghost use Rattle.cr_macros.specs.Tokens.{Text};
ghost use Rattle.cr_expand.specs.HideSets.{Grows};
ghost use Rattle.cr_preproc.specs.Readers.{IsReading, reading, IsComing, IsTaken, IsOfFile, is_at_line_end};

use cr_base::{NameTable, OutOfMemory, PathNo, PpTok};
use cr_lex::{LexFault, LexStep, Lexer};

// A place between the tokens of a file, and what comes next.
#[derive(Drop)]
pub struct Reader {
    file: PathNo,
    lexer: Lexer,
    ahead: LexStep,
}

// What a file still gives.
#[derive(Clone, Copy, Debug)]
pub enum Coming {
    Token,
    Fault(LexFault),
    End,
}

impl Reader {
    // The beginning of a file.
    pub fn new(file: PathNo, names: &mut NameTable, bytes: &[u8]) -> Result<Reader, OutOfMemory>
        requires bytes { length bytes.now ≤ 16777216 }
        requires room { length names.old < 2 ^ 32 - 1 }
        ensures reading { IfOk result (λ reader. reading names.new bytes.now reader ≡ lexed bytes.now) }
        ensures within { IfOk result (λ reader. IsReading names.new bytes.now reader) }
        ensures file { IfOk result (λ reader. reader.file ≡ file) }
        ensures names { Grows names.old names.new }
        ensures distinct { IsDistinct names.old → IsDistinct names.new }
    {
        let mut lexer = Lexer::new(file);
        let ahead = lexer.next(names, bytes)?;
        Ok(Reader { file, lexer, ahead })
    }

    // Whether a token comes next, and else the fault, if there is one.
    pub fn coming(&self) -> Coming
        ensures { (names : List Text) (bytes : Text) → IsReading names bytes self.now → IsComing names bytes self.now result }
    {
        match self.ahead {
            LexStep::Token(_) => Coming::Token,
            LexStep::End => Coming::End,
            LexStep::Fault(fault) => Coming::Fault(fault),
        }
    }

    // Whether the next token, if there is one, is on another line.
    pub fn is_at_line_end(&self) -> bool
        ensures { result ≡ is_at_line_end self.now }
    {
        match self.ahead {
            LexStep::Token(token) => token.first,
            LexStep::End | LexStep::Fault(_) => true,
        }
    }

    // The next token, if there is one before the end or a fault.
    pub fn take(
        &mut self,
        names: &mut NameTable,
        bytes: &[u8],
    ) -> Result<Option<PpTok>, OutOfMemory>
        requires bytes { length bytes.now ≤ 16777216 }
        requires room { length names.old < 2 ^ 32 - 1 }
        requires within { IsReading names.old bytes.now self.old }
        ensures taken { IfOk result (λ taken. IsTaken names.old names.new (reading names.old bytes.now self.old) (reading names.new bytes.now self.new) taken) }
        ensures of { IfOk result (λ taken. IsOfFile self.old.file names.old taken) }
        ensures within { OnOk result (IsReading names.new bytes.now self.new) }
        ensures file { self.new.file ≡ self.old.file }
        ensures names { Grows names.old names.new }
        ensures distinct { IsDistinct names.old → IsDistinct names.new }
    {
        let LexStep::Token(token) = self.ahead else {
            return Ok(None);
        };
        self.ahead = self.lexer.next(names, bytes)?;
        Ok(Some(token))
    }
}
