//! The words of a `command`.
ghost use Rattle.std.specs.Prelude.{◌≡◌, ◌++◌, ◌∷◌, [], List, ℕ, Bool, IfOk, OnOk, Option, option_map, if◌then◌else◌};
ghost use Rattle.std.specs.List.{filter_map};
ghost use Rattle.cr_compdb.specs.Command as spec;
ghost use Rattle.cr_compdb.specs.Modes.{Goes};

use cr_base::{OutOfMemory, Text};
use std::alloc::Global;

// What stands at a place of a command once its quotes are read.
#[derive(Clone, Copy)]
pub enum Piece {
    // A byte of a word.
    Byte(u8),
    // A quote began here, so a word is here, even with no byte.
    Quote,
    // Words are parted here.
    Gap,
}

// Where in a command the next byte stands.
#[derive(Clone, Copy)]
pub enum Mode {
    Bare,
    Escaped,
    Single,
    Double,
    DoubleEscaped,
}

// The words of a command, or nothing where a quote isn't closed or a backslash ends it.
pub(crate) fn command_words(alloc: Global, text: &[u8]) -> Result<Option<Vec<Text>>, OutOfMemory>
    ensures { IfOk result (λ found. option_map (λ words. words.items) found ≡ spec.command_words text.now) }
{
    match pieces_of(alloc, text)? {
        Some(pieces) => Ok(Some(words_in(alloc, &pieces)?)),
        None => Ok(None),
    }
}

fn words_in(alloc: Global, pieces: &[Piece]) -> Result<Vec<Text>, OutOfMemory>
    ensures { IfOk result (λ words. words.items ≡ spec.words_in pieces.now) }
{
    let mut words = Vec::new(alloc);
    for run in pieces.split(|piece| is_gap(*piece)) {
        push_word(alloc, &mut words, run)?;
    }
    Ok(words)
}

fn is_gap(piece: Piece) -> bool
    ensures { result ≡ spec.is_gap piece }
{
    match piece {
        Piece::Gap => true,
        _ => false,
    }
}

fn push_word(alloc: Global, words: &mut Vec<Text>, run: &[Piece]) -> Result<(), OutOfMemory>
    ensures { OnOk result (words.new.items ≡ words.old.items
        ++ (if spec.is_word run.now then filter_map spec.byte_of run.now ∷ [] else [])) }
{
    if run.is_empty() {
        return Ok(());
    }
    let bytes = bytes_of(alloc, run)?;
    words.push(Text::new(alloc, &bytes)?)?;
    Ok(())
}

fn bytes_of(alloc: Global, run: &[Piece]) -> Result<Vec<u8>, OutOfMemory>
    ensures { IfOk result (λ bytes. bytes.items ≡ filter_map spec.byte_of run.now) }
{
    let bytes = run
        .iter()
        .filter_map(|piece| byte_of(*piece))
        .collect(alloc)?;
    Ok(bytes)
}

fn byte_of(piece: Piece) -> Option<u8>
    ensures { result ≡ spec.byte_of piece }
{
    match piece {
        Piece::Byte(byte) => Some(byte),
        Piece::Quote | Piece::Gap => None,
    }
}

fn pieces_of(alloc: Global, text: &[u8]) -> Result<Option<Vec<Piece>>, OutOfMemory>
    ensures { IfOk result (λ found. option_map (λ pieces. pieces.items) found ≡ spec.bare text.now) }
{
    let mut pieces = Vec::new(alloc);
    let mut mode = Mode::Bare;
    for byte in text {
        mode = take_byte(mode, *byte, &mut pieces)?;
    }
    match mode {
        Mode::Bare => Ok(Some(pieces)),
        Mode::Escaped | Mode::Single | Mode::Double | Mode::DoubleEscaped => Ok(None),
    }
}

// Takes one more byte, and says where the next one stands.
fn take_byte(mode: Mode, byte: u8, pieces: &mut Vec<Piece>) -> Result<Mode, OutOfMemory>
    ensures { IfOk result (λ next. Goes mode byte next pieces.old.items pieces.new.items) }
{
    match mode {
        Mode::Bare => take_bare(byte, pieces),
        Mode::Escaped => {
            pieces.push(Piece::Byte(byte))?;
            Ok(Mode::Bare)
        }
        Mode::Single => take_single(byte, pieces),
        Mode::Double => take_double(byte, pieces),
        Mode::DoubleEscaped => take_double_escaped(byte, pieces),
    }
}

fn take_bare(byte: u8, pieces: &mut Vec<Piece>) -> Result<Mode, OutOfMemory>
    ensures { IfOk result (λ next. Goes Mode.Bare byte next pieces.old.items pieces.new.items) }
{
    let (piece, next) = match byte {
        b' ' | b'\t' | b'\n' | b'\r' => (Piece::Gap, Mode::Bare),
        b'\'' => (Piece::Quote, Mode::Single),
        b'"' => (Piece::Quote, Mode::Double),
        b'\\' => return Ok(Mode::Escaped),
        _ => (Piece::Byte(byte), Mode::Bare),
    };
    pieces.push(piece)?;
    Ok(next)
}

fn take_single(byte: u8, pieces: &mut Vec<Piece>) -> Result<Mode, OutOfMemory>
    ensures { IfOk result (λ next. Goes Mode.Single byte next pieces.old.items pieces.new.items) }
{
    if byte == b'\'' {
        return Ok(Mode::Bare);
    }
    pieces.push(Piece::Byte(byte))?;
    Ok(Mode::Single)
}

fn take_double(byte: u8, pieces: &mut Vec<Piece>) -> Result<Mode, OutOfMemory>
    ensures { IfOk result (λ next. Goes Mode.Double byte next pieces.old.items pieces.new.items) }
{
    if byte == b'"' {
        return Ok(Mode::Bare);
    }
    if byte == b'\\' {
        return Ok(Mode::DoubleEscaped);
    }
    pieces.push(Piece::Byte(byte))?;
    Ok(Mode::Double)
}

fn take_double_escaped(byte: u8, pieces: &mut Vec<Piece>) -> Result<Mode, OutOfMemory>
    ensures { IfOk result (λ next. Goes Mode.DoubleEscaped byte next pieces.old.items pieces.new.items) }
{
    if !is_kept(byte) {
        pieces.push(Piece::Byte(b'\\'))?;
    }
    pieces.push(Piece::Byte(byte))?;
    Ok(Mode::Double)
}

// A byte that a backslash keeps inside double quotes.
fn is_kept(byte: u8) -> bool
    ensures { result ≡ spec.is_kept byte }
{
    byte == b'"' || byte == b'\\' || byte == b'$' || byte == b'`' || byte == b'\n'
}
