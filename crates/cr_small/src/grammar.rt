//! The derivation of a text, which says what each of its tokens does.
ghost use Rattle.std.specs.Prelude.{◌≡◌, ◌∷◌, List, map, IfOk, drop, Some, None};
ghost use Rattle.std.specs.Option.{option_map};
ghost use Rattle.cr_lex.specs.Seen.{seen};
ghost use Rattle.cr_small.specs.Machine as machine;
ghost use Rattle.cr_small.specs.Terminals.{terminal_of};
ghost use Rattle.cr_small.specs.Derivation.{HasParts};

use crate::spelling::spelling;
use crate::terminal::{Terminal, terminal_of};
use cr_base::{NameTable, OutOfMemory, PpTok};
use std::alloc::Global;

/// The storage word of a declaration.
#[derive(Clone, Copy)]
pub enum Storage {
    Static,
    Extern,
}

/// What a token does in a derivation. A declaration does it with its storage word, if it has one.
#[derive(Clone, Copy)]
pub enum Part {
    Plain,
    Opens,
    Closes,
    DeclaresObject(Option<Storage>),
    DeclaresFunction(Option<Storage>),
    Mentions,
}

/// Whether a derivation stands at file scope or inside braces.
#[derive(Clone, Copy)]
pub enum Level {
    File,
    Block,
}

/// Where a derivation stands.
#[derive(Clone, Copy)]
pub enum State {
    Start(Level),
    Stored(Storage),
    Declarator(Level, Option<Storage>),
    Initialiser(Level),
    Item(Level),
    CallOpen(Level),
    CallClose(Level),
    More(Level),
    ParametersOpen,
    ParametersVoid,
    ParametersClose,
    Body,
}

/// What a token does, and where the derivation stands behind it.
#[derive(Clone, Copy)]
pub struct Move {
    pub part: Part,
    pub next: State,
}

fn plain(next: State) -> Option<Move>
    ensures { result ≡ Some (machine.plain next) }
{
    Some(Move {
        part: Part::Plain,
        next,
    })
}

fn start(level: Level, terminal: Terminal, calls: bool) -> Option<Move>
    ensures { result ≡ machine.start level terminal calls }
{
    match (level, terminal) {
        (Level::File, Terminal::Static) => plain(State::Stored(Storage::Static)),
        (Level::File, Terminal::Extern) => plain(State::Stored(Storage::Extern)),
        (_, Terminal::Int) => plain(State::Declarator(level, None)),
        (Level::Block, Terminal::Return) => plain(State::Item(level)),
        (Level::Block, Terminal::End) => Some(Move {
            part: Part::Closes,
            next: State::Start(Level::File),
        }),
        (Level::Block, _) => item(level, terminal, calls),
        (Level::File, _) => None,
    }
}

fn declarator(level: Level, word: Option<Storage>, calls: bool) -> Move
    ensures { result ≡ machine.declarator level word calls }
{
    match (level, calls) {
        (Level::File, true) => Move {
            part: Part::DeclaresFunction(word),
            next: State::ParametersOpen,
        },
        _ => Move {
            part: Part::DeclaresObject(word),
            next: State::Initialiser(level),
        },
    }
}

fn item(level: Level, terminal: Terminal, calls: bool) -> Option<Move>
    ensures { result ≡ machine.item level terminal calls }
{
    match terminal {
        Terminal::Number => plain(State::More(level)),
        Terminal::Name => Some(Move {
            part: Part::Mentions,
            next: if calls {
                State::CallOpen(level)
            } else {
                State::More(level)
            },
        }),
        _ => None,
    }
}

// One token of a derivation; `calls` says that a '(' is next.
fn step(state: State, terminal: Terminal, calls: bool) -> Option<Move>
    ensures { result ≡ machine.step state terminal calls }
{
    match (state, terminal) {
        (State::Start(level), _) => start(level, terminal, calls),
        (State::Stored(word), Terminal::Int) => plain(State::Declarator(Level::File, Some(word))),
        (State::Declarator(level, word), Terminal::Name) => Some(declarator(level, word, calls)),
        (State::Initialiser(level), Terminal::Assign) => plain(State::Item(level)),
        (State::Initialiser(level), Terminal::Semicolon) => plain(State::Start(level)),
        (State::Item(level), _) => item(level, terminal, calls),
        (State::CallOpen(level), Terminal::Open) => plain(State::CallClose(level)),
        (State::CallClose(level), Terminal::Close) => plain(State::More(level)),
        (State::More(level), Terminal::Plus) => plain(State::Item(level)),
        (State::More(level), Terminal::Semicolon) => plain(State::Start(level)),
        (State::ParametersOpen, Terminal::Open) => plain(State::ParametersVoid),
        (State::ParametersVoid, Terminal::Void) => plain(State::ParametersClose),
        (State::ParametersClose, Terminal::Close) => plain(State::Body),
        (State::Body, Terminal::Semicolon) => plain(State::Start(Level::File)),
        (State::Body, Terminal::Begin) => Some(Move {
            part: Part::Opens,
            next: State::Start(Level::Block),
        }),
        _ => None,
    }
}

fn is_end(state: State) -> bool
    ensures { result ≡ machine.is_end state }
{
    match state {
        State::Start(Level::File) => true,
        _ => false,
    }
}

// Whether the first of the tokens is a '('.
fn opens(names: &NameTable, tokens: &[PpTok]) -> bool
    ensures { result ≡ machine.opens (map (seen names.now) tokens.now) }
{
    match tokens {
        [first, ..] => terminal_of(spelling(names, first.text)) == Terminal::Open,
        [] => false,
    }
}

/// What each token does in the one derivation of the tokens, or nothing where there is none.
pub fn read_parts(
    alloc: Global,
    names: &NameTable,
    tokens: &[PpTok],
) -> Result<Option<Vec<Part>>, OutOfMemory>
    ensures { IfOk result (λ read. HasParts (map (seen names.now) tokens.now) (option_map (λ v. v.items) read)) }
{
    let mut parts = Vec::with_capacity(alloc, tokens.len())?;
    let mut state = State::Start(Level::File);
    for (i, token) in tokens.iter().enumerate() {
        let terminal = terminal_of(spelling(names, token.text));
        let Some(step) = step(state, terminal, opens(names, &tokens[i + 1..])) else {
            return Ok(None);
        };
        parts.push(step.part)?;
        state = step.next;
    }
    Ok(if is_end(state) { Some(parts) } else { None })
}
