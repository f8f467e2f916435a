//! Places between the tokens of a file.
ghost use Rattle.std.specs.Prelude.{◌≡◌, ◌≤◌, ◌<◌, ◌+◌, length, false, true};
ghost use Rattle.cr_lex.specs.Lexing.{end_of};
ghost use Rattle.cr_lex.specs.Scanning.{own_cells, IsByte, AreMarks};
ghost use Rattle.cr_lex.specs.Joins.{rest};
ghost use Rattle.cr_lex.specs.Standing.{IsSpot, IsNext, left_at, given, before, found_gives};

use crate::cell::{Byte, byte_from};
use crate::part::{Found, Marks, Part, no_marks, part_at};
use cr_base::PpKind;

/// A place between two parts of a file: whether it is the first of its line and behind white space,
/// and the number of the line of an offset before it.
#[derive(Clone, Copy)]
pub struct Spot {
    pub at: usize,
    pub counted: usize,
    pub line: usize,
    pub first: bool,
    pub space: bool,
    pub marks: Marks,
}

/// The bytes of a token, with the joins in them, and what is known of quotes behind it.
#[derive(Clone, Copy)]
pub struct Own {
    pub kind: PpKind,
    pub at: usize,
    pub end: usize,
    pub marks: Marks,
}

/// What stands next behind white space and comments: nothing, `/*` without an end, or a token.
#[derive(Clone, Copy)]
pub enum Ahead {
    End,
    Open(usize),
    Token(Own),
}

/// The beginning of a file.
pub fn start() -> Spot
    ensures { result ≡ record { at = 0; counted = 0; line = 1; first = true; space = true; marks = record { char = 0; string = 0 } } }
{
    Spot {
        at: 0,
        counted: 0,
        line: 1,
        first: true,
        space: true,
        marks: no_marks(),
    }
}

// The part that begins with this byte, and what is known of quotes behind it.
fn next_part(bytes: &[u8], spot: Spot, first: Byte) -> (Part, Marks)
    requires spot { IsSpot bytes.now spot }
    requires first { IsByte bytes.now first }
    requires from { spot.at ≤ first.at }
    requires same { rest bytes.now spot.at ≡ rest bytes.now first.at }
    ensures within { (first.at < result.0.end) × (result.0.end ≤ length bytes.now) }
    ensures gives { left_at bytes.now spot ≡ found_gives bytes.now (before spot) first.at result.0.end result.0.found }
    ensures ends { end_of (own_cells bytes.now first.at result.0.end) ≡ result.0.end }
    ensures marks { AreMarks bytes.now result.0.end result.1 }
{
    let mut marks = spot.marks;
    let part = part_at(bytes, first, &mut marks);
    (part, marks)
}

fn behind(spot: Spot, end: usize, first: bool, marks: Marks) -> Spot
    ensures { result ≡ record spot { at = end; first = first; space = true; marks = marks } }
{
    Spot {
        at: end,
        counted: spot.counted,
        line: spot.line,
        first,
        space: true,
        marks,
    }
}

/// What stands next, and where a lexer is there.
#[derive(Clone, Copy)]
pub struct Halt {
    pub spot: Spot,
    pub ahead: Ahead,
}

/// Goes on to what stands next.
pub fn go_on(bytes: &[u8], from: Spot) -> Halt
    requires { IsSpot bytes.now from }
    ensures next { IsNext bytes.now from.at result.spot result.ahead }
    ensures given { left_at bytes.now from ≡ given bytes.now (before result.spot) result.ahead }
{
    let mut spot = from;
    while let Some(first) = byte_from(bytes, spot.at) {
        let (part, marks) = next_part(bytes, spot, first);
        match part.found {
            Found::Space => {
                spot = behind(spot, part.end, spot.first, marks);
            }
            Found::LineEnd => {
                spot = behind(spot, part.end, true, marks);
            }
            Found::OpenComment => {
                return Halt {
                    spot,
                    ahead: Ahead::Open(first.at),
                };
            }
            Found::Piece(kind) => {
                return Halt {
                    spot,
                    ahead: Ahead::Token(Own {
                        kind,
                        at: first.at,
                        end: part.end,
                        marks,
                    }),
                };
            }
        }
    }
    Halt {
        spot,
        ahead: Ahead::End,
    }
}
