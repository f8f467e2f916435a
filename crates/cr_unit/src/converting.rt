//! The tokens of a unit that is preprocessed whole.
ghost use Rattle.std.specs.Prelude.{◌≡◌, ◌<◌, ◌^◌, length, IfOk};
ghost use Rattle.cr_unit.specs.Converting.{end_place, IsConverted};

use cr_base::{Name, NameTable, OutOfMemory, PathNo, PathText, Place, PpTok, Tok};
use cr_phase7::{Phase7Fault, tokens7};
use cr_snapshot::{Found, Snapshot};
use std::alloc::Global;

/// The tokens of a unit with an end behind them, the table that has their texts, and in it the numbers of the two names of
/// a renaming.
#[derive(Drop)]
pub struct UnitTokens {
    pub names: NameTable,
    pub tokens: Vec<Tok>,
    pub old: Name,
    pub new: Name,
}

/// What preprocessing tokens become.
#[derive(Drop)]
pub enum Converted {
    /// All became tokens.
    Tokens(UnitTokens),
    /// The one at this place becomes no token.
    BadToken(Place),
}

/// The place behind the last byte of a unit's main file; the first of file number 0 where the snapshot knows of no file.
pub fn place_behind(snapshot: &Snapshot, main: &PathText) -> Place
    ensures { result ≡ end_place snapshot.now main.now }
{
    match snapshot.get(main) {
        Found::Known(path, bytes) => Place {
            path,
            offset: bytes.len() as u32,
        },
        Found::Absent | Found::Unknown => Place {
            path: PathNo(0),
            offset: 0,
        },
    }
}

/// The tokens that the final tokens of a unit become (C11 5.1.1.2, phases 5 to 7), with the end at a place, or the first
/// place at which one becomes none. The two names are put into the table behind them.
pub fn convert(
    alloc: Global,
    names: NameTable,
    from: &[PpTok],
    end: Place,
    old: &[u8],
    new: &[u8],
) -> Result<Converted, OutOfMemory>
    requires room { length names < 2 ^ 31 }
    ensures { IfOk result (IsConverted names from.now end old.now new.now) }
{
    let mut names = names;
    let tokens = match tokens7(alloc, &mut names, from, end) {
        Ok(tokens) => tokens,
        Err(Phase7Fault::BadToken(place)) => return Ok(Converted::BadToken(place)),
        Err(Phase7Fault::OutOfMemory) => return Err(OutOfMemory),
    };
    let old = names.intern(old)?;
    let new = names.intern(new)?;
    Ok(Converted::Tokens(UnitTokens {
        names,
        tokens,
        old,
        new,
    }))
}
