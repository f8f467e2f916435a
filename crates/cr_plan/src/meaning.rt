//! The name that a rename takes.
ghost use Rattle.std.specs.Prelude.{◌≡◌, ◌≤◌, ◌<◌, [], length, map, IfOk, IfSome, Some, None};
ghost use Rattle.std.specs.Option.{option_map};
ghost use Rattle.std.specs.List.{find};
ghost use Rattle.cr_lex.specs.Lexing.{lexed};
ghost use Rattle.cr_lex.specs.Seen.{seen};
ghost use Rattle.cr_goal.specs.Refusals.{Answers, HasReadCause};
ghost use Rattle.cr_goal.specs.Seen.{sought_of_code};
ghost use Rattle.cr_words.specs.Seen.{name_of};
ghost use Rattle.cr_goal.specs.Goals.{stands_at};
ghost use Rattle.cr_plan.specs.Meant as spec;
ghost use Rattle.cr_plan.specs.Editing.{AreNamed};

use cr_base::{NameTable, OutOfMemory, PathNo, PathText, Place, PpTok, Text, is_identifier};
use cr_class::Target;
use cr_goal::{Refusal, Sought, Status, refusal_of};
use cr_lex::lex;
use cr_snapshot::{Found, Snapshot};
use cr_words::QualifiedName;
use std::alloc::Global;

/// A name, and what of it is meant, or nothing, where no name stands at the offset that is given.
#[derive(Drop)]
pub struct Meant {
    pub old: Text,
    pub target: Option<Target>,
}

fn holds(names: &NameTable, token: &PpTok, offset: u32) -> bool
    requires { token.now.text.0 < length names.now }
    ensures { result ≡ spec.holds offset (seen names.now token.now) }
{
    is_identifier(names.text(token.text)) && token.site.offset <= offset && offset < token.end
}

fn nothing(alloc: Global) -> Result<Meant, OutOfMemory>
    ensures { IfOk result (λ meant. meant ≡ record { old = []; target = None }) }
{
    Ok(Meant {
        old: Text::new(alloc, b"")?,
        target: None,
    })
}

// The identifier that holds an offset.
fn identifier_at(names: &NameTable, tokens: &[PpTok], offset: u32) -> Option<PpTok>
    requires { AreNamed names.now tokens.now }
    ensures found { option_map (seen names.now) result ≡ find (spec.holds offset) (map (seen names.now) tokens.now) }
    ensures named { IfSome result (λ t. t.text.0 < length names.now) }
{
    for token in tokens {
        if holds(names, token, offset) {
            return Some(*token);
        }
    }
    None
}

// What stands at an offset of the bytes of a file.
fn meant_in(alloc: Global, file: PathNo, bytes: &[u8], offset: u32) -> Result<Meant, OutOfMemory>
    requires { length bytes.now ≤ 16777216 }
    ensures { IfOk result (λ meant. meant ≡ spec.meant_by_token file.0 (find (spec.holds offset) (lexed bytes.now).tokens)) }
{
    let mut names = NameTable::new(alloc);
    let lexed = lex(alloc, &mut names, bytes, file)?;
    match identifier_at(&names, lexed.tokens.items(), offset) {
        Some(token) => Ok(Meant {
            old: Text::new(alloc, names.text(token.text))?,
            target: Some(Target::At(Place {
                path: file,
                offset: token.site.offset,
            })),
        }),
        None => nothing(alloc),
    }
}

fn meant_at(
    alloc: Global,
    snapshot: &Snapshot,
    path: &PathText,
    offset: u32,
) -> Result<Meant, OutOfMemory>
    ensures { IfOk result (λ meant. meant ≡ spec.meant snapshot.now (stands_at path.now offset)) }
{
    match snapshot.get(path) {
        Found::Known(number, bytes) => meant_in(alloc, number, bytes, offset),
        Found::Absent | Found::Unknown => nothing(alloc),
    }
}

fn meant_by_name(alloc: Global, name: &QualifiedName<'_>) -> Result<Meant, OutOfMemory>
    ensures { IfOk result (λ meant. meant ≡ spec.meant_by_name (name_of name.now)) }
{
    Ok(match name {
        QualifiedName::Ordinary(name) => Meant {
            old: Text::new(alloc, name)?,
            target: Some(Target::Ordinary),
        },
        QualifiedName::Tagged(kind, name) => Meant {
            old: Text::new(alloc, name)?,
            target: Some(Target::Tagged(*kind)),
        },
        QualifiedName::Member(kind, tag, name) => Meant {
            old: Text::new(alloc, name)?,
            target: Some(Target::MemberOf(*kind, Text::new(alloc, tag)?)),
        },
    })
}

/// What is sought, over the files that are known.
pub fn what_is_meant(
    alloc: Global,
    snapshot: &Snapshot,
    sought: &Sought<'_>,
) -> Result<Meant, OutOfMemory>
    ensures { IfOk result (λ meant. meant ≡ spec.meant snapshot.now (sought_of_code sought.now)) }
{
    match sought {
        Sought::StandsAt(path, offset) => meant_at(alloc, snapshot, path, *offset),
        Sought::HasName(name) => meant_by_name(alloc, name),
    }
}

/// A name that is renamed to itself, and `main`, are refused.
pub fn may_rename(alloc: Global, new: &[u8], meant: Meant) -> Result<Meant, Refusal>
    ensures named { Answers (λ m. m) (spec.may_rename new.now meant) result }
    ensures cause { HasReadCause (λ p. ⊥) result }
{
    if meant.old.bytes() == new {
        return Err(refusal_of(alloc, Status::Reserved, b"reserved: ", new));
    }
    if meant.old.bytes() == b"main".as_slice() {
        return Err(refusal_of(alloc, Status::Reserved, b"reserved: ", b"main"));
    }
    Ok(meant)
}
