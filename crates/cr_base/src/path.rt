//! A path, seen as the list of its bytes.
ghost use Rattle.std.specs.Prelude.{◌≡◌, ◌∷◌, ◌++◌, [], IfOk, OnOk, OnErr, length, map, fold, if◌then◌else◌};
ghost use Rattle.std.specs.List.{slice_split};
ghost use Rattle.std.specs.Prelude.{Some};
ghost use Rattle.std.proofs.Common.{refl};
ghost use Rattle.std.specs.Str.{bytes_eq};
ghost use Rattle.std.specs.Ordering.{nat_cmp};
ghost use Rattle.std.specs.Cmp.{partial_equiv_from_equiv};
ghost use Rattle.std.specs.Cmp.Lexicographic.{slice_cmp, nat_list_eq_equiv, nat_list_cmp_total, texts_ties, texts_po};
ghost use Rattle.cr_base.specs.Path.{normalised, is_idle, is_up, is_slash, is_rooted, parts_after, after_part, ends_below, written, apart_path};

use crate::OutOfMemory;
use std::alloc::Global;
use std::cmp::Ordering;
use std::marker::Model;

/// A path in its one form: components joined by `/`, with a `/` in front where it is absolute, and
/// no `.`, no empty component, and `..` only at the front of a relative path. Paths that `apart` makes
/// begin with `//`, as no other path does. Paths are ordered by their bytes.
#[derive(Drop)]
pub struct PathText {
    bytes: Vec<u8>,
}

impl Model for PathText {
    ghost use Rattle.std.specs.Prelude.{List, ℕ};

    ghost Value = { List ℕ };

    ghost view = { λ s. s.bytes.items };
}

impl PathText {
    /// The empty relative path.
    pub fn empty(alloc: Global) -> PathText
        ensures { result ≡ [] }
    {
        PathText {
            bytes: Vec::new(alloc),
        }
    }

    /// The path that `text` names from `base`: from nothing and absolute where it begins with `/`.
    pub fn normalise(alloc: Global, base: &PathText, text: &[u8]) -> Result<PathText, OutOfMemory>
        ensures { IfOk result (λ made. made ≡ normalised base.now text.now) }
    {
        let rooted = starts_with_slash(text);
        let absolute = rooted || starts_with_slash(&base.bytes);
        let mut parts: Vec<&[u8]> = Vec::new(alloc);
        if !rooted {
            put_parts(absolute, &mut parts, &base.bytes)?;
        }
        put_parts(absolute, &mut parts, text)?;
        let bytes = write_parts(alloc, absolute, &parts)?;
        Ok(PathText { bytes })
    }

    /// A path that no normalised path equals: `//` and the text.
    pub fn apart(alloc: Global, text: &[u8]) -> Result<PathText, OutOfMemory>
        ensures { IfOk result (λ made. made ≡ apart_path text.now) }
    {
        let mut bytes = b"//".to_vec(alloc)?;
        bytes.extend_from_slice(text)?;
        Ok(PathText { bytes })
    }

    /// Its bytes.
    pub fn bytes(&self) -> &[u8]
        ensures { result.now ≡ self.now }
    {
        &self.bytes
    }

    /// An equal path of its own.
    pub fn copy(&self, alloc: Global) -> Result<PathText, OutOfMemory>
        ensures { IfOk result (λ made. made ≡ self.now) }
    {
        let bytes = self.bytes.to_vec(alloc)?;
        Ok(PathText { bytes })
    }
}

impl PartialEq for PathText {
    ghost eq = { bytes_eq };

    ghost laws = { partial_equiv_from_equiv nat_list_eq_equiv };

    fn eq(&self, other: &PathText) -> bool {
        self.bytes() == other.bytes()
    }
}

impl Eq for PathText {
    ghost laws = { nat_list_eq_equiv };
}

impl PartialOrd for PathText {
    ghost partial_cmp = { λ x y. Some (slice_cmp nat_cmp x y) };

    ghost laws = { texts_po };

    fn partial_cmp(&self, other: &PathText) -> Option<Ordering> {
        Some(self.cmp(other))
    }
}

impl Ord for PathText {
    ghost cmp = { slice_cmp nat_cmp };

    ghost total = { nat_list_cmp_total };

    ghost matches_partial_cmp = { λ x y. refl };

    ghost matches_eq = { texts_ties };

    fn cmp(&self, other: &PathText) -> Ordering {
        self.bytes().cmp(other.bytes())
    }
}

fn starts_with_slash(text: &[u8]) -> bool
    ensures { result ≡ is_rooted text.now }
{
    match text {
        [first, ..] => *first == b'/',
        [] => false,
    }
}

// Puts each component of the text behind those that are there.
fn put_parts<'a>(
    absolute: bool,
    parts: &mut Vec<&'a [u8]>,
    text: &'a [u8],
) -> Result<(), OutOfMemory>
    ensures { OnOk result (map (λ p. p.now) parts.new.items
        ≡ parts_after absolute (map (λ p. p.now) parts.old.items) text.now) }
{
    for part in text.split(|b| *b == b'/') {
        put_part(absolute, parts, part)?;
    }
    Ok(())
}

fn put_part<'a>(
    absolute: bool,
    parts: &mut Vec<&'a [u8]>,
    part: &'a [u8],
) -> Result<(), OutOfMemory>
    ensures { OnOk result (map (λ p. p.now) parts.new.items
        ≡ after_part absolute (map (λ p. p.now) parts.old.items) part.now) }
{
    if is_idle(part) {
        return Ok(());
    }
    if !is_up(part) {
        parts.push(part)?;
        return Ok(());
    }
    if ends_below(parts) {
        let _ = parts.pop();
    } else if !absolute {
        parts.push(part)?;
    }
    Ok(())
}

fn is_idle(part: &[u8]) -> bool
    ensures { result ≡ is_idle part.now }
{
    match part {
        [] => true,
        [byte] => *byte == b'.',
        _ => false,
    }
}

fn is_up(part: &[u8]) -> bool
    ensures { result ≡ is_up part.now }
{
    match part {
        [first, second] => *first == b'.' && *second == b'.',
        _ => false,
    }
}

// Whether the last component is one that `..` takes away.
fn ends_below(parts: &[&[u8]]) -> bool
    ensures { result ≡ ends_below (map (λ p. p.now) parts.now) }
{
    match parts {
        [] => false,
        [.., last] => !is_up(last),
    }
}

fn write_parts(alloc: Global, absolute: bool, parts: &[&[u8]]) -> Result<Vec<u8>, OutOfMemory>
    ensures { IfOk result (λ bytes. bytes.items ≡ written absolute (map (λ p. p.now) parts.now)) }
{
    let mut bytes = Vec::new(alloc);
    if absolute {
        bytes.push(b'/')?;
    }
    for (i, part) in parts.iter().enumerate() {
        write_part(&mut bytes, i == 0, part)?;
    }
    Ok(bytes)
}

fn write_part(bytes: &mut Vec<u8>, first: bool, part: &[u8]) -> Result<(), OutOfMemory>
    ensures { OnOk result (bytes.new.items ≡ bytes.old.items ++ (if first then part.now else 47 ∷ part.now)) }
{
    if !first {
        bytes.push(b'/')?;
    }
    bytes.extend_from_slice(part)?;
    Ok(())
}
