//! What `--qualified-name` names.
ghost use Rattle.std.specs.Prelude.{◌≡◌};
ghost use Rattle.std.specs.Option.{option_map};
ghost use Rattle.cr_words.specs.QualifiedNames as spec;
ghost use Rattle.cr_words.specs.Seen.{name_of};

use crate::text::position_of;
use cr_base::{TagKind, is_identifier};

/// A name with what it is the name of: an ordinary identifier, a tag, or a member of the structure or
/// union with a tag (C11 6.2.3).
#[derive(Clone, Copy)]
pub enum QualifiedName<'a> {
    Ordinary(&'a [u8]),
    Tagged(TagKind, &'a [u8]),
    Member(TagKind, &'a [u8], &'a [u8]),
}

// `NAME`, `struct NAME`, `union NAME`, `enum NAME`, `struct TAG::NAME` or `union TAG::NAME`.
pub(crate) fn qualified_name(text: &[u8]) -> Option<QualifiedName<'_>>
    ensures { option_map name_of result ≡ spec.qualified_name text.now }
{
    if is_identifier(text) {
        return Some(QualifiedName::Ordinary(text));
    }
    let blank = position_of(text, b' ')?;
    let kind = tag_kind(&text[..blank])?;
    let rest = &text[blank + 1..];
    if is_identifier(rest) {
        return Some(QualifiedName::Tagged(kind, rest));
    }
    member(kind, rest)
}

// `TAG::NAME`; an enumeration has no members.
fn member(kind: TagKind, text: &[u8]) -> Option<QualifiedName<'_>>
    ensures { option_map name_of result ≡ spec.member kind text.now }
{
    let colon = position_of(text, b':')?;
    let tag = &text[..colon];
    match (kind, &text[colon..]) {
        (TagKind::Struct | TagKind::Union, [_, b':', name @ ..])
            if is_identifier(tag) && is_identifier(name) => {
            Some(QualifiedName::Member(kind, tag, name))
        }
        _ => None,
    }
}

#[tactic(auto, unfolding(crate::specs::QualifiedNames::tag_kind))]
fn tag_kind(word: &[u8]) -> Option<TagKind>
    ensures { result ≡ spec.tag_kind word.now }
{
    if word == b"struct".as_slice() {
        Some(TagKind::Struct)
    } else if word == b"union".as_slice() {
        Some(TagKind::Union)
    } else if word == b"enum".as_slice() {
        Some(TagKind::Enum)
    } else {
        None
    }
}
