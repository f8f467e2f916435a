//! The tokens of a unit, as binding reads them.
ghost use Rattle.std.specs.Prelude.{◌≡◌, [], slice_index_or};
ghost use Rattle.cr_binding.specs.Source.{Source, token_of, name_at, text_at, is_identifier};
ghost use Rattle.cr_ll.specs.Guards.{is_name};
ghost use Rattle.cr_names.specs.Names.{HasTokens};
ghost use Rattle.cr_acting.specs.Binding.{source_by};

use cr_base::{Name, NameTable, Tok, TokKind};
use cr_names::name_at;

/// The tokens of a unit, and the texts of names by their numbers.
#[derive(Clone, Copy)]
pub struct Words<'a> {
    pub tokens: &'a [Tok],
    pub names: &'a NameTable,
}

// The kind of a token. Behind the last one it is the end.
fn kind_at(tokens: &[Tok], i: u32) -> TokKind
    ensures { (t : Source) → HasTokens tokens.now t → (token_of t i).kind ≡ result }
{
    match tokens.get(i as usize) {
        Some(token) => token.kind,
        None => TokKind::End,
    }
}

// The text of a name. One that the table doesn't have is empty.
fn text_of(names: &NameTable, name: Name) -> &[u8]
    ensures { slice_index_or names.now name.0 [] ≡ result.now }
{
    if (name.0 as usize) < names.len() {
        names.text(name)
    } else {
        b""
    }
}

fn is_name(kind: TokKind) -> bool
    ensures { result ≡ is_name kind }
{
    matches!(kind, TokKind::Ident)
}

impl<'a> Words<'a> {
    pub(crate) fn kind_at(self, i: u32) -> TokKind
        ensures { (token_of (source_by self.entry) i).kind ≡ result }
    {
        kind_at(self.tokens, i)
    }

    pub(crate) fn name_at(self, i: u32) -> Name
        ensures { name_at (source_by self.entry) i ≡ result }
    {
        name_at(self.tokens, i)
    }

    pub(crate) fn text_at(self, i: u32) -> &'a [u8]
        ensures { text_at (source_by self.entry) i ≡ result.now }
    {
        text_of(self.names, name_at(self.tokens, i))
    }

    pub(crate) fn is_identifier(self, i: u32) -> bool
        ensures { result ≡ is_identifier (source_by self.entry) i }
    {
        is_name(kind_at(self.tokens, i))
    }
}
