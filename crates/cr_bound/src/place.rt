//! Where the walk over a unit is.
ghost use Rattle.std.specs.Prelude.{◌≡◌};
ghost use Rattle.cr_binding.specs.State.{State};
ghost use Rattle.cr_binding.specs.Specifying.{announced};
ghost use Rattle.cr_bound.specs.Kept.{kind_by, with_place};

use cr_base::{Kind, TagKind};
use cr_decl::SpecWord;
use cr_types::RecNo;

// The last token, whether a function's body is read and the names of its `goto`s, the token of a list of words that isn't
// permitted, the kind of tag that a keyword announced, and the record whose members are read.
#[derive(Drop)]
pub(crate) struct Place {
    pub(crate) last: u32,
    pub(crate) in_body: bool,
    pub(crate) jumps: Vec<u32>,
    pub(crate) refused: Option<u32>,
    pub(crate) keyword: TagKind,
    pub(crate) filled: Option<RecNo>,
}

// The kind of a tag.
pub(crate) fn kind_of(keyword: TagKind) -> Kind
    ensures { result ≡ kind_by keyword }
{
    match keyword {
        TagKind::Struct => Kind::Struct,
        TagKind::Union => Kind::Union,
        TagKind::Enum => Kind::Enum,
    }
}

impl Place {
    // A keyword announces a kind of tag.
    pub(crate) fn announce(&mut self, word: Option<SpecWord>)
        ensures seen { (s : State) → with_place self.new s ≡ announced word (with_place self.old s) }
        ensures filled { self.new.filled ≡ self.old.filled }
    {
        match word {
            Some(SpecWord::Struct) => self.keyword = TagKind::Struct,
            Some(SpecWord::Union) => self.keyword = TagKind::Union,
            Some(SpecWord::Enum) => self.keyword = TagKind::Enum,
            _ => {}
        }
    }
}
