//! Places in files, and the tokens of the two token phases.

/// The number of a text that a name table holds.
#[derive(Clone, Copy, Debug, PartialEq, Eq, PartialOrd, Ord, Hash)]
pub struct Name(pub u32);

/// The number of a path that a snapshot knows.
#[derive(Clone, Copy, Debug, PartialEq, Eq, PartialOrd, Ord, Hash)]
pub struct PathNo(pub u32);

/// A place in a file: an offset in bytes, from 0, in the file as it was read.
#[derive(Clone, Copy, Debug, PartialEq, Eq, PartialOrd, Ord, Hash)]
pub struct Place {
    pub path: PathNo,
    pub offset: u32,
}

/// Where a token comes from: its place in a file, or `Made` where preprocessing made it (by `#`,
/// `##` or a predefined macro).
#[derive(Clone, Copy, Debug, PartialEq, Eq, PartialOrd, Ord, Hash)]
pub enum Origin {
    At(Place),
    Made,
}

/// The kind of a preprocessing token (C11 6.4). `Stray` is one byte that no other kind takes.
#[derive(Clone, Copy, Debug, PartialEq, Eq, Hash)]
pub enum PpKind {
    Ident,
    Number,
    Char,
    Str,
    Punct,
    Stray,
}

/// A preprocessing token (C11 6.4).
///
/// `text` is its spelling without joined lines. `site` is the place at which the token's outermost
/// expansion began, or its own place. `line` is the line of the site, from 1. `end` is the offset
/// behind its last byte in its own file; it is 0 for a made token. `space` says that white space or
/// a line's start stands directly before it, `first` that it is the first of its line, `joined` that
/// a joined line lies inside it; the last two are false for a made token.
#[derive(Clone, Copy, Debug, PartialEq, Eq)]
pub struct PpTok {
    pub kind: PpKind,
    pub text: Name,
    pub origin: Origin,
    pub site: Place,
    pub line: u32,
    pub end: u32,
    pub space: bool,
    pub first: bool,
    pub joined: bool,
}

/// The kind of a token (C11 6.4). `End` stands behind the last token of a translation unit.
#[derive(Clone, Copy, Debug, PartialEq, Eq, Hash)]
pub enum TokKind {
    Ident,
    Keyword,
    Constant,
    Str,
    Punct,
    End,
}

/// A token of translation phase 7 (C11 5.1.1.2), with the site that its preprocessing token had.
#[derive(Clone, Copy, Debug, PartialEq, Eq)]
pub struct Tok {
    pub kind: TokKind,
    pub text: Name,
    pub origin: Origin,
    pub site: Place,
}
