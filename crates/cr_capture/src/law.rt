//! The laws that a renaming keeps what each mention means that has no conflict.
ghost use Rattle.cr_capture.specs.Renaming.{KeepsLookup, KeepsAnswer, KeepsNewTag, KeepsLinkage, KeepsAsk};

use cr_scope::lookup_means;

/// Where neither a mention nor a declaration before it has a conflict of a renamed declaration, the mention denotes what
/// it did (C11 6.2.1p4), and is a typedef name just where it was.
///
/// It does nothing: its contract is the law.
pub fn renaming_keeps_lookup()
    ensures denotes { KeepsLookup }
    ensures answers { KeepsAnswer }
{
    lookup_means();
}

/// Where a tag use that declares its tag has no conflict of a renamed declaration, it declares it (C11 6.7.2.3p8).
///
/// It does nothing: its contract is the law.
pub fn renaming_keeps_a_new_tag()
    ensures { KeepsNewTag }
{
    lookup_means();
}

/// Where neither a declaration nor one before it has a conflict of a renamed declaration, it takes the linkage that it
/// took (C11 6.2.2p3 to p6).
///
/// It does nothing: its contract is the law.
pub fn renaming_keeps_linkage()
    ensures { KeepsLinkage }
{
    lookup_means();
}

/// Where neither an identifier that was asked and is no typedef name, nor a declaration before it, has a conflict of a
/// renamed declaration, nor of the parameter that its renamed token declares, it is no typedef name afterwards.
///
/// It does nothing: its contract is the law.
pub fn renaming_keeps_an_ask()
    ensures { KeepsAsk }
{
    lookup_means();
}
