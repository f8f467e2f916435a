//! A token with its hide set.
use crate::hide_sets::HideSet;
use cr_base::PpTok;

/// A token and the names that are hidden from it.
#[derive(Clone, Copy, Debug)]
pub struct Held {
    pub token: PpTok,
    pub hide: HideSet,
}
