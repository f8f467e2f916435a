//! Laws over the machine of the grammar: its events come to an end.
#![tactic(auto)]

ghost use Rattle.cr_ll_law.specs.EventsLeft.{EventsFall, PlacesCountTokens};

/// Between two tokens the machine gives finitely many events: each of them leaves less of a number that the symbols on
/// its stack have. And it stands behind the tokens that it has passed.
///
/// It does nothing: its contract is the law.
pub fn events_fall()
    ensures fall { EventsFall }
    ensures places { PlacesCountTokens }
{}
