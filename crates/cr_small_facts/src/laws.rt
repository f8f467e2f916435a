//! Laws of the facts of texts. These functions do nothing: their contracts are the laws.
ghost use Rattle.cr_small_facts.specs.Laws.{PlacesAreOne, TellsPlaces, TellsOwn};

use cr_facts::facts_are_ordered;
use cr_small::{entities_have_one_name, places_rise};

/// Facts have one list of places of a key in a file.
pub fn places_are_one()
    ensures { PlacesAreOne }
{}

/// The facts of a text tell the places of each entity that has the old name.
pub fn a_text_tells_the_places()
    ensures { TellsPlaces }
{
    facts_are_ordered();
    places_rise();
    entities_have_one_name();
}

/// The facts of a text say nothing of places in another file, nor of entities without external linkage
/// that another file declares.
pub fn a_text_tells_its_own_places()
    ensures { TellsOwn }
{
    facts_are_ordered();
}
