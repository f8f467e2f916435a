//! What an accepted verdict tells of each fact.
ghost use Rattle.cr_class.specs.Accepted.{AcceptedMeansNothing, ClassTestsTell};

use cr_facts::facts_are_ordered;

/// Where no refusal holds, no fact gives one: of finitely many places one is the least. And a key is found in a class
/// just where it is among its keys.
///
/// It does nothing: its contract is the law.
pub fn an_accepted_verdict_tells_of_each_fact()
    ensures facts { AcceptedMeansNothing }
    ensures keys { ClassTestsTell }
{
    facts_are_ordered();
}
