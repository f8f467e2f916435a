//! What the machine's runs and calls are: laws of the definitions. Each function does nothing; its
//! contract is the law.
ghost use Rattle.cr_ll.specs.Derivation.{TreesAreOne};
ghost use Rattle.cr_ll.specs.Laws.{EventsAreATrees, NoTreeGoesOn, TreesGoOver, CallsAreATrees, SyntaxEndsAllTrees, DoneStays};

/// The machine's runs give the events of trees, and of nothing else.
pub fn events_are_a_trees()
    ensures { EventsAreATrees }
{}

/// Whatever answers the asks, the tokens have one tree.
pub fn trees_are_one()
    ensures { TreesAreOne }
{}

/// Where no alternative is found or another token stands, no tree goes on.
pub fn no_tree_goes_on()
    ensures { NoTreeGoesOn }
{}

/// Where the stack would be too high, each tree that goes on needs that stack.
pub fn trees_go_over()
    ensures { TreesGoOver }
{}

/// Calls up to the end give the events of a tree with the replies as its answers.
pub fn calls_are_a_trees()
    ensures { CallsAreATrees }
{}

/// After a syntax fault no tree goes on with what the calls gave.
pub fn syntax_ends_all_trees()
    ensures { SyntaxEndsAllTrees }
{}

/// After the end each step answers the end.
pub fn done_stays()
    ensures { DoneStays }
{}
