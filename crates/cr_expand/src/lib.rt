//! Macro expansion with hide sets.
#![tactic(auto)]

mod closing;
mod expander;
mod fill;
mod frame;
mod good_macros;
mod groups;
mod head;
mod held;
mod hide_path;
mod hide_sets;
mod hiding;
mod items;
mod machine;
mod notes;
mod params;
mod parting;
mod parts;
mod paste;
mod pasting;
mod place;
mod predefined;
mod slot;
mod spelling;
mod strings;
mod subst;
mod turn;
mod wanted;

pub use cr_macros::{ExpandFault, Macro, MacroTable, Role, Seen};
pub use expander::{
    Expander, expansion_is_however_it_is_fed, machines_run_on_as_names_grow,
    the_next_token_follows_the_rules,
};
pub use good_macros::defined_macros_are_known;
pub use machine::ExpStep;
pub use spelling::put_escaped;
