//! The structures and unions of a unit and what selects in them, as binding keeps them (C11 6.7.2.1, 6.7.2.3, 6.5.2.3).
#![tactic(auto)]

mod fault;
mod records;
mod rows;

ghost use Rattle.cr_records.specs.Laws.{RecordsStay, MembersAreTold};

pub use fault::RecordFault;
pub use records::{Records, record_of};
pub use rows::{Member, RecordRow, Selected, Selector};

/// As types are added the same records are seen. It does nothing: its contract is the law.
pub fn records_stay()
    ensures { RecordsStay }
{}

/// What is told of members by their numbers is what binding sees of them. It does nothing: its contract is the law.
pub fn members_are_told()
    ensures { MembersAreTold }
{}
