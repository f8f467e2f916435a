//! Members and records as rows.
ghost use Rattle.std.specs.Prelude.{◌≡◌, ◌<◌, ◌≤◌, length, IfOk};
ghost use Rattle.cr_types.specs.Types.{Table};
ghost use Rattle.cr_records.specs.Records.{member_of};
ghost use Rattle.cr_conflicts.specs.Members as conflicts;
ghost use Rattle.cr_bound_facts.specs.Bound.{member_rows, record_tokens};

use cr_base::OutOfMemory;
use cr_conflicts::MemberRow;
use cr_records::{Member, RecordRow, Records};
use std::alloc::Global;

// A member's row: the records that it selects in and is written in, and its token.
fn row_of(member: Member) -> MemberRow
    ensures { (t : Table) → result ≡ conflicts.row_of (member_of t member) }
{
    MemberRow {
        holder: member.holder.number(),
        own: member.own.number(),
        token: member.token,
    }
}

/// All members, in the order in which their names came to select.
pub fn members_of(alloc: Global, records: &Records) -> Result<Vec<MemberRow>, OutOfMemory>
    ensures { IfOk result (λ rows. (t : Table) → rows.items ≡ member_rows t records.now) }
{
    let mut rows = Vec::new(alloc);
    let mut n = 0;
    'each: while n < records.len() {
        rows.push(row_of(records.member(n)))?;
        n += 1;
    }
    Ok(rows)
}

/// The first tokens of all records.
pub fn tokens_of(alloc: Global, records: &[RecordRow]) -> Result<Vec<u32>, OutOfMemory>
    ensures { IfOk result (λ tokens. tokens.items ≡ record_tokens records.now) }
{
    let mut tokens = Vec::new(alloc);
    let mut n = 0;
    'each: while n < records.len() {
        tokens.push(records[n].token)?;
        n += 1;
    }
    Ok(tokens)
}
