ghost use Rattle.std.specs.Prelude.{◌≤◌};

use crate::{Core, Grant, Happened, Reply, Why};
use std::alloc::Global;
use std::test::Fail;

// Makes the call of an entry, where its condition holds, and compares the reply.
fn happens(core: &mut Core, entry: Happened) -> bool {
    match entry {
        Happened::Assigned(worker, unit, attempt) => {
            asks(core, worker) == Some(Grant::Work(unit, attempt))
        }
        Happened::Finished(worker) => asks(core, worker) == Some(Grant::Finished),
        Happened::Answered(worker, unit, reply) => {
            core.held(worker) == Some(unit) && core.answer(worker, unit) == reply
        }
        Happened::Lost(worker, unit, why) => loses(core, worker, unit, why),
    }
}

fn asks(core: &mut Core, worker: u32) -> Option<Grant> {
    if worker < 16 && core.held(worker).is_none() {
        Some(core.assign(worker))
    } else {
        None
    }
}

fn loses(core: &mut Core, worker: u32, unit: u32, why: Why) -> bool {
    let may_lose = why != Why::Cancelled || core.beat(unit);
    if may_lose && core.held(worker) == Some(unit) {
        core.lose(worker, unit, why);
        true
    } else {
        false
    }
}

fn first_wrong(
    alloc: Global,
    units: u32,
    retries: u32,
    table: &[Happened],
) -> Result<Option<usize>, Fail>
    requires { (units ≤ 16384) × (retries ≤ 8) }
{
    let mut core = Core::start(alloc, units, retries)?;
    for (i, entry) in table.iter().enumerate() {
        if !happens(&mut core, *entry) {
            return Ok(Some(i));
        }
    }
    Ok(None)
}

#[test]
fn each_list_of_events_is_replayed(rt: HostRuntime) -> Result<(), Fail> {
    let losses_and_a_backup = [
        Happened::Assigned(0, 0, 0),
        Happened::Assigned(1, 1, 0),
        Happened::Lost(0, 0, Why::Struck),
        Happened::Assigned(0, 1, 1),
        Happened::Answered(1, 1, Reply::First),
        Happened::Lost(0, 1, Why::Cancelled),
        Happened::Finished(0),
        Happened::Finished(1),
    ];
    let a_repeated_answer = [
        Happened::Assigned(0, 0, 0),
        Happened::Assigned(1, 0, 1),
        Happened::Answered(0, 0, Reply::First),
        Happened::Answered(1, 0, Reply::Repeat),
        Happened::Finished(0),
    ];
    let spent_after_its_retries = [
        Happened::Assigned(0, 0, 0),
        Happened::Lost(0, 0, Why::Struck),
        Happened::Assigned(1, 0, 1),
        Happened::Lost(1, 0, Why::Struck),
        Happened::Finished(0),
    ];
    let dry_at_once = [
        Happened::Assigned(3, 0, 0),
        Happened::Lost(3, 0, Why::Memory),
        Happened::Finished(3),
    ];
    assert_eq!(&rt; first_wrong(rt.alloc(), 2, 0, &losses_and_a_backup)?, None);
    assert_eq!(&rt; first_wrong(rt.alloc(), 1, 2, &a_repeated_answer)?, None);
    assert_eq!(&rt;
        first_wrong(rt.alloc(), 1, 1, &spent_after_its_retries)?,
        None
    );
    assert_eq!(&rt; first_wrong(rt.alloc(), 1, 8, &dry_at_once)?, None);
    Ok(())
}

#[test]
fn an_absent_unit_is_not_answered(rt: HostRuntime) -> Result<(), Fail> {
    let core = Core::start(rt.alloc(), 1, 0)?;
    assert!(&rt; !core.beat(0) && !core.beat(7));
    Ok(())
}
