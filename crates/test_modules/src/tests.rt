//! The tests.
ghost use Rattle.std.specs.Prelude.{◌≡◌};
ghost use Rattle.pb_machine.specs.InstanceTree.{IsTreeAt};
ghost use Rattle.pb_instances.specs.Seats.{module_of_table, IsSeatOf};

use crate::alone::work_alone;
use crate::modules::all_others;
use crate::steps::{close, finish, give_back, mark, status, take, three_statuses};
use pb_command_solver::{BuiltModule, Crew, build_explored};
use pb_exploration::{Core, Event, Explored, Limits, NoGate, NotAllowed, StepError, explore};
use pb_exploration_reached::explore_reached;
use pb_fixpoint_trees::{IndexedRows, Kind, ReadRows, Token};
use pb_instances::{Marked, Seat, Status, Step, Table};
use pb_machine::Machine;
use pb_sorts::Counting;
use pb_strategy::check;
use pb_verifier::Verified;
use std::process::Abort;
use std::test::Fail;

fn event(worker: u32, step: Step) -> Event {
    Event { worker, step }
}

/// Whether these are the three instances by rising number, each calling the two others.
fn are_all_others(rows: &IndexedRows) -> bool {
    let calls: [[u64; 2]; 3] = [[1, 2], [0, 2], [0, 1]];
    let kinds = [Kind::And, Kind::Call, Kind::Call, Kind::Close];
    if rows.len() != 3 {
        return false;
    }
    for (place, called) in calls.iter().enumerate() {
        let tokens = rows.tokens(place);
        if rows.number(place) != place as u64
            || tokens.kinds() != kinds.as_slice()
            || tokens.calls() != called.as_slice()
        {
            return false;
        }
    }
    true
}

/// Steps at the reference, by workers that take turns, of which there are two: the worker, its
/// step, whether this is allowed, and whether all is settled behind it.
const STEPS: [(u32, Step, bool, bool); 17] = [
    (0, Step::Take(0), true, false),
    (1, Step::Take(0), false, false),
    (1, Step::Mark(1), false, false),
    (0, Step::Mark(1), true, false),
    (0, Step::Mark(1), false, false),
    (0, Step::Finish(0), false, false),
    (0, Step::Mark(2), true, false),
    (0, Step::Finish(0), true, false),
    (1, Step::Take(1), true, false),
    (0, Step::GiveBack(1), false, false),
    (1, Step::GiveBack(1), true, false),
    (0, Step::Take(1), true, false),
    (0, Step::Finish(1), true, false),
    (0, Step::Take(2), true, false),
    (0, Step::Finish(2), true, true),
    (0, Step::Take(3), false, true),
    (2, Step::Take(0), false, true),
];

// A step that isn't allowed changes nothing.
#[test]
fn reference_steps(rt: HostRuntime) -> Result<(), Fail> {
    let alloc = rt.alloc();
    let module = all_others(alloc)?;
    let mut core = Core::start(alloc, &module, 2)?;
    assert!(rt; core.status(module.initial()) == Status::Pending);
    for (worker, step, is_allowed, is_settled) in STEPS {
        let event = event(worker, step);
        let wanted = if is_allowed {
            Ok(())
        } else {
            Err(StepError::Refused(NotAllowed))
        };
        assert!(rt; core.apply(event) == wanted, "{event}");
        assert!(rt; core.settled() == is_settled, "{event}");
    }
    Ok(())
}

// What users see of events and of refused ones.
#[test]
fn events_are_shown(rt: HostRuntime) -> Result<(), Fail> {
    let alloc = rt.alloc();
    let shown = format!(in alloc; "{}", event(1, Step::GiveBack(2)))?;
    assert!(rt; shown.as_str() == "worker 1: give back 2");
    let refused = format!(in alloc; "{} {}", StepError::Refused(NotAllowed), StepError::Memory)?;
    assert!(rt; refused.as_str() == "I01 M01");
    Ok(())
}

/// The first seat takes instance 0, marks what it calls, and finishes it, before the eyes of the
/// second.
fn first_is_finished(
    rt: &impl Abort,
    verified: &Verified,
    table: &Table,
    a: &mut Seat,
    b: &mut Seat,
    tree: &[Token],
)
    requires contents { module_of_table table.now ≡ verified.now }
    requires seats { IsSeatOf table.now a.old × IsSeatOf table.now b.old }
    requires tree { IsTreeAt (module_of_table table.now) 0 tree.now }
    ensures { IsSeatOf table.now a.new × IsSeatOf table.now b.new }
{
    if !take(verified, table, a, 0) {
        panic!(rt; "the first instance is not pending");
    }
    assert!(rt; !take(verified, table, b, 0));
    assert!(rt; mark(table, a, 0, tree, 1) == Some(Marked::New));
    assert!(rt; mark(table, a, 0, tree, 1) == Some(Marked::Known));
    assert!(rt; mark(table, a, 0, tree, 2) == Some(Marked::New));
    assert!(rt; status(verified, table, b, 1) == Some(Status::Pending));
    finish(table, a, 0, tree);
}

/// The second seat takes instance 1, marks a call that is known, and gives the instance back.
fn second_is_given_back(
    rt: &impl Abort,
    verified: &Verified,
    table: &Table,
    a: &mut Seat,
    b: &mut Seat,
    tree: &[Token],
)
    requires contents { module_of_table table.now ≡ verified.now }
    requires seats { IsSeatOf table.now a.old × IsSeatOf table.now b.old }
    requires tree { IsTreeAt (module_of_table table.now) 1 tree.now }
    ensures { IsSeatOf table.now a.new × IsSeatOf table.now b.new }
{
    assert!(rt; status(verified, table, b, 0) == Some(Status::Done));
    if !take(verified, table, b, 1) {
        panic!(rt; "the second instance is not pending");
    }
    assert!(rt; status(verified, table, a, 1) == Some(Status::Taken));
    assert!(rt; mark(table, b, 1, tree, 1) == Some(Marked::Known));
    give_back(table, b, 1);
}

/// The first seat takes instance 1 in its turn, and finishes it.
fn second_is_finished(
    rt: &impl Abort,
    verified: &Verified,
    table: &Table,
    seat: &mut Seat,
    tree: &[Token],
)
    requires seat { IsSeatOf table.now seat.old × (module_of_table table.now ≡ verified.now) }
    requires tree { IsTreeAt (module_of_table table.now) 1 tree.now }
    ensures { IsSeatOf table.now seat.new }
{
    if !take(verified, table, seat, 1) {
        panic!(rt; "the second instance is not pending again");
    }
    assert!(rt; mark(table, seat, 1, tree, 1) == Some(Marked::Known));
    assert!(rt; mark(table, seat, 1, tree, 2) == Some(Marked::Known));
    finish(table, seat, 1, tree);
}

// Two seats step on the words in turn.
#[test]
fn two_seats(rt: HostRuntime) -> Result<(), Fail> {
    let alloc = rt.alloc();
    let module = all_others(alloc)?;
    if module.layout().count() != 3 {
        panic!(rt; "the module has other instances");
    }
    let mut machine = Machine::new(alloc);
    let first = machine.run(alloc, &module, 0)?;
    let second = machine.run(alloc, &module, 1)?;
    let (table, mut seats) = Table::start(alloc, &module, 2)?;
    let (Some(mut b), Some(mut a)) = (seats.pop(), seats.pop()) else {
        panic!(rt; "no two seats");
    };
    let tree = [Token::And, Token::Call(1), Token::Call(2), Token::Close];
    assert!(rt; first.tokens() == tree.as_slice());
    first_is_finished(&rt, &module, &table, &mut a, &mut b, first.tokens());
    let tree = [Token::And, Token::Call(0), Token::Call(2), Token::Close];
    assert!(rt; second.tokens() == tree.as_slice());
    second_is_given_back(&rt, &module, &table, &mut a, &mut b, second.tokens());
    second_is_finished(&rt, &module, &table, &mut a, second.tokens());
    let statuses = close(&module, table, vec![in alloc; a, b]?);
    let wanted = [Status::Done, Status::Done, Status::Pending];
    assert!(rt; three_statuses(&module, &statuses) == Some(wanted));
    assert!(rt; !statuses.settled());
    Ok(())
}

// One worker alone finds all three instances, from the initial one as its only hint, and words that
// are settled give the same rows. Their game is built, solved and checked.
#[test]
fn one_worker(rt: HostRuntime) -> Result<(), Fail> {
    let alloc = rt.alloc();
    let module = all_others(alloc)?;
    let (worked, statuses) = work_alone(alloc, &module)?;
    let rows = worked?;
    assert!(rt; rows.len() == 3);
    let mut seen = [false; 3];
    for place in 0..rows.len() {
        if let Some(flag) = seen.get_mut(rows.number(place) as usize) {
            *flag = true;
        }
    }
    assert!(rt; seen == [true; 3]);
    assert!(rt; three_statuses(&module, &statuses) == Some([Status::Done; 3]));
    if !statuses.settled() {
        panic!(rt; "something is open");
    }
    let gathered = Explored::gather(alloc, &module, &statuses)?;
    assert!(rt; are_all_others(gathered.rows()));
    let crew = Crew {
        rt: &rt,
        alloc,
        workers: 2,
    };
    let BuiltModule { built, .. } = build_explored(&crew, &module, Counting::Declared, gathered)?;
    let solution = pb_zielonka::solve(&rt, alloc, &built.game)?;
    match check(&built.game, &solution) {
        Ok(checked) => assert!(rt; checked.truth(built.start)),
        Err(flaw) => panic!(rt; "{flaw}"),
    }
    Ok(())
}

// After refused memory nothing is taken: the seat gave back what it held and kept what it marked,
// be it at its first, its second or its third instance. `tests/refusals.py` refuses the requests in
// turn, and reads from what is printed at which instance each left the worker.
#[test]
fn worker_without_memory(rt: HostRuntime) -> Result<(), Fail> {
    let alloc = rt.alloc();
    let module = all_others(alloc)?;
    let (worked, statuses) = work_alone(alloc, &module)?;
    let found = three_statuses(&module, &statuses);
    if worked.is_ok() {
        assert!(rt; found == Some([Status::Done; 3]));
        return Ok(());
    }
    let allowed = [
        [Status::Pending, Status::Unseen, Status::Unseen],
        [Status::Done, Status::Pending, Status::Pending],
        [Status::Done, Status::Done, Status::Pending],
        [Status::Done, Status::Pending, Status::Done],
    ];
    let Some(place) = allowed.iter().position(|it| Some(*it) == found) else {
        panic!(rt; "the worker left something else");
    };
    println!(rt; "left {place}")?;
    Ok(())
}

// Any number of workers finds the same rows, whatever the limit of instances.
#[test]
fn many_workers(rt: HostRuntime) -> Result<(), Fail> {
    let alloc = rt.alloc();
    let module = all_others(alloc)?;
    for workers in [1u32, 2, 16] {
        let limits = Limits {
            workers,
            instances: 2,
        };
        let Some(explored) = explore(&rt, alloc, &module, limits, &NoGate)? else {
            panic!(rt; "there is a word for each instance");
        };
        assert!(rt; are_all_others(explored.rows()));
    }
    Ok(())
}

// What keeps only the instances that it finds has the same rows, and ends where these are too many.
#[test]
fn instances_as_they_are_found(rt: HostRuntime) -> Result<(), Fail> {
    let alloc = rt.alloc();
    let module = all_others(alloc)?;
    let Some(rows) = explore_reached(alloc, &module, 3, &NoGate)? else {
        panic!(rt; "three instances are too many");
    };
    assert!(rt; are_all_others(&rows));
    assert!(rt; explore_reached(alloc, &module, 2, &NoGate)?.is_none());
    Ok(())
}
