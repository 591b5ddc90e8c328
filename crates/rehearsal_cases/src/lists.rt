// The worked example's plan under a closure layer, over a grid book and over a leg book. The layer is put over a book of
// any type: the borrow checker covers no type argument that holds a `&mut` and a struct with a ghost field.
use book::{Book, Leg};
use bookings::{Act, Answer, Call, Exchange};
use grid_book::GridBook;
use layers::ClosureLayer;
use leg_book::{LegBook, LegRecord};
use plan::Plan;
use rehearsal::{rehearse, rehearse_both};
use search::{Label, Request};
use search_cases::example::{CLOSED, ROADS, SETTINGS};
use std::alloc::Global;
use std::process::Abort;
use std::rt::HostRuntime;
use std::test::Fail;

const NO_LABEL: Label = Label {
    slot: 0,
    junction: 0,
};

// As the tests of the search have it: a shared one would be a public function with a contract of its own.
fn example(heap: Global) -> Result<Plan, Fail> {
    let mut plan = Plan::begin(heap, SETTINGS)?;
    for road in ROADS {
        plan.add_segment(road)?;
    }
    plan.add_closure(CLOSED)?;
    Ok(plan)
}

fn from_0_to_3(slot: u16) -> Request {
    Request {
        origin: 0,
        destination: 3,
        slot,
    }
}

fn ask(slot: u16, labels: usize) -> Call {
    Call::Ask(from_0_to_3(slot), labels)
}

fn leg(segment: u16, entry: u16) -> Leg {
    Leg { segment, entry }
}

// Whether the number was granted, with exactly these legs.
fn granted(exchange: Exchange, number: u16, legs: &[Leg]) -> bool {
    match exchange.answer {
        Answer::Granted(given, route) => given == number && route.legs() == legs,
        _ => false,
    }
}

// The number of a refusal.
fn refused(exchange: Exchange) -> Option<u8> {
    match exchange.answer {
        Answer::Refused(refusal) => Some(refusal.number()),
        _ => None,
    }
}

fn done(exchange: Exchange) -> bool {
    matches!(exchange.answer, Answer::Done)
}

fn not_made(exchange: Exchange) -> bool {
    matches!(exchange.answer, Answer::NoToken)
}

// Three grants; 2 is confirmed and can then not be withdrawn; 1 is withdrawn, so that its route is granted again; a scratch with
// four labels is too small; from slot 15 on nothing arrives; 2 arrives; 3 is parked, and can then be taken up once.
fn mixed_list<B: Book + Drop>(
    rt: &impl Abort,
    heap: Global,
    bottom: B,
    plan: &Plan,
) -> Result<(), Fail> {
    let calls = [
        ask(0, 5),
        ask(0, 5),
        ask(0, 9),
        Call::Act(Act::Confirm, 2),
        Call::Act(Act::Withdraw, 1),
        Call::Act(Act::Withdraw, 2),
        ask(0, 4),
        ask(0, 5),
        ask(15, 5),
        Call::Act(Act::Arrive, 2),
        Call::Act(Act::Arrive, 2),
        Call::Act(Act::TakeUpHold, 3),
        Call::Act(Act::ParkHold, 3),
        Call::Act(Act::TakeUpPassage, 3),
        Call::Act(Act::TakeUpHold, 3),
    ];
    let mut scratch = [NO_LABEL; 6];
    let Ok(rehearsal) = rehearse(heap, ClosureLayer::new(bottom, plan), &calls, &mut scratch) else {
        return Err(Fail::new("no memory"));
    };
    let history = rehearsal.history.as_slice();
    assert_eq!(rt; history.len(), 15);
    assert!(rt; granted(history[0], 1, &[leg(0, 0), leg(1, 4)]));
    assert!(rt; granted(history[1], 2, &[leg(2, 0), leg(3, 5)]));
    assert!(rt; granted(history[2], 3, &[leg(0, 4), leg(1, 9)]));
    assert!(rt; done(history[3]));
    assert!(rt; done(history[4]));
    assert!(rt; not_made(history[5]));
    assert_eq!(rt; refused(history[6]), Some(14));
    assert!(rt; granted(history[7], 4, &[leg(0, 0), leg(1, 4)]));
    assert_eq!(rt; refused(history[8]), Some(17));
    assert!(rt; done(history[9]));
    assert!(rt; not_made(history[10]));
    assert_eq!(rt; refused(history[11]), Some(20));
    assert!(rt; done(history[12]));
    assert_eq!(rt; refused(history[13]), Some(20));
    assert!(rt; done(history[14]));
    let tally = rehearsal.controller.tally();
    assert_eq!(rt; tally.granted, 4);
    assert_eq!(rt; tally.standing, 2);
    assert_eq!(rt; tally.withdrawn, 1);
    assert_eq!(rt; tally.arrived, 1);
    let timing = rehearsal.controller.booking(3).ok_or("3 does not stand")?;
    assert_eq!(rt; timing.departure, 4);
    assert_eq!(rt; timing.arrival, 14);
    assert_eq!(rt; timing.legs, 2);
    assert!(rt; rehearsal.controller.booking(2).is_none());
    Ok(())
}

// The second owes the routes of the first in another order, under other numbers: both grant the same third route.
fn alike<A: Book + Drop, B: Book + Drop>(
    rt: &impl Abort,
    heap: Global,
    duty: A,
    standby: B,
    plan: &Plan,
) -> Result<(), Fail> {
    let calls = [ask(0, 5), ask(0, 5)];
    let others = [ask(0, 5), ask(0, 5), Call::Act(Act::Withdraw, 1), ask(0, 5)];
    let mut scratch = [NO_LABEL; 5];
    let Ok(both) = rehearse_both(
        heap,
        ClosureLayer::new(duty, plan),
        ClosureLayer::new(standby, plan),
        &calls,
        &others,
        from_0_to_3(0),
        &mut scratch,
    ) else {
        return Err(Fail::new("no memory"));
    };
    let first = both.first.history.as_slice();
    let second = both.second.history.as_slice();
    assert_eq!(rt; first.len(), 3);
    assert_eq!(rt; second.len(), 5);
    assert!(rt; granted(first[2], 3, &[leg(0, 4), leg(1, 9)]));
    assert!(rt; granted(second[4], 4, &[leg(0, 4), leg(1, 9)]));
    Ok(())
}

#[test]
fn a_mixed_list_over_a_grid_book(rt: HostRuntime) -> Result<(), Fail> {
    let plan = example(rt.alloc())?;
    let mut memory = [0u8; 80];
    mixed_list(&rt, rt.alloc(), GridBook::new(&plan, &mut memory), &plan)
}

#[test]
fn a_mixed_list_over_a_leg_book(rt: HostRuntime) -> Result<(), Fail> {
    let plan = example(rt.alloc())?;
    let mut memory = [LegRecord::unused(); 1024];
    mixed_list(&rt, rt.alloc(), LegBook::new(&plan, &mut memory), &plan)
}

#[test]
fn duty_and_standby_answer_alike(rt: HostRuntime) -> Result<(), Fail> {
    let plan = example(rt.alloc())?;
    let mut cells = [0u8; 80];
    let mut records = [LegRecord::unused(); 1024];
    alike(
        &rt,
        rt.alloc(),
        GridBook::new(&plan, &mut cells),
        LegBook::new(&plan, &mut records),
        &plan,
    )
}
