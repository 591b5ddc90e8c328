// Routes of the worked example and of a pile over it, and every refusal, with expected values worked out by hand.
use crate::example::{CLOSED, ROADS, SETTINGS};
use book::{Book, Leg};
use grid_book::GridBook;
use layers::{ClosureLayer, HoldBackLayer};
use plan::{Plan, Refusal};
use search::{Label, Request, Route, find_route, next_entry};
use std::alloc::Global;
use std::process::Abort;
use std::rt::HostRuntime;
use std::test::Fail;

const NO_LABEL: Label = Label {
    slot: 7,
    junction: 9,
};

// The tests of rehearsals have it too: a shared one would be a public function with a contract of its own.
fn example(rt: &impl Abort, heap: Global) -> Result<Plan, Fail> {
    let Ok(mut plan) = Plan::begin(heap, SETTINGS) else {
        return Err(Fail::new("no plan"));
    };
    for road in ROADS {
        assert!(rt; plan.add_segment(road).is_ok());
    }
    assert!(rt; plan.add_closure(CLOSED).is_ok());
    Ok(plan)
}

fn ask(origin: u16, destination: u16, slot: u16) -> Request {
    Request {
        origin,
        destination,
        slot,
    }
}

// Searches with the five labels that are just enough, and reserves the legs that it finds.
fn grant<B: Book>(book: &mut B, request: Request) -> Result<Route, Refusal> {
    let mut scratch = [NO_LABEL; 5];
    let route = find_route(book, request, &mut scratch)?;
    for leg in route.legs() {
        book.reserve(*leg)?;
    }
    Ok(route)
}

// Nothing where a route is granted, or the number of the refusal.
fn outcome(answer: Result<Route, Refusal>) -> Result<(), u8> {
    answer.map(|_| ()).map_err(|refusal| refusal.number())
}

fn leg(segment: u16, entry: u16) -> Leg {
    Leg { segment, entry }
}

// A layer over a book with lent memory is made where that book is a type parameter, here and below: the borrow checker
// covers no type argument that holds a `&mut` and a struct with a ghost field.
fn worked_example<B: Book + Drop>(rt: &impl Abort, bottom: B, plan: &Plan) {
    let mut book = ClosureLayer::new(bottom, plan);
    let first = grant(&mut book, ask(0, 3, 0));
    assert!(rt; first.is_ok_and(|route| route.legs() == [leg(0, 0), leg(1, 4)].as_slice()));
    let second = grant(&mut book, ask(0, 3, 0));
    assert!(rt; second.is_ok_and(|route| route.legs() == [leg(2, 0), leg(3, 5)].as_slice()));
    let third = grant(&mut book, ask(0, 3, 0));
    assert!(rt; third.is_ok_and(|route| route.legs() == [leg(0, 4), leg(1, 9)].as_slice()));
}

// Over segments 2 and 3 a carrier that leaves at 11 arrives at 20, the horizon.
fn refusals<B: Book + Drop>(rt: &impl Abort, bottom: B, plan: &Plan) {
    let book = ClosureLayer::new(bottom, plan);
    let mut scratch = [NO_LABEL; 4];
    assert_eq!(rt;
        outcome(find_route(&book, ask(4, 4, 20), &mut scratch)),
        Err(11)
    );
    assert_eq!(rt;
        outcome(find_route(&book, ask(0, 4, 0), &mut scratch)),
        Err(11)
    );
    assert_eq!(rt;
        outcome(find_route(&book, ask(3, 3, 20), &mut scratch)),
        Err(12)
    );
    assert_eq!(rt;
        outcome(find_route(&book, ask(0, 3, 20), &mut scratch)),
        Err(13)
    );
    assert_eq!(rt;
        outcome(find_route(&book, ask(0, 3, 19), &mut scratch)),
        Err(14)
    );
    assert_eq!(rt; scratch, [NO_LABEL; 4]);
    let mut enough = [NO_LABEL; 5];
    assert_eq!(rt;
        outcome(find_route(&book, ask(0, 3, 12), &mut enough)),
        Err(17)
    );
    assert_eq!(rt;
        outcome(find_route(&book, ask(0, 3, 11), &mut enough)),
        Ok(())
    );
    assert_eq!(rt;
        outcome(find_route(&book, ask(3, 0, 0), &mut enough)),
        Err(17)
    );
}

// A leg of segment 1 entered at 10 holds up to slot 14; entered at 11 to 16 it would hold a closed slot, and after that
// it would end past the horizon.
fn entries<B: Book + Drop>(rt: &impl Abort, bottom: B, plan: &Plan) {
    let mut book = ClosureLayer::new(bottom, plan);
    assert_eq!(rt; next_entry(&book, 1, 0), Some(0));
    assert!(rt; book.reserve(leg(1, 3)).is_ok());
    assert_eq!(rt; next_entry(&book, 1, 0), Some(8));
    assert_eq!(rt; next_entry(&book, 1, 10), Some(10));
    assert_eq!(rt; next_entry(&book, 1, 11), None);
    assert_eq!(rt; next_entry(&book, 4, 0), None);
}

// With a critical count of 1 and one held back, no leg is admissible.
fn held_back<B: Book + Drop>(rt: &impl Abort, bottom: B, plan: &Plan) {
    let book = HoldBackLayer::new(ClosureLayer::new(bottom, plan), 1);
    let mut scratch = [NO_LABEL; 5];
    assert_eq!(rt;
        outcome(find_route(&book, ask(0, 3, 0), &mut scratch)),
        Err(17)
    );
}

#[test]
fn the_worked_example(rt: HostRuntime) -> Result<(), Fail> {
    let plan = example(&rt, rt.alloc())?;
    let mut memory = [0u8; 80];
    worked_example(&rt, GridBook::new(&plan, &mut memory), &plan);
    Ok(())
}

#[test]
fn every_refusal(rt: HostRuntime) -> Result<(), Fail> {
    let plan = example(&rt, rt.alloc())?;
    let mut memory = [0u8; 80];
    refusals(&rt, GridBook::new(&plan, &mut memory), &plan);
    Ok(())
}

#[test]
fn the_next_entry_past_legs_and_closures(rt: HostRuntime) -> Result<(), Fail> {
    let plan = example(&rt, rt.alloc())?;
    let mut memory = [0u8; 80];
    entries(&rt, GridBook::new(&plan, &mut memory), &plan);
    Ok(())
}

#[test]
fn nothing_left_under_a_hold_back(rt: HostRuntime) -> Result<(), Fail> {
    let plan = example(&rt, rt.alloc())?;
    let mut memory = [0u8; 80];
    held_back(&rt, GridBook::new(&plan, &mut memory), &plan);
    Ok(())
}
