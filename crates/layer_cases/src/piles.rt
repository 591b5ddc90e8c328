// Layers and piles of layers, with expected values worked out by hand. The row book has one segment, which takes 3
// slots, below a horizon of 20: the last entry is 17.
use crate::row::RowBook;
use book::{Book, Leg};
use layers::{ClosureLayer, HoldBackLayer};
use plan::{Closure, Plan, Refusal, Segment, Settings};
use std::alloc::Global;
use std::process::Abort;
use std::test::Fail;

fn leg(entry: u16) -> Leg {
    Leg { segment: 0, entry }
}

// The answer of a call, with the number of a refusal.
fn numbered(answer: Result<(), Refusal>) -> Result<(), u8> {
    answer.map_err(Refusal::number)
}

fn closure(segment: u16, first: u16, end: u16) -> Closure {
    Closure {
        segment,
        first,
        end,
    }
}

// A plan with these closures and two segments, so that one of the two is unknown to the row book.
fn plan_with(rt: &impl Abort, heap: Global, closures: &[Closure]) -> Result<Plan, Fail> {
    let settings = Settings {
        slot_length: 1000,
        density: 50,
        horizon: 20,
        junctions: 2,
    };
    let road = Segment {
        start: 0,
        end: 1,
        length: 45,
        lanes: 1,
        class: 7,
    };
    let Ok(mut plan) = Plan::begin(heap, settings) else {
        return Err(Fail::new("no plan"));
    };
    assert!(rt; plan.add_segment(road).is_ok());
    assert!(rt; plan.add_segment(road).is_ok());
    for closure in closures {
        assert!(rt; plan.add_closure(*closure).is_ok());
    }
    Ok(plan)
}

#[test]
fn hold_back_lowers_the_count(rt: HostRuntime) {
    let mut layer = HoldBackLayer::new(RowBook::new(3, 2), 1);
    assert_eq!(rt; layer.segment(0), Some((0, 1, 3, 1)));
    assert_eq!(rt; numbered(layer.reserve(leg(5))), Ok(()));
    for entry in 0..20u16 {
        assert_eq!(rt;
            layer.admissible(leg(entry)),
            entry <= 2 || entry >= 8 && entry <= 17
        );
    }
    assert_eq!(rt; numbered(layer.reserve(leg(7))), Err(21));
    assert_eq!(rt; layer.total(), 1);
}

#[test]
fn hold_back_of_all(rt: HostRuntime) {
    let mut row = RowBook::new(3, 255);
    assert_eq!(rt; numbered(row.reserve(leg(4))), Ok(()));
    let mut layer = HoldBackLayer::new(row, 255);
    for entry in 0..20u16 {
        assert!(rt; !layer.admissible(leg(entry)));
    }
    assert_eq!(rt; numbered(layer.reserve(leg(9))), Err(21));
    assert_eq!(rt; layer.standing(leg(4)), 1);
    assert_eq!(rt; numbered(layer.free(leg(4))), Ok(()));
    assert_eq!(rt; numbered(layer.free(leg(4))), Err(23));
    assert_eq!(rt; layer.total(), 0);
}

// Closed are the slots 5 to 9. The leg with entry 2 ends where that begins.
#[test]
fn closures_that_touch_and_overlap(rt: HostRuntime) -> Result<(), Fail> {
    let closures = [closure(0, 5, 8), closure(0, 8, 10), closure(0, 7, 9)];
    let plan = plan_with(&rt, rt.alloc(), &closures)?;
    let mut layer = ClosureLayer::new(RowBook::new(3, 1), &plan);
    for entry in 0..20u16 {
        assert_eq!(rt;
            layer.admissible(leg(entry)),
            entry <= 2 || entry >= 10 && entry <= 17
        );
    }
    assert_eq!(rt; numbered(layer.reserve(leg(3))), Err(21));
    assert_eq!(rt; numbered(layer.reserve(leg(2))), Ok(()));
    assert_eq!(rt; numbered(layer.reserve(leg(2))), Err(21));
    Ok(())
}

#[test]
fn closure_of_an_unknown_segment(rt: HostRuntime) -> Result<(), Fail> {
    let plan = plan_with(&rt, rt.alloc(), &[closure(1, 0, 20)])?;
    let layer = ClosureLayer::new(RowBook::new(3, 1), &plan);
    for entry in 0..20u16 {
        assert_eq!(rt; layer.admissible(leg(entry)), entry <= 17);
        assert!(rt; !layer.admissible(Leg { segment: 1, entry }));
    }
    Ok(())
}

// The slots 5 to 7 are closed, and one leg holds a slot at a time.
fn answers_of_a_pile<B: Book>(rt: &impl Abort, pile: &mut B) {
    assert_eq!(rt; numbered(pile.reserve(leg(0))), Ok(()));
    assert_eq!(rt; numbered(pile.reserve(leg(0))), Err(21));
    assert_eq!(rt; numbered(pile.reserve(leg(8))), Ok(()));
    for entry in 0..20u16 {
        assert_eq!(rt; pile.admissible(leg(entry)), entry >= 11 && entry <= 17);
    }
    assert_eq!(rt; numbered(pile.free(leg(0))), Ok(()));
    assert_eq!(rt; numbered(pile.free(leg(0))), Err(23));
    for entry in 0..20u16 {
        assert_eq!(rt;
            pile.admissible(leg(entry)),
            entry <= 2 || entry >= 11 && entry <= 17
        );
    }
    assert_eq!(rt; pile.total(), 1);
}

#[test]
fn both_piles_answer_alike(rt: HostRuntime) -> Result<(), Fail> {
    let plan = plan_with(&rt, rt.alloc(), &[closure(0, 5, 8)])?;
    let mut closed = ClosureLayer::new(HoldBackLayer::new(RowBook::new(3, 2), 1), &plan);
    answers_of_a_pile(&rt, &mut closed);
    let mut lowered = HoldBackLayer::new(ClosureLayer::new(RowBook::new(3, 2), &plan), 1);
    answers_of_a_pile(&rt, &mut lowered);
    Ok(())
}
