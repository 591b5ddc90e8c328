// Plans for the cases. A slot is one second, and each segment has 10 metres a second: 30 metres take 3 slots.
use book::Leg;
use plan::{Closure, Plan, Segment, Settings};
use std::alloc::Global;
use std::process::Abort;
use std::test::Fail;

pub fn leg(segment: u16, entry: u16) -> Leg {
    Leg { segment, entry }
}

// So many lanes of 30 metres have, with 40 carriers per kilometre and lane, a critical count of 1.2 for each lane,
// rounded down, and of at most 255.
fn road(lanes: u8) -> Segment {
    Segment {
        start: 0,
        end: 1,
        length: 30,
        lanes,
        class: 7,
    }
}

// A horizon of 10 slots, and two segments with this many lanes. The first is closed in the slots 4 and 5.
pub fn plan_with(rt: &impl Abort, heap: Global, first: u8, second: u8) -> Result<Plan, Fail> {
    let settings = Settings {
        slot_length: 1000,
        density: 40,
        horizon: 10,
        junctions: 2,
    };
    let closure = Closure {
        segment: 0,
        first: 4,
        end: 6,
    };
    let Ok(mut plan) = Plan::begin(heap, settings) else {
        return Err(Fail::new("no plan"));
    };
    assert!(rt; plan.add_segment(road(first)).is_ok());
    assert!(rt; plan.add_segment(road(second)).is_ok());
    assert!(rt; plan.add_closure(closure).is_ok());
    Ok(plan)
}
