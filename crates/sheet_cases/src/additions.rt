// Plans begun with settings and extended by single additions.
use plan::{Closure, Fault, Plan, PlanError, Segment, Settings};
use std::alloc::Global;
use std::test::Fail;

const SETTINGS: Settings = Settings {
    slot_length: 1000,
    density: 30,
    horizon: 20,
    junctions: 4,
};

const SEGMENT: Segment = Segment {
    start: 0,
    end: 3,
    length: 45,
    lanes: 1,
    class: 7,
};

const CLOSURE: Closure = Closure {
    segment: 0,
    first: 19,
    end: 20,
};

fn begun(heap: Global) -> Result<Plan, Fail> {
    match Plan::begin(heap, SETTINGS) {
        Ok(plan) => Ok(plan),
        Err(_) => Err(Fail::new("no plan")),
    }
}

// The number of the refusal, where there is one.
fn refused<T: Drop>(added: Result<T, Fault>) -> Option<u8> {
    added.err().map(|fault| fault.refusal.number())
}

fn settings_refused(heap: Global, settings: Settings) -> Result<Option<u8>, Fail> {
    match Plan::begin(heap, settings) {
        Ok(_) => Ok(None),
        Err(PlanError::Refused(fault)) => Ok(Some(fault.refusal.number())),
        Err(PlanError::NoMemory) => Err(Fail::new("no memory")),
    }
}

#[test]
fn settings(rt: HostRuntime) -> Result<(), Fail> {
    let heap = rt.alloc();
    assert_eq!(rt; settings_refused(heap, SETTINGS)?, None);
    let still = Settings {
        slot_length: 0,
        ..SETTINGS
    };
    assert_eq!(rt; settings_refused(heap, still)?, Some(5));
    let far = Settings {
        horizon: 513,
        ..SETTINGS
    };
    assert_eq!(rt; settings_refused(heap, far)?, Some(5));
    let largest = Settings {
        horizon: 512,
        density: 65_535,
        junctions: 64,
        ..SETTINGS
    };
    assert_eq!(rt; settings_refused(heap, largest)?, None);
    let wide = Settings {
        junctions: 65,
        ..largest
    };
    assert_eq!(rt; settings_refused(heap, wide)?, Some(5));
    Ok(())
}

#[test]
fn segments(rt: HostRuntime) -> Result<(), Fail> {
    let mut plan = begun(rt.alloc())?;
    let astray = Segment { end: 4, ..SEGMENT };
    assert_eq!(rt; refused(plan.add_segment(astray)), Some(7));
    let round = Segment { end: 0, ..SEGMENT };
    assert_eq!(rt; refused(plan.add_segment(round)), Some(7));
    let unknown = Segment {
        class: 16,
        ..SEGMENT
    };
    assert_eq!(rt; refused(plan.add_segment(unknown)), Some(7));
    let long = Segment {
        length: 645,
        ..SEGMENT
    };
    assert_eq!(rt; refused(plan.add_segment(long)), Some(8));
    assert_eq!(rt; plan.segment_count(), 0, "a refusal adds nothing");
    for _ in 0..128u8 {
        assert_eq!(rt; refused(plan.add_segment(SEGMENT)), None);
    }
    assert_eq!(rt; refused(plan.add_segment(long)), Some(6), "6 before 8");
    assert_eq!(rt; plan.segment_count(), 128);
    Ok(())
}

#[test]
fn closures(rt: HostRuntime) -> Result<(), Fail> {
    let mut plan = begun(rt.alloc())?;
    assert_eq!(rt;
        refused(plan.add_closure(CLOSURE)),
        Some(9),
        "an unknown segment"
    );
    assert_eq!(rt; refused(plan.add_segment(SEGMENT)), None);
    let empty = Closure {
        first: 20,
        ..CLOSURE
    };
    assert_eq!(rt; refused(plan.add_closure(empty)), Some(9));
    let late = Closure { end: 21, ..CLOSURE };
    assert_eq!(rt; refused(plan.add_closure(late)), Some(9));
    for _ in 0..16u8 {
        assert_eq!(rt; refused(plan.add_closure(CLOSURE)), None);
    }
    assert_eq!(rt; refused(plan.add_closure(CLOSURE)), Some(6));
    assert_eq!(rt; plan.closure_count(), 16);
    Ok(())
}

// Length in metres, travel slots and critical count at 1000 cm/s, 1000 ms, density 30 and one lane.
const WORKED: [(u16, u8, u8); 6] = [
    (4, 1, 0),
    (33, 3, 0),
    (34, 3, 1),
    (44, 4, 1),
    (45, 5, 1),
    (644, 64, 19),
];

#[test]
fn worked_values(rt: HostRuntime) -> Result<(), Fail> {
    let mut plan = begun(rt.alloc())?;
    for (number, (length, travel, critical)) in (0u16..6).zip(WORKED) {
        let segment = Segment { length, ..SEGMENT };
        assert_eq!(rt; refused(plan.add_segment(segment)), None);
        assert_eq!(rt; plan.travel_slots(number), Some(travel));
        assert_eq!(rt; plan.critical_count(number), Some(critical));
    }
    assert_eq!(rt; plan.travel_slots(6), None);
    assert_eq!(rt; plan.critical_count(6), None);
    Ok(())
}
