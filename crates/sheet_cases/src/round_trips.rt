// Reading and writing undo each other, and writing touches nothing but the sheet's bytes.
use crate::example::SHEET;
use plan::{Closure, Plan, PlanError, Segment, Settings};
use std::alloc::Global;
use std::test::Fail;

fn example(heap: Global) -> Result<Plan, Fail> {
    match sheet::read(heap, &SHEET) {
        Ok(plan) => Ok(plan),
        Err(_) => Err(Fail::new("no plan")),
    }
}

#[test]
fn read_then_written(rt: HostRuntime) -> Result<(), Fail> {
    let plan = example(rt.alloc())?;
    let mut memory = [170u8; 70];
    let Ok(count) = sheet::write(&plan, &mut memory) else {
        return Err(Fail::new("not written"));
    };
    assert_eq!(rt; count, 62);
    assert!(rt; memory[0..62] == SHEET[0..62]);
    assert!(rt; memory[62..70] == [170u8; 8]);
    Ok(())
}

#[test]
fn memory_of_that_size(rt: HostRuntime) -> Result<(), Fail> {
    let plan = example(rt.alloc())?;
    let mut exact = [170u8; 62];
    assert!(rt; sheet::write(&plan, &mut exact).is_ok());
    assert!(rt; exact == SHEET);
    let mut short = [170u8; 61];
    let Err(fault) = sheet::write(&plan, &mut short) else {
        return Err(Fail::new("written"));
    };
    assert_eq!(rt; fault.refusal.number(), 10);
    assert_eq!(rt; fault.section.number(), 0);
    assert_eq!(rt; fault.place, 0);
    assert!(rt; short == [170u8; 61]);
    Ok(())
}

fn drawn(heap: Global) -> Result<Plan, PlanError> {
    let mut plan = Plan::begin(
        heap,
        Settings {
            slot_length: 250,
            density: 400,
            horizon: 300,
            junctions: 3,
        },
    )?;
    let _ = plan.add_segment(Segment {
        start: 2,
        end: 0,
        length: 258,
        lanes: 3,
        class: 15,
    });
    let _ = plan.add_closure(Closure {
        segment: 0,
        first: 257,
        end: 300,
    });
    Ok(plan)
}

#[test]
fn written_then_read(rt: HostRuntime) -> Result<(), Fail> {
    let heap = rt.alloc();
    let Ok(plan) = drawn(heap) else {
        return Err(Fail::new("no plan"));
    };
    let mut memory = [0u8; 44];
    assert!(rt; sheet::write(&plan, &mut memory).is_ok());
    assert!(rt; memory[26..44] == [0, 250, 1, 144, 1, 44, 3, 2, 0, 1, 2, 3, 15, 0, 1, 1, 1, 44]);
    let Ok(again) = sheet::read(heap, &memory) else {
        return Err(Fail::new("not read"));
    };
    assert_eq!(rt; again.settings().density, 400);
    let Some(segment) = again.segment(0) else {
        return Err(Fail::new("no segment"));
    };
    assert_eq!(rt; segment.length, 258);
    assert_eq!(rt; segment.start, 2);
    let Some(closure) = again.closure(0) else {
        return Err(Fail::new("no closure"));
    };
    assert_eq!(rt; closure.first, 257);
    assert!(rt; again.closure(1).is_none());
    Ok(())
}
