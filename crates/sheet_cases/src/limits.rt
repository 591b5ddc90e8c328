// Sheets at the limits of the format.
use plan::Fault;
use std::alloc::{AllocError, Global};
use std::process::Abort;
use std::test::Fail;

// Slots of 65,535 ms, density 65,535, horizon 512, 64 junctions; every segment runs from 62 to 63 with 65,535 m, 255
// lanes and class 15, every closure covers the last slot of segment 127.
fn largest(heap: Global, segments: u32, closures: u32) -> Result<Vec<u8>, AllocError> {
    let segments_extent = segments.saturating_mul(6);
    let closures_extent = closures.saturating_mul(5);
    let mut bytes = Vec::new(heap);
    bytes.extend_from_slice(&[1, 3, 0, 0, 0, 26, 0, 0, 0, 7, 0, 0, 0, 33])?;
    bytes.extend_from_slice(&segments_extent.to_be_bytes())?;
    bytes.extend_from_slice(&segments_extent.saturating_add(33).to_be_bytes())?;
    bytes.extend_from_slice(&closures_extent.to_be_bytes())?;
    bytes.extend_from_slice(&[255, 255, 255, 255, 2, 0, 64])?;
    for _ in 0..segments {
        bytes.extend_from_slice(&[62, 63, 255, 255, 255, 15])?;
    }
    for _ in 0..closures {
        bytes.extend_from_slice(&[127, 1, 255, 2, 0])?;
    }
    Ok(bytes)
}

fn is_fault(
    rt: &impl Abort,
    fault: Option<Fault>,
    number: u8,
    section: u8,
    place: u32,
) -> Result<(), Fail> {
    let Some(fault) = fault else {
        return Err(Fail::new("no fault"));
    };
    assert_eq!(rt; fault.refusal.number(), number);
    assert_eq!(rt; fault.section.number(), section);
    assert_eq!(rt; fault.place, place);
    Ok(())
}

#[test]
fn largest_sheet(rt: HostRuntime) -> Result<(), Fail> {
    let heap = rt.alloc();
    let bytes = largest(heap, 128, 16)?;
    assert_eq!(rt; bytes.len(), 881);
    assert!(rt; sheet::check(&bytes).is_none());
    let Ok(plan) = sheet::read(heap, &bytes) else {
        return Err(Fail::new("no plan"));
    };
    assert_eq!(rt; plan.segment_count(), 128);
    assert_eq!(rt; plan.closure_count(), 16);
    assert_eq!(rt; plan.travel_slots(127), Some(50));
    assert_eq!(rt; plan.critical_count(127), Some(255));
    Ok(())
}

#[test]
fn one_record_too_many(rt: HostRuntime) -> Result<(), Fail> {
    let heap = rt.alloc();
    is_fault(&rt, sheet::check(&largest(heap, 129, 0)?), 4, 0, 10)?;
    is_fault(&rt, sheet::check(&largest(heap, 128, 17)?), 4, 0, 18)
}

// The last records of the largest sheet stand at 33 + 127 * 6 = 795 and 801 + 15 * 5 = 876.
#[test]
fn last_records(rt: HostRuntime) -> Result<(), Fail> {
    let mut bytes = largest(rt.alloc(), 128, 16)?;
    assert!(rt; bytes.len() == 881);
    bytes[880] = 1;
    is_fault(&rt, sheet::check(&bytes), 9, 3, 876)?;
    bytes[800] = 0;
    is_fault(&rt, sheet::check(&bytes), 8, 2, 795)?;
    bytes[799] = 0;
    is_fault(&rt, sheet::check(&bytes), 7, 2, 795)
}

// Neither segments nor closures, and closures of no segment.
#[test]
fn smallest_sheets(rt: HostRuntime) -> Result<(), Fail> {
    let heap = rt.alloc();
    assert!(rt; sheet::check(&largest(heap, 0, 0)?).is_none());
    is_fault(&rt, sheet::check(&largest(heap, 0, 1)?), 9, 3, 33)
}
