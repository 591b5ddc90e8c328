// A plan in columns, or a fault in a line.
use plan::{Fault, Plan, Segment, class_speed};
use std::io;

fn print_settings(rt: &impl Print, plan: &Plan) -> io::Result<()> {
    let settings = plan.settings();
    println!(rt; "Settings")?;
    println!(rt; "  slot length {:>7} ms", settings.slot_length)?;
    println!(rt;
        "  density     {:>7} carriers per km and lane",
        settings.density
    )?;
    println!(rt; "  horizon     {:>7} slots", settings.horizon)?;
    println!(rt; "  junctions   {:>7}", settings.junctions)
}

fn print_segment(rt: &impl Print, plan: &Plan, number: u16, segment: Segment) -> io::Result<()> {
    let (Some(travel), Some(critical)) = (plan.travel_slots(number), plan.critical_count(number))
    else {
        return Ok(());
    };
    print!(rt;
        "{number:>7}{:>7}{:>7}{:>10}",
        segment.start, segment.end, segment.length
    )?;
    print!(rt; "{:>7}{:>12}", segment.lanes, class_speed(segment.class))?;
    println!(rt; "{travel:>14}{critical:>16}")
}

fn print_segments(rt: &impl Print, plan: &Plan) -> io::Result<()> {
    println!(rt;
        "Segment  start    end  length m  lanes  speed cm/s  travel slots  critical count"
    )?;
    for (number, segment) in (0..plan.segment_count()).zip(plan.segments()) {
        print_segment(rt, plan, number, *segment)?;
    }
    Ok(())
}

fn print_closures(rt: &impl Print, plan: &Plan) -> io::Result<()> {
    println!(rt; "Closure  segment  first slot  end slot")?;
    for (number, closure) in plan.closures().iter().enumerate() {
        println!(rt;
            "{number:>7}{:>9}{:>12}{:>10}",
            closure.segment, closure.first, closure.end
        )?;
    }
    Ok(())
}

// How many metres the segments have together.
fn total_length(plan: &Plan) -> u64 {
    plan.segments().iter().fold(0u64, |total, segment| {
        total.saturating_add(segment.length as u64)
    })
}

// How many slots the closures cover together, a slot that two cover counted twice.
fn total_closed(plan: &Plan) -> u64 {
    plan.closures().iter().fold(0u64, |total, closure| {
        total.saturating_add(closure.end.saturating_sub(closure.first) as u64)
    })
}

pub(crate) fn print_plan(rt: &impl Print, plan: &Plan, bytes: usize) -> io::Result<()> {
    println!(rt; "Road sheet of {bytes} bytes")?;
    println!(rt)?;
    print_settings(rt, plan)?;
    println!(rt)?;
    print_segments(rt, plan)?;
    println!(rt)?;
    print_closures(rt, plan)?;
    println!(rt)?;
    let segments = plan.segment_count();
    let closures = plan.closure_count();
    let metres = total_length(plan);
    let slots = total_closed(plan);
    println!(rt;
        "Totals: segments {segments} with {metres} m, closures {closures} with {slots} slots"
    )
}

pub(crate) fn print_fault(rt: &impl Print, fault: Fault) -> io::Result<()> {
    let number = fault.refusal.number();
    let section = fault.section.number();
    println!(rt;
        "Refused: {number} {}, section {section}, place {}",
        fault.refusal, fault.place
    )
}
