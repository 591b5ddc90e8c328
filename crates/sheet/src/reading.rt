// Reading a sheet.
ghost use Rattle.std.specs.Prelude.{◌≡◌, Ok};
ghost use Rattle.plan.specs.Content.{Fits, bare, content};
ghost use Rattle.sheet.specs.Reads.{Reads};
ghost use Rattle.sheet.specs.Splits.{sections_content};

use crate::checking::check_sections;
use crate::head::split;
use crate::records::Parts;
use crate::sections::Sections;
use plan::{Closure, Fault, Plan, PlanError, Segment};
use std::alloc::Global;

// Fills a plan just begun with the sections of a sheet that has been checked.
fn fill(plan: &mut Plan, sections: Sections<'_>) -> Result<(), Fault>
    requires begun { content plan.old ≡ bare sections.settings }
    requires fits { Fits (sections_content sections) }
    ensures done { result ≡ Ok tt }
    ensures after { content plan.new ≡ sections_content sections.entry }
{
    for segment in Parts::<Segment, _>::of(sections.segments) {
        plan.add_segment(segment)?;
    }
    for closure in Parts::<Closure, _>::of(sections.closures) {
        plan.add_closure(closure)?;
    }
    Ok(())
}

// The plan that a sheet means, or its first fault. Memory is wanted only for a sheet that has none.
pub fn read(heap: Global, bytes: &[u8]) -> Result<Plan, PlanError>
    ensures { Reads bytes.now result }
{
    let sections = split(bytes)?;
    check_sections(sections)?;
    let mut plan = Plan::begin(heap, sections.settings)?;
    fill(&mut plan, sections)?;
    Ok(plan)
}
