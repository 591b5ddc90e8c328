// Reads the road sheet `plan.bin` in the current folder and prints the plan that it means, or why it is refused.
#![tactic(auto)]

mod input;
mod report;

use anyhow::anyhow;
use input::read_start;
use plan::PlanError;
use report::{print_fault, print_plan};

// More than any sheet of the format has, so that a longer file is refused for its length.
const MOST_BYTES: usize = 1024;

fn run(rt: &HostRuntime) -> anyhow::Result<()> {
    let mut memory = [0u8; MOST_BYTES];
    let bytes = read_start(rt, "plan.bin", &mut memory)?;
    match sheet::read(rt.alloc(), bytes) {
        Ok(plan) => print_plan(rt, &plan, bytes.len())?,
        Err(PlanError::Refused(fault)) => print_fault(rt, fault)?,
        Err(PlanError::NoMemory) => return Err(anyhow!("no memory for the plan")),
    }
    Ok(())
}

fn main(rt: HostRuntime) -> anyhow::Result<()> {
    run(&rt)
}
