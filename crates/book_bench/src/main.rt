// Times the two questions that a search asks most, of both bottom books: by a book's own way, and by the bodies that the
// trait gives. Writes how many entries were found to standard output, and the microseconds to standard error.
#![tactic(auto)]

mod plain;
mod work;

use anyhow::anyhow;
use grid_book::GridBook;
use leg_book::{LegBook, LegRecord};
use plan::{Plan, PlanError, Segment, Settings};
use work::both_ways;

// One road of 64 slots below a horizon of 512, with critical count 1.
const SETTINGS: Settings = Settings {
    slot_length: 1000,
    density: 2,
    horizon: 512,
    junctions: 2,
};

const ROAD: Segment = Segment {
    start: 0,
    end: 1,
    length: 640,
    lanes: 1,
    class: 7,
};

fn run(rt: &HostRuntime) -> anyhow::Result<()> {
    let Ok(mut plan) = Plan::begin(rt.alloc(), SETTINGS) else {
        return Err(anyhow!("no plan"));
    };
    let Ok(_) = plan.add_segment(ROAD) else {
        return Err(anyhow!("no segment"));
    };
    let mut cells = [0u8; 512];
    let mut records = [LegRecord::unused(); 1024];
    both_ways(rt, "grid book", GridBook::new(&plan, &mut cells))?;
    both_ways(rt, "leg book", LegBook::new(&plan, &mut records))
}

fn main(rt: HostRuntime) -> anyhow::Result<()> {
    run(&rt)
}
