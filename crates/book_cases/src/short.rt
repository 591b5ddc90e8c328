// Over too little memory nothing is written, to the end of the loan.
ghost use Rattle.std.specs.Prelude.{◌≡◌, ◌<◌, length};
ghost use Rattle.plan.specs.Content.{content};
ghost use Rattle.plan.specs.Limits.{most_legs};
ghost use Rattle.book.specs.Shown.{plan_shown};
ghost use Rattle.grid_book.specs.Grid.{bytes_of};

use book::{Book, Leg};
use grid_book::GridBook;
use leg_book::{LegBook, LegRecord};
use plan::Plan;

// Makes a grid book and calls it.
pub fn grid_calls(plan: &Plan, memory: &mut [u8], leg: Leg)
    ensures { length memory.old < bytes_of (plan_shown (content plan.now))
        → memory.new ≡ memory.old }
{
    let mut book = GridBook::new(plan, memory);
    let _ = book.reserve(leg);
    let _ = book.free(leg);
}

// Makes a leg book and calls it.
pub fn legs_calls(plan: &Plan, memory: &mut [LegRecord], leg: Leg)
    ensures { length memory.old < most_legs → memory.new ≡ memory.old }
{
    let mut book = LegBook::new(plan, memory);
    let _ = book.reserve(leg);
    let _ = book.free(leg);
}
