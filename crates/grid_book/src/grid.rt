// A book that keeps, in memory lent to it, one byte for each segment and slot: how many legs enter there.
ghost use Rattle.std.specs.Prelude.{◌≡◌, ◌≤◌};
ghost use Rattle.plan.specs.Limits.{most_legs};
ghost use Rattle.book.specs.Meaning.{total};
ghost use Rattle.book.specs.ShownPlan.{shown_of};
ghost use Rattle.grid_book.specs.Grid.{grid_meaning};

use book::ShownPlan;

pub mod booked;

// Over too little memory the book bars every leg and writes nothing. `count` is how many legs stand.
#[derive(Drop)]
pub struct GridBook<'a> {
    plan: ShownPlan,
    count: u16,
    cells: &'a mut [u8],
    ghost counted: { count ≡ total (grid_meaning (shown_of plan) cells.now) },
    ghost few: { count ≤ most_legs },
}
