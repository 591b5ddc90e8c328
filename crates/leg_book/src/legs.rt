// A book that keeps, in memory lent to it, a record for each standing leg.
ghost use Rattle.std.specs.Prelude.{◌≡◌, ℕ, ◌≤◌, true, length, slice_index_or};
ghost use Rattle.plan.specs.Limits.{most_count, most_legs};
ghost use Rattle.book.specs.Meaning.{total};
ghost use Rattle.book.specs.ShownPlan.{shown_of};
ghost use Rattle.leg_book.specs.Records.{count_at, in_plan, legs_meaning, no_record, part_used};

use crate::leg_record::LegRecord;
use book::ShownPlan;

pub mod booked;

// Over too little memory the book bars every leg and writes nothing. `count` is how many legs stand. The first 1,024
// records are scanned; those past them are never read nor written.
#[derive(Drop)]
pub struct LegBook<'a> {
    plan: ShownPlan,
    count: u16,
    records: &'a mut [LegRecord],
    ghost legal: { most_legs ≤ length records.now
        → (k : ℕ) → in_plan (shown_of plan) (slice_index_or (part_used records.now) k no_record) ≡ true },
    ghost small: { most_legs ≤ length records.now → (i e : ℕ) → count_at (part_used records.now) i e ≤ most_count },
    ghost counted: { count ≡ total (legs_meaning (shown_of plan) records.now) },
    ghost few: { count ≤ most_legs },
}
