// The leg book: one lent record for each standing leg.
#![tactic(auto)]

pub mod leg_record;
pub mod legs;

pub use leg_record::LegRecord;
pub use legs::LegBook;
pub use legs::booked::memory_suffices;
