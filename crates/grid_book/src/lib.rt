// The grid book: one lent byte for each segment and slot of a plan.
#![tactic(auto)]

pub mod grid;

pub use grid::GridBook;
pub use grid::booked::{grid_bytes, memory_suffices};
