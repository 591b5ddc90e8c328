// Layers: books over any other book. The legs that stand in a layer are those that stand below.
// Each layer writes out the calls that it hands down. An impl of `Book` for all that lend the book below would want of each
// layer, beside the two ghost members, what its calls leave of a lent `&mut` book and a law for each call: that is longer.
#![tactic(auto)]

pub mod closures;
pub mod hold_back;

pub use closures::ClosureLayer;
pub use hold_back::HoldBackLayer;
