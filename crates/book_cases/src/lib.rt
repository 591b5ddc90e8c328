// Cases of the two bottom books, with expected values worked out by hand.
#![tactic(auto)]

#[cfg(test)]
mod alike;
#[cfg(test)]
mod full;
#[cfg(test)]
mod memory;
#[cfg(test)]
mod roads;
pub mod short;
