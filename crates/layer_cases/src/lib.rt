// Layers over a small book with one segment, which is for tests only.
#![tactic(auto)]

#[cfg(test)]
mod piles;
pub mod row;
