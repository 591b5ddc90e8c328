// The worked example as a plan, and tests of the search over a grid book and layers.
#![tactic(auto)]

pub mod example;
#[cfg(test)]
mod routes;
