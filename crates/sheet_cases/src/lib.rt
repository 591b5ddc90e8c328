// Cases of plans and sheets, with expected values worked out by hand.
#![tactic(auto)]

#[cfg(test)]
mod additions;
#[cfg(test)]
mod example;
#[cfg(test)]
mod faults;
#[cfg(test)]
mod limits;
#[cfg(test)]
mod round_trips;
