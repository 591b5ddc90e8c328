// Lists of calls on controllers: on one, and on two side by side.
#![tactic(auto)]

pub mod both;
mod caller;
pub mod rehearsing;
mod run;
mod tokens;

pub use both::{Both, rehearse_both};
pub use rehearsing::{Rehearsal, rehearse};
