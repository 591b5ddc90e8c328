// The road plan: its settings, segments and closures, and what follows from them.
#![tactic(auto)]

mod critical;
pub mod laws;
pub mod limits;
pub mod parts;
pub mod ranges;
pub mod refusals;
pub mod road_plan;
mod travel;

pub use parts::{Closure, Segment, Setting, Settings};
pub use refusals::{Fault, PlanError, Refusal, Section};
pub use road_plan::Plan;
pub use travel::class_speed;
