// The road sheet: a plan as bytes.
#![tactic(auto)]

mod checking;
pub mod export;
mod format;
mod head;
mod reading;
mod records;
mod sections;
mod writing;

pub use checking::check;
pub use reading::read;
pub use writing::write;
