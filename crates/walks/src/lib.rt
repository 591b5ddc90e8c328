// Timed walks, the routes that are chosen among them, and what a search for them keeps.
#![tactic(auto)]

pub mod labels;
pub mod laws;
pub mod requests;

pub use labels::Label;
pub use requests::Request;
