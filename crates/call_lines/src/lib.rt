// The lines of calls, one line at a time: which bytes spell which call, and where a line breaks the form.
#![tactic(auto)]

mod calls;
pub mod laws;
mod parsing;
#[cfg(test)]
mod tests;
mod words;

pub use calls::LineCall;
pub use parsing::{LONGEST, parse};
