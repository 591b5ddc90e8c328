// What is asked of a controller, and what it answers.
use crate::states::Act;
use plan::Refusal;
use search::{Request, Route};

// A request, with how many labels the scratch lent with it has; or an act on the booking with a number.
#[derive(Clone, Copy)]
pub enum Call {
    Ask(Request, usize),
    Act(Act, u16),
}

// A number with its route, or that the act was done, or why not. An act that takes a token is not made where the caller
// has no such token.
#[derive(Clone, Copy)]
pub enum Answer {
    Granted(u16, Route),
    Done,
    Refused(Refusal),
    NoToken,
}

#[derive(Clone, Copy)]
pub struct Exchange {
    pub call: Call,
    pub answer: Answer,
}
