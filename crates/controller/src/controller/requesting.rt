// Requests.
ghost use Rattle.std.specs.Prelude.{◌≡◌, length, OnErr};
ghost use Rattle.bookings.specs.Answers.{Decision};
ghost use Rattle.bookings.specs.Steps.{listed};
ghost use Rattle.controller.specs.Requested.{Requested, Untouched};

use super::Controller;
use crate::tokens::Hold;
use book::Book;
use bookings::reserve_all;
use plan::Refusal;
use plan::limits::MOST_LEGS;
use search::{Label, Request, Route, check_request, find_route};

impl<B: Book> Controller<B> {
    // Grants the chosen route: reserves its legs, and answers a hold under the next number. Refused, in this order: 11
    // to 14 as `check_request` has them, 15 where all numbers have been given, 16 where as many bookings stand as may,
    // 17 where no walk exists, 18 where the legs would bring the book above what it may have.
    pub fn request(&mut self, request: Request, scratch: &mut [Label]) -> Result<Hold, Refusal>
        ensures step { Requested
            (B.Book.meaning self.old.book) self.old.register
            request (length scratch.old) result
            (B.Book.meaning self.new.book) self.new.register }
        ensures refused { OnErr result (self.new ≡ self.old) }
        ensures untouched { Untouched
            (B.Book.meaning self.old.book) self.old.register
            request scratch.old scratch.new }
    {
        let route = self.decide(request, scratch)?;
        let number = self.register.enter(route)?;
        reserve_all(&mut self.book, route.legs());
        Ok(Hold::new(number))
    }

    // The route that a request is granted. Nothing is changed but the scratch.
    fn decide(&self, request: Request, scratch: &mut [Label]) -> Result<Route, Refusal>
        ensures decision { Decision (B.Book.meaning self.now.book)
            (length (listed self.now.register)) self.now.register.last
            request (length scratch.old) result }
        ensures untouched { Untouched
            (B.Book.meaning self.now.book) self.now.register
            request scratch.old scratch.new }
    {
        check_request(&self.book, request, scratch)?;
        self.register.check_vacancy()?;
        let route = find_route(&self.book, request, scratch)?;
        if self.book.total() as usize + route.legs().len() > MOST_LEGS as usize {
            return Err(Refusal::TooManyLegs);
        }
        Ok(route)
    }
}
