// How a route is made.
ghost use Rattle.std.specs.Prelude.{◌≡◌, ◌<◌, [], ◌∷◌, length};
ghost use Rattle.plan.specs.Limits.{most_junctions};
ghost use Rattle.search.specs.Routes.{legs_of};

use super::Route;
use book::Leg;

impl Route {
    pub(crate) fn empty() -> Route
        ensures { legs_of result ≡ [] }
    {
        let none = Leg {
            segment: 0,
            entry: 0,
        };
        Route {
            legs: [none; 64],
            first: 64,
        }
    }

    // One leg more, before the others.
    pub(crate) fn put_first(&mut self, leg: Leg)
        requires { length (legs_of self.old) < most_junctions }
        ensures { legs_of self.new ≡ leg ∷ legs_of self.old }
    {
        self.first -= 1;
        self.legs[self.first] = leg;
    }
}
