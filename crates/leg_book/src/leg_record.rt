// One record of a leg book.
ghost use Rattle.std.specs.Prelude.{◌≡◌};
ghost use Rattle.leg_book.specs.Records.{no_record};

use book::Leg;

// A record in use has a standing leg.
#[derive(Clone, Copy)]
pub struct LegRecord {
    pub(crate) leg: Option<Leg>,
}

impl LegRecord {
    // A record that is not in use, to make memory of.
    pub fn unused() -> LegRecord
        ensures { result ≡ no_record }
    {
        LegRecord { leg: None }
    }
}
