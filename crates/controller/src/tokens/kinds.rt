// The kinds of tokens, by what the booking is while its token is out.
ghost use Rattle.bookings.specs.declared.states.Act.{Act};
ghost use Rattle.bookings.specs.declared.states.Act.TheVariants as act;
ghost use Rattle.controller.specs.Kinds.{ActsOfKind, acts_of_holds, acts_of_passages};

use bookings::Act;

// The acts that park a token of the kind, take it up again, and end its booking.
pub trait Kind {
    ghost PARK: { Act };

    ghost TAKE_UP: { Act };

    ghost END: { Act };

    ghost acts: { ActsOfKind PARK TAKE_UP END };

    const PARK: Act;

    const TAKE_UP: Act;

    const END: Act;
}

pub struct Held;

impl Kind for Held {
    ghost PARK = { act.ParkHold };

    ghost TAKE_UP = { act.TakeUpHold };

    ghost END = { act.Withdraw };

    ghost acts = { acts_of_holds };

    const PARK: Act = Act::ParkHold;

    const TAKE_UP: Act = Act::TakeUpHold;

    const END: Act = Act::Withdraw;
}

pub struct UnderWay;

impl Kind for UnderWay {
    ghost PARK = { act.ParkPassage };

    ghost TAKE_UP = { act.TakeUpPassage };

    ghost END = { act.Arrive };

    ghost acts = { acts_of_passages };

    const PARK: Act = Act::ParkPassage;

    const TAKE_UP: Act = Act::TakeUpPassage;

    const END: Act = Act::Arrive;
}
