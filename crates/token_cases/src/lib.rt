// A client that follows a booking by its tokens, over any book. It lets none go: whoever calls it has the token after.
#![tactic(auto)]

ghost use Rattle.std.specs.Prelude.{◌≡◌};
ghost use Rattle.token_cases.specs.Tokens.{SetsOut};
ghost use Rattle.token_cases.specs.declared.NotUnderWay.TheVariants as not_under_way;

use book::Book;
use controller::{Controller, Hold, Passage};
use plan::Refusal;
use search::{Label, Request};

// Why a carrier is not under way: its request was refused, or it is held and its confirmation was.
pub enum NotUnderWay {
    Refused(Refusal),
    Held(Refusal, Hold),
}

impl From<Refusal> for NotUnderWay {
    ghost from_gives = { λ refusal why. why ≡ not_under_way.Refused refusal };

    fn from(refusal: Refusal) -> NotUnderWay {
        NotUnderWay::Refused(refusal)
    }
}

impl From<(Refusal, Hold)> for NotUnderWay {
    ghost from_gives = { λ back why. why ≡ not_under_way.Held back.0 back.1 };

    fn from((refusal, hold): (Refusal, Hold)) -> NotUnderWay {
        NotUnderWay::Held(refusal, hold)
    }
}

// Asks for a route and confirms it at once.
pub fn set_out<B: Book>(
    controller: &mut Controller<B>,
    request: Request,
    scratch: &mut [Label],
) -> Result<Passage, NotUnderWay>
    ensures { SetsOut controller.old.register.last result }
{
    let hold = controller.request(request, scratch)?;
    let passage = controller.confirm(hold)?;
    Ok(passage)
}
