// The answer's numbers for what was found: code, kind, comment and the table's place.
ghost use Rattle.std.specs.Prelude.{◌≡◌};
ghost use Rattle.state_at.specs.Found.{looked};
ghost use Rattle.answers.specs.Numbers.{looked_up};

use answers::{Answer, Reason, Refusal};
use codes::{comment_of, kind_of};

const UNSETTLED: Refusal = Refusal {
    reason: Reason::Unsettled,
    place: 0,
};

// The numbers of the state that is found, or that a span which is not simple leaves it unsettled.
pub fn numbers_of(found: Option<u32>) -> Answer
    ensures { looked_up result ≡ looked found }
{
    match found {
        Some(state) => {
            let number = u64::from(state);
            Answer {
                code: 0,
                kind: u64::from(kind_of(number)),
                comment: comment_of(number),
                place: 0,
            }
        }
        None => Answer::refused(UNSETTLED),
    }
}
