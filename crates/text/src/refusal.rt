// Refusals: the first question that a call answers no, and what a refused call leaves in lent memory.
ghost use Rattle.std.specs.Prelude.{◌≡◌};
ghost use Rattle.text.specs.Calls.Code.{answer_of, kept_by};

use super::Answer;

// The questions by their numbers, named as in include/console_lines.h.
#[derive(Clone, Copy, PartialEq, Eq, Debug)]
pub enum Refusal {
    LineTooLong = 1,
    ConvTooShort = 2,
    MatchesNotInOrder = 3,
    SpansTooFew = 4,
    OutOfRange = 5,
    RowsTooFew = 6,
    WindowEmpty = 7,
    ClusterWiderThanWindow = 8,
    OutputTooShort = 9,
    ListMalformed = 10,
    TextPassesLastColumn = 11,
    BodyTooLong = 12,
    CellsMalformed = 16,
    ReportTooShort = 17,
    NoSuchReader = 18,
}

impl From<Result<usize, Refusal>> for Answer {
    ghost from_gives = { λ result answer. answer ≡ answer_of result };

    fn from(outcome: Result<usize, Refusal>) -> Answer {
        match outcome {
            Ok(count) => Answer { number: 0, count },
            Err(refusal) => Answer {
                number: refusal as usize,
                count: 0,
            },
        }
    }
}

// Lent memory as the call left it, or blanks throughout where the call is refused.
pub fn clear_refused<T: Copy>(outcome: Result<usize, Refusal>, lent: &mut [T], blank: T)
    ensures { lent.new ≡ kept_by outcome blank lent.old }
{
    if outcome.is_err() {
        buffer::clear(lent, 0, blank);
    }
}
