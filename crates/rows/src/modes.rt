// The modes of wrapping, and question 5.
ghost use Rattle.rows.specs.Calls.{mode_and_width};
ghost use Rattle.rows.specs.Modes.{Numbered, Asked};
ghost use Rattle.std.specs.Prelude.{◌≡◌};

use text::Refusal;

// The greatest width that question 5 admits.
pub const MAX_WIDTH: usize = 65535;

// WrappingMode, and the two modes that count the columns drawn.
#[derive(Clone, Copy, PartialEq, Eq, Debug)]
pub enum Mode {
    Unwrapped = 0,
    GraphemeBoundary = 1,
    WordBoundary = 2,
    GraphemeBoundaryDrawn = 3,
    WordBoundaryDrawn = 4,
}

impl TryFrom<usize> for Mode {
    type Error = Refusal;

    ghost try_from_gives = { Numbered };

    fn try_from(number: usize) -> Result<Self, Refusal> {
        match number {
            0 => Ok(Mode::Unwrapped),
            1 => Ok(Mode::GraphemeBoundary),
            2 => Ok(Mode::WordBoundary),
            3 => Ok(Mode::GraphemeBoundaryDrawn),
            4 => Ok(Mode::WordBoundaryDrawn),
            _ => Err(Refusal::OutOfRange),
        }
    }
}

// Question 5: the mode with a number.
pub fn mode_and_width(mode: usize, width: usize) -> Result<Mode, Refusal>
    ensures { Asked mode width result }
{
    if MAX_WIDTH < width {
        return Err(Refusal::OutOfRange);
    }
    Mode::try_from(mode)
}
