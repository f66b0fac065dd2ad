// Widths tried one after the other, from 1 up.
ghost use Rattle.std.specs.Prelude.{◌≡◌, ◌≤◌};
ghost use Rattle.rows.specs.Widths.{WidthsAsked, rows_at, fits_at, tried_from, widths_to};
ghost use Rattle.rows.specs.Wrap.{SpansRoom, beginning};

use super::modes::{MAX_WIDTH, Mode};
use super::wrap::{WrapState, Wrapping, make_wrap};
use spans::Span;
use text::Refusal;

// The greatest number of rows that `narrowest` admits.
const MAX_ROWS: usize = 65535;

// Question 5 of `narrowest`: the mode with a number, which is 1 or 2.
pub(crate) fn mode_rows_and_width(
    mode: usize,
    wanted: usize,
    greatest: usize,
) -> Result<Mode, Refusal>
    ensures { WidthsAsked mode wanted greatest result }
{
    if (wanted < 1) | (MAX_ROWS < wanted) | (greatest < 1) | (MAX_WIDTH < greatest) {
        return Err(Refusal::OutOfRange);
    }
    match mode {
        1 => Ok(Mode::GraphemeBoundary),
        2 => Ok(Mode::WordBoundary),
        _ => Err(Refusal::OutOfRange),
    }
}

// How many rows the spans of a line take at a width, wrapped without row memory.
fn rows_at(spans: &[Span], line: &[u8], mode: usize, width: usize) -> usize
    requires { SpansRoom spans.now line.now (beginning 0 0) }
    ensures { result ≡ rows_at mode line.now spans.now width }
{
    let wrapping = Wrapping::at(width, mode);
    make_wrap(spans, line, &mut [], wrapping, WrapState::begin(0, 0)).count
}

// The first width that will do for the spans of a line.
pub(crate) fn first_width(
    spans: &[Span],
    line: &[u8],
    mode: usize,
    wanted: usize,
    greatest: usize,
) -> Option<usize>
    requires room { SpansRoom spans.now line.now (beginning 0 0) }
    requires few { greatest ≤ 65535 }
    ensures { widths_to greatest result ≡ tried_from (fits_at mode wanted line.now spans.now) greatest 0 }
{
    for width in 1..=greatest {
        if rows_at(spans, line, mode, width) <= wanted {
            return Some(width);
        }
    }
    None
}
