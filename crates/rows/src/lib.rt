// Layer 3, rows: words and wrapping; the calls `rows`, `height` and `narrowest`.
#![tactic(auto)]

ghost use Rattle.std.specs.Prelude.{◌≡◌, [], length};
ghost use Rattle.text.specs.Width.{profile01};
ghost use Rattle.text.specs.Calls.Code.{answer_of, kept_by};
ghost use Rattle.text.specs.Class.Code.{profile_of};
ghost use Rattle.spans.specs.Calls.{no_record, read_call};
ghost use Rattle.spans.specs.Calls.Contracts.{read_as};
ghost use Rattle.rows.specs.Calls.{rows_call, height_call};
ghost use Rattle.rows.specs.Narrowest.{narrowest_call};
ghost use Rattle.rows.specs.Widths.{narrowed_as, LineNarrowed};
ghost use Rattle.rows.specs.Wrap.{SpansRoom, beginning};
ghost use Rattle.rows.specs.Calls.Contracts.{numbers_kept, wrapped_as, answered, RowsCounted};

use buffer::clear;
pub use modes::{Mode, mode_and_width};
use spans::{Span, try_read};
use text::{Answer, Refusal, clear_refused};
use widths::{first_width, mode_rows_and_width};
use wrap::{WrapState, Wrapping, line_in, make_wrap};

pub mod marks;
pub mod modes;
pub mod numbers;
mod widths;
pub mod words;
pub mod wrap;

// What a call asks: the width, the mode, whether it is refused where the row list has no room for all rows, and how many rows there are, where
// that is known. A line whose rows are known is not wrapped, and they are left out of the list.
#[derive(Clone, Copy)]
pub struct Request {
    pub width: usize,
    pub mode: usize,
    pub listed: bool,
    pub known: Option<usize>,
}

impl Request {
    // How many numbers of the row list are kept: the pairs of the rows, where they were wrapped and all of them fit.
    fn numbers_kept(self, rows: usize, numbers: usize) -> usize
        ensures { result ≡ numbers_kept self rows numbers }
    {
        if self.known.is_none() & (rows <= numbers / 2) {
            2 * rows
        } else {
            0
        }
    }
}

// What `narrowest` returns: 0, the width found or 0 for none, and how many widths were tried; or the number of the question that refuses it,
// 0 and 0.
#[repr(C)]
#[derive(Clone, Copy)]
pub struct WidthAnswer {
    pub number: usize,
    pub count: usize,
    pub tried: usize,
}

// Reads a line without matches: how many spans it has, with zeros after their records.
fn read_line(line: &[u8], conv: &mut [u8], spans: &mut [Span]) -> Result<usize, Refusal>
    ensures { read_as (answer_of result) (kept_by result 0 conv.new) (kept_by result no_record spans.new) ≡ read_call profile01 (length conv.old) (length spans.old) [] line.now }
{
    let found = try_read(line, &[], conv, spans)?;
    clear(spans, found, Span::NONE);
    Ok(found)
}

// How many rows the spans of a line take: they are wrapped, unless that is known.
fn count_rows(
    spans: &[Span],
    line: &[u8],
    rows: &mut [usize],
    wrapping: Wrapping,
    known: Option<usize>,
) -> usize
    requires { SpansRoom spans.now line.now (beginning 0 0) }
    ensures { RowsCounted (profile_of wrapping.profile) wrapping.width.0 wrapping.mode line.now spans.now known rows.old rows.new result }
{
    match known {
        Some(count) => count,
        None => make_wrap(spans, line, rows, wrapping, WrapState::begin(0, 0)).count,
    }
}

// Reads a line without matches, wraps its spans, and answers a request.
pub fn answer_line(
    line: &[u8],
    conv: &mut [u8],
    spans: &mut [Span],
    rows: &mut [usize],
    request: Request,
) -> Answer
    ensures { wrapped_as result conv.new spans.new rows.new ≡ answered request (length conv.old) (length spans.old) (length rows.old) line.now }
{
    let outcome = try_answer_line(line, conv, spans, rows, request);
    clear_refused(outcome, conv, 0);
    clear_refused(outcome, spans, Span::NONE);
    clear_refused(outcome, rows, 0);
    Answer::from(outcome)
}

// The same without the zeros where the call is refused.
fn try_answer_line(
    line: &[u8],
    conv: &mut [u8],
    spans: &mut [Span],
    rows: &mut [usize],
    request: Request,
) -> Result<usize, Refusal>
    ensures { wrapped_as (answer_of result) (kept_by result 0 conv.new) (kept_by result no_record spans.new) (kept_by result 0 rows.new) ≡ answered request (length conv.old) (length spans.old) (length rows.old) line.now }
{
    let found = read_line(line, conv, spans)?;
    mode_and_width(request.mode, request.width)?;
    let count = count_rows(
        &spans[..found],
        line_in(conv),
        rows,
        Wrapping::at(request.width, request.mode),
        request.known,
    );
    if request.listed & (rows.len() / 2 < count) {
        return Err(Refusal::RowsTooFew);
    }
    clear(rows, request.numbers_kept(count, rows.len()), 0);
    Ok(count)
}

// The call `rows`: the converted line in conv, the records in spans, the start and end of each row in rows, and zeros after each.
pub fn rows(
    line: &[u8],
    width: usize,
    mode: usize,
    conv: &mut [u8],
    spans: &mut [Span],
    rows: &mut [usize],
) -> Answer
    ensures { wrapped_as result conv.new spans.new rows.new ≡ rows_call profile01 (length conv.old) (length spans.old) (length rows.old) width mode line.now }
{
    let request = Request {
        width,
        mode,
        listed: true,
        known: None,
    };
    answer_line(line, conv, spans, rows, request)
}

// The call `height`: as `rows`, with no row list.
pub fn height(line: &[u8], width: usize, mode: usize, conv: &mut [u8], spans: &mut [Span]) -> Answer
    ensures { read_as result conv.new spans.new ≡ height_call profile01 (length conv.old) (length spans.old) width mode line.now }
{
    let request = Request {
        width,
        mode,
        listed: false,
        known: None,
    };
    answer_line(line, conv, spans, &mut [], request)
}

// Reads a line without matches, and looks for the least width at which it takes at most the wanted rows.
fn narrow_line(
    line: &[u8],
    mode: usize,
    wanted: usize,
    greatest: usize,
    conv: &mut [u8],
    spans: &mut [Span],
) -> Result<Option<usize>, Refusal>
    ensures { LineNarrowed mode wanted greatest (length conv.old) (length spans.old) line.now result conv.new spans.new }
{
    let found = read_line(line, conv, spans)?;
    mode_rows_and_width(mode, wanted, greatest)?;
    Ok(first_width(&spans[..found], line_in(conv), mode, wanted, greatest))
}

// The call `narrowest`: the line is read once, and its spans are wrapped at one width after the other.
pub fn narrowest(
    line: &[u8],
    mode: usize,
    wanted: usize,
    greatest: usize,
    conv: &mut [u8],
    spans: &mut [Span],
) -> WidthAnswer
    ensures { narrowed_as result conv.new spans.new ≡ narrowest_call profile01 (length conv.old) (length spans.old) mode wanted greatest line.now }
{
    match narrow_line(line, mode, wanted, greatest, conv, spans) {
        Ok(Some(width)) => WidthAnswer {
            number: 0,
            count: width,
            tried: width,
        },
        Ok(None) => WidthAnswer {
            number: 0,
            count: 0,
            tried: greatest,
        },
        Err(refusal) => {
            clear(conv, 0, 0);
            clear(spans, 0, Span::NONE);
            WidthAnswer {
                number: refusal as usize,
                count: 0,
                tried: 0,
            }
        }
    }
}
