// The calls with a span list of 64 places of their own, enough for most lines.
ghost use Rattle.std.specs.Prelude.{◌≡◌, length, replicate};
ghost use Rattle.text.specs.Width.{profile01};
ghost use Rattle.spans.specs.Calls.{no_record};
ghost use Rattle.rows.specs.Calls.{height_call};
ghost use Rattle.drawing.specs.Calls.{window_call, row_call};
ghost use Rattle.drawing.specs.Rendering.{current_of};
ghost use Rattle.show_io.specs.FewSpans.{ReadTo, DrawnTo};

use spans::Span;
use text::{Answer, BytePlace};

// The list, with no record in it.
fn no_spans() -> [Span; 64]
    ensures { result ≡ replicate 64 no_record }
{
    [Span {
        kind: 0,
        place: BytePlace(0),
        len: 0,
        matched: 0,
    }; 64]
}

pub(crate) fn height(line: &[u8], width: usize, mode: usize, conv: &mut [u8]) -> Answer
    ensures { ReadTo (height_call profile01 (length conv.old) 64 width mode line.now) result conv.new }
{
    let mut spans = no_spans();
    rows::height(line, width, mode, conv, &mut spans)
}

pub(crate) fn draw_window(
    reader: usize,
    line: &[u8],
    matches: &[usize],
    current: usize,
    start: usize,
    end: usize,
    conv: &mut [u8],
    list: &mut [u8],
) -> Answer
    ensures { DrawnTo (window_call profile01 reader (length conv.old) 64 (length list.old) start end (current_of current) matches.now line.now) result conv.new list.new }
{
    let mut spans = no_spans();
    drawing::draw_window(
        reader, line, matches, current, start, end, conv, &mut spans, list,
    )
}

pub(crate) fn draw_row(
    reader: usize,
    line: &[u8],
    matches: &[usize],
    current: usize,
    first: usize,
    count: usize,
    width: usize,
    mode: usize,
    conv: &mut [u8],
    list: &mut [u8],
) -> Answer
    ensures { DrawnTo (row_call profile01 reader (length conv.old) 64 (length list.old) first count width mode (current_of current) matches.now line.now) result conv.new list.new }
{
    let mut spans = no_spans();
    drawing::draw_row(
        reader, line, matches, current, first, count, width, mode, conv, &mut spans, list,
    )
}
