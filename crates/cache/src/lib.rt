// Kept wraps: the calls `cached_rows` and `cached_height` (document 02, U6).
#![tactic(auto)]

ghost use Rattle.std.specs.Prelude.{◌≡◌, length};
ghost use Rattle.text.specs.Width.{profile01};
ghost use Rattle.cache.specs.Calls.{cached_rows_call, cached_height_call};
ghost use Rattle.cache.specs.Calls.Contracts.{rows_request, height_request, cached_rows_as, cached_height_as, CachedLineReady, CachedLine};

use rows::{Mode, Request, answer_line};
use spans::Span;
use text::Answer;
use wraps::{BLOCK_LEN, Key, kept_rows, remember};

pub mod numbers;
mod wraps;

// What `cached_rows` asks.
fn rows_request(wraps: &[usize], width: usize, mode: usize) -> Request
    requires { length wraps.now ≡ 8212 }
    ensures { result ≡ rows_request wraps.now width mode }
{
    Request {
        width,
        mode,
        listed: true,
        known: kept_rows(wraps, Key::of(width, mode)),
    }
}

// What `cached_height` asks: Unwrapped height is not looked for.
fn height_request(wraps: &[usize], width: usize, mode: usize) -> Request
    requires { length wraps.now ≡ 8212 }
    ensures { result ≡ height_request wraps.now width mode }
{
    let request = Request {
        width,
        mode,
        listed: false,
        known: None,
    };
    if mode == Mode::Unwrapped as usize {
        return request;
    }
    Request {
        known: kept_rows(wraps, Key::of(width, mode)),
        ..request
    }
}

// Answers a request, and remembers it.
fn cached_line(
    line: &[u8],
    wraps: &mut [usize; 8212],
    conv: &mut [u8],
    spans: &mut [Span],
    rows: &mut [usize],
    request: Request,
) -> Answer
    requires { CachedLineReady request (length conv.old) (length spans.old) (length rows.old) line.now wraps.old }
    ensures { CachedLine request (length conv.old) (length spans.old) (length rows.old) line.now wraps.old result conv.new spans.new rows.new wraps.new }
{
    let answer = answer_line(line, conv, spans, rows, request);
    remember(wraps, rows, request, answer);
    answer
}

// The call `cached_rows`: as `rows`, of a line whose wraps are kept from call to call.
pub fn cached_rows(
    line: &[u8],
    width: usize,
    mode: usize,
    wraps: &mut [usize; 8212],
    conv: &mut [u8],
    spans: &mut [Span],
    rows: &mut [usize],
) -> Answer
    ensures { cached_rows_as result conv.new spans.new rows.new wraps.new ≡ cached_rows_call profile01 wraps.old (length conv.old) (length spans.old) (length rows.old) width mode line.now }
{
    let request = rows_request(wraps, width, mode);
    cached_line(line, wraps, conv, spans, rows, request)
}

// The call `cached_height`: as `height`, likewise. The rows are kept, so they are listed, in memory of the call's own.
pub fn cached_height(
    line: &[u8],
    width: usize,
    mode: usize,
    wraps: &mut [usize; 8212],
    conv: &mut [u8],
    spans: &mut [Span],
) -> Answer
    ensures { cached_height_as result conv.new spans.new wraps.new ≡ cached_height_call profile01 wraps.old (length conv.old) (length spans.old) width mode line.now }
{
    let mut rows = [0usize; BLOCK_LEN];
    let request = height_request(wraps, width, mode);
    cached_line(line, wraps, conv, spans, &mut rows, request)
}
