// Layer 2, spans: the sequences at ESC, reading, and reading with matches.
#![tactic(auto)]

ghost use Rattle.std.specs.Prelude.{MatchOption, ◌≡◌, ◌≤◌, length};
ghost use Rattle.text.specs.Width.{profile01};
ghost use Rattle.text.specs.Calls.Code.{answer_of, kept_by};
ghost use Rattle.spans.specs.Calls.{read_call};
ghost use Rattle.spans.specs.Spans.Kinds.{number_of_kind, NamesNoKind};
ghost use Rattle.spans.specs.Search.{searched_length, in_order};
ghost use Rattle.spans.specs.Segments.{IsReady, records_left};
ghost use Rattle.spans.specs.Calls.Contracts.{Listed, Parsed, listed, read_as};

use kind::SpanKind;
use search::{in_order, searched_len};
use segments::Records;
use text::class::Profile;
use text::{Answer, BytePlace, Refusal, clear_refused, try_convert};

pub mod kind;
pub mod numbers;
pub mod reader;
pub mod search;
pub mod segments;
pub mod sequence;
pub mod sgr;

// A record of the span list: the span's kind, 1 to 13 in the order of the source's Span; the byte place and the length, in the converted
// line, of the bytes it was read from; and the match number, 0 where the kind isn't Match.
#[repr(C)]
#[derive(Clone, Copy)]
pub struct Span {
    pub kind: usize,
    pub place: BytePlace,
    pub len: usize,
    pub matched: usize,
}

impl Span {
    // The record of a place that holds no span: zeros.
    pub const NONE: Span = Span {
        kind: 0,
        place: BytePlace(0),
        len: 0,
        matched: 0,
    };

    // The span's kind; none where the record holds no span.
    pub fn kind(self) -> Option<SpanKind>
        ensures { MatchOption result (NamesNoKind self.kind) (λ k. number_of_kind k ≡ self.kind) }
    {
        SpanKind::try_from(self.kind).ok()
    }
}

// Question 3: are the match ranges in order within the text searched?
fn are_in_order(line: &[u8], matches: &[usize]) -> bool
    ensures { result ≡ in_order (searched_length line.now) 0 matches.now }
{
    matches.is_empty() || in_order(matches, searched_len(line))
}

// Question 4: is there a place for each record? Then they are in the list.
fn parse_spans(spans: &mut [Span], mut records: Records) -> Result<usize, Refusal>
    requires { IsReady records }
    ensures { Listed (records_left records.entry) spans.new result }
{
    let mut count = 0;
    while let Some(span) = records.next() {
        if count == spans.len() {
            return Err(Refusal::SpansTooFew);
        }
        spans[count] = span;
        count += 1;
    }
    Ok(count)
}

// Questions 3 and 4 of a converted line, and its records.
fn try_parse(line: &[u8], matches: &[usize], spans: &mut [Span]) -> Result<usize, Refusal>
    requires { length line.now ≤ 65536 }
    ensures { Parsed line.now matches.now spans.new result }
{
    if !are_in_order(line, matches) {
        return Err(Refusal::MatchesNotInOrder);
    }
    parse_spans(spans, Records::begin(Profile { version: 0 }, line, matches))
}

// The call `read`: the converted line in conv, the records in spans, and zeros after each.
pub fn read(line: &[u8], matches: &[usize], conv: &mut [u8], spans: &mut [Span]) -> Answer
    ensures { read_as result conv.new spans.new ≡ read_call profile01 (length conv.old) (length spans.old) matches.now line.now }
{
    let outcome = try_read(line, matches, conv, spans);
    clear_refused(outcome, conv, 0);
    buffer::clear(spans, outcome.unwrap_or(0), Span::NONE);
    Answer::from(outcome)
}

// The same, as a Result: nothing is said of what stands in conv and spans where the call is refused, nor of the places after the records.
pub fn try_read(
    line: &[u8],
    matches: &[usize],
    conv: &mut [u8],
    spans: &mut [Span],
) -> Result<usize, Refusal>
    ensures { read_as (answer_of result) (kept_by result 0 conv.new) (listed result spans.new) ≡ read_call profile01 (length conv.old) (length spans.old) matches.now line.now }
{
    let len = try_convert(line, conv)?;
    try_parse(&conv[..len], matches, spans)
}
