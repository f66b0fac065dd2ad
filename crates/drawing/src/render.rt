// Drawing: src/line.rs, Span::render and Line::render.
ghost use Rattle.std.specs.Prelude.{◌≡◌, ◌+◌, ◌≤◌, ◌<◌, length};
ghost use Rattle.buffer.specs.Sink.{sink, emit};
ghost use Rattle.spans.specs.Spans.Kinds.{number_of_kind};
ghost use Rattle.drawing.specs.Change.{encode};
ghost use Rattle.drawing.specs.State.{state_of};
ghost use Rattle.drawing.specs.Rendering.{is_crew, match_style, Linkable, linked_by, SequenceDone, SpanReady, SpanDrawn, opening, closing_window, closing_rows, closing_edge, Closed, RenderRoom, Rendered};

use super::attributes::{Attributes, Link, Style};
use super::change::{push_attributes, push_clear, push_left_arrow, push_right_arrow};
use super::reader::{Reader, View};
use super::state::{AttributeState, Drawn};
use super::write::Window;
use buffer::byte_at;
use rows::wrap::text_of;
use spans::Span;
use spans::kind::SpanKind;
use spans::sequence::{Sequence, sequence_at};
use spans::sgr::Orders;
use text::{BytePlace, Column};

// What stands at the edges of a drawing: in a window, an arrow at the left edge or none; after wrapped rows, room that the line leaves in them
// or none.
#[derive(Clone, Copy)]
pub enum Edges {
    Window { arrow: bool },
    Rows { room: bool },
}

// What is drawn: the window and its edges, who reads it, and the current match.
#[derive(Clone, Copy)]
pub struct Rendering {
    pub window: Window,
    pub edges: Edges,
    pub view: View,
}

// The style of a match, the current one or another.
fn match_style(current: Option<usize>, matched: usize) -> Style
    ensures { result ≡ match_style current matched }
{
    match current {
        Some(number) if number == matched => Style::CurrentMatch,
        _ => Style::Match,
    }
}

impl AttributeState {
    // The hyperlink that stands at a place.
    fn render_hyperlink(&mut self, place: BytePlace, sequence: Sequence, reader: Reader)
        requires { Linkable place.0 sequence }
        ensures { self.new ≡ linked_by (is_crew reader) self.old place.0 sequence }
    {
        if let Sequence::Hyperlink {
            uri,
            uri_len,
            len: _,
        } = sequence
        {
            self.apply_hyperlink(Link {
                place: BytePlace(place.0 + uri),
                len: reader.uri_length(uri_len),
            });
        }
    }

    // A sequence at a place of the line, by its kind.
    fn render_sequence(&mut self, line: &[u8], kind: SpanKind, place: BytePlace, reader: Reader)
        requires { length line.now ≤ 32768 }
        ensures { SequenceDone (is_crew reader) line.now (number_of_kind kind) place.0 self.old self.new }
    {
        let at = place.0;
        if line.len() <= at {
            return;
        }
        match kind {
            SpanKind::SgrSequence => self.apply_sgr_sequence(Orders::at(line, at + 2)),
            SpanKind::Hyperlink => {
                if let Some(sequence) = sequence_at(line, at, line.len()) {
                    self.render_hyperlink(place, sequence, reader);
                }
            }
            SpanKind::LineDrawing => self.drawing = byte_at(line, at + 2) == b'0',
            SpanKind::EraseToEndOfLine => self.fill = self.attrs.colors.background,
            _ => {}
        }
    }
}

// Span::render.
fn render_span(
    line: &[u8],
    list: &mut [u8],
    rendering: Rendering,
    state: &mut AttributeState,
    at: usize,
    span: Span,
) -> usize
    requires { SpanReady line.now state.old }
    ensures { SpanDrawn rendering line.now list.old at state.old span list.new result state.new }
{
    let window = rendering.window;
    let Some(kind) = span.kind() else {
        return at;
    };
    match kind {
        SpanKind::Text => {
            let text = text_of(line, span.place, span.len);
            state.write_truncated(list, at, text, window, Style::File)
        }
        SpanKind::Match => {
            let text = text_of(line, span.place, span.len);
            let style = match_style(rendering.view.current, span.matched);
            state.write_truncated(list, at, text, window, style)
        }
        SpanKind::Control | SpanKind::Invalid => {
            let byte = byte_at(line, span.place.0);
            state.write_mark(list, at, byte as u32, Column(4), window)
        }
        SpanKind::Unprintable => {
            let text = text_of(line, span.place, span.len);
            state.write_marks(list, at, text, window)
        }
        SpanKind::Tab => state.write_tab(list, at, window),
        _ => {
            state.render_sequence(line, kind, span.place, rendering.view.reader);
            at
        }
    }
}

// What stands before the spans: the arrow at the left edge, or nothing.
fn open(list: &mut [u8], edges: Edges) -> usize
    ensures { sink list.new result ≡ emit (sink list.old 0) (encode (opening edges)) }
{
    match edges {
        Edges::Window { arrow } => { if arrow { push_left_arrow(list, 0) } else { 0 } }
        Edges::Rows { room: _ } => 0,
    }
}

// After the spans of a window: an arrow, a clearing or nothing.
fn close_window(list: &mut [u8], at: usize, state: AttributeState, end: Column) -> usize
    ensures { sink list.new result ≡ emit (sink list.old at) (encode (closing_window end.0 (state_of state))) }
{
    let position = state.position;
    if end.0 < position.0 {
        return push_right_arrow(list, at);
    }
    if position.0 < end.0 {
        return push_clear(list, at, state.fill);
    }
    at
}

// After the spans of wrapped rows: a clearing where there is room.
fn close_rows(list: &mut [u8], at: usize, state: AttributeState, room: bool) -> usize
    ensures { sink list.new result ≡ emit (sink list.old at) (encode (closing_rows room (state_of state))) }
{
    if room {
        return push_clear(list, at, state.fill);
    }
    at
}

fn close_edge(list: &mut [u8], at: usize, rendering: Rendering, state: AttributeState) -> usize
    ensures { sink list.new result ≡ emit (sink list.old at) (encode (closing_edge rendering.edges rendering.window.end.0 (state_of state))) }
{
    match rendering.edges {
        Edges::Window { arrow: _ } => close_window(list, at, state, rendering.window.end),
        Edges::Rows { room } => close_rows(list, at, state, room),
    }
}

// What stands after the spans; the default attributes last.
fn close(list: &mut [u8], at: usize, rendering: Rendering, state: AttributeState) -> Drawn
    ensures { Closed rendering list.old at state list.new result }
{
    let edge = close_edge(list, at, rendering, state);
    let end = push_attributes(list, edge, Attributes::PLAIN);
    Drawn {
        at: end,
        torn: state.torn,
    }
}

// Line::render: the spans of a line, and what stands before and after them.
pub(crate) fn render(spans: &[Span], line: &[u8], list: &mut [u8], rendering: Rendering) -> Drawn
    requires { RenderRoom spans.now line.now }
    ensures { Rendered rendering line.now spans.now list.old list.new result }
{
    let mut state = AttributeState::NEW;
    let mut at = open(list, rendering.edges);
    for span in spans {
        at = render_span(line, list, rendering, &mut state, at, *span);
    }
    close(list, at, rendering, state)
}
