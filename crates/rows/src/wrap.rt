// Wrapping: src/line.rs, Span::split and make_wrap.
ghost use Rattle.std.specs.Prelude.{◌≡◌, ◌+◌, ◌-◌, ◌*◌, ◌<◌, eqb, leb, length, take, drop};
ghost use Rattle.text.specs.Class.Code.{profile_of};
ghost use Rattle.text.specs.TextParts.{text_at};
ghost use Rattle.rows.specs.Calls.Contracts.{line_room, wrapping_at};
ghost use Rattle.rows.specs.Modes.{counts_drawn};
ghost use Rattle.rows.specs.Words.Laws.{first_word};
ghost use Rattle.rows.specs.Rows.{row, tabbed, pushed};
ghost use Rattle.rows.specs.Wrap.{row_list, with_row, counted_row, pair_at, Room, Stepped, advanced, unbroken_of, WordRoom, clusters_of, long_word_of, one_word_of, words_of, word_mode, count_of, text_of, span_of, LastRow, beginning, SpanRoom, SpansRoom, MadeWrap};

use super::marks::drawn_columns;
use super::modes::Mode;
use super::words::next_word;
use spans::Span;
use spans::kind::SpanKind;
use text::class::Profile;
use text::scalar::scalar_at;
use text::segmentation::next_cluster;
use text::{BytePlace, Column, TextPart};

// The bytes of the longest converted line.
const LONGEST_LINE: usize = 32768;

// The columns of a Control or Invalid span, and of an Unprintable one where the mode does not count those drawn.
const BYTE_COLUMNS: Column = Column(4);

const UNPRINTABLE_COLUMNS: Column = Column(8);

// The columns from one tab stop to the next.
const TAB_STOP: usize = 8;

// What is kept of the rows pushed: their number, the start of the row `first`, the end of the row `last`, the end of the row pushed last.
#[derive(Clone, Copy)]
pub struct RowCounts {
    pub count: usize,
    pub first: usize,
    pub last: usize,
    pub start: Column,
    pub end: Column,
    pub ended: Column,
}

// Where the present row starts, and the position.
#[derive(Clone, Copy)]
pub struct WrapState {
    pub start: Column,
    pub position: Column,
    pub tally: RowCounts,
}

// How to wrap: the text profile, the width and the number of a mode. A number that is no mode's wraps as GraphemeBoundaryDrawn does.
#[derive(Clone, Copy)]
pub struct Wrapping {
    pub profile: Profile,
    pub width: Column,
    pub mode: usize,
}

impl Wrapping {
    // At a width and mode, by the profile of document 01.
    pub fn at(width: usize, mode: usize) -> Wrapping
        ensures { result ≡ wrapping_at width mode }
    {
        Wrapping {
            profile: Profile { version: 0 },
            width: Column(width),
            mode,
        }
    }

    // Are the columns left in one row?
    fn is_unwrapped(self) -> bool
        ensures { result ≡ eqb self.mode 0 }
    {
        self.mode == Mode::Unwrapped as usize
    }

    // Are texts broken between words?
    #[tactic(auto, unfolding(crate::specs::Wrap::word_mode))]
    fn breaks_words(self) -> bool
        ensures { result ≡ word_mode self.mode }
    {
        (self.mode == Mode::WordBoundary as usize) | (self.mode == Mode::WordBoundaryDrawn as usize)
    }

    // Does an Unprintable span count the columns that it draws?
    fn counts_drawn(self) -> bool
        ensures { result ≡ counts_drawn self.mode }
    {
        Mode::GraphemeBoundaryDrawn as usize <= self.mode
    }
}

// The part of a buffer that holds the converted line, as far as a line may reach.
pub fn line_in(conv: &[u8]) -> &[u8]
    ensures { result.now ≡ take (line_room (length conv.now)) conv.now }
{
    &conv[..conv.len().min(LONGEST_LINE)]
}

// Writes the pair of row number n where the list has a place for it.
#[tactic(auto, unfolding(crate::specs::Wrap::pair_at))]
fn write_row(rows: &mut [usize], n: usize, start: Column, end: Column)
    ensures { rows.new ≡ pair_at rows.old n (row start.0 end.0) }
{
    if n < rows.len() / 2 {
        rows[2 * n] = start.0;
        rows[2 * n + 1] = end.0;
    }
}

impl RowCounts {
    // One more row.
    fn count_row(&mut self, start: Column, end: Column)
        ensures { self.new ≡ counted_row self.old (row start.0 end.0) }
    {
        let from = if self.count == self.first {
            start
        } else {
            self.start
        };
        let to = if self.count == self.last {
            end
        } else {
            self.end
        };
        *self = RowCounts {
            count: self.count.saturating_add(1),
            start: from,
            end: to,
            ended: end,
            ..*self
        };
    }

    // Pushes a row: its pair is written where it fits.
    #[tactic(auto, unfolding(crate::specs::Wrap::with_row))]
    fn push(&mut self, rows: &mut [usize], start: Column, end: Column)
        ensures { row_list rows.new self.new ≡ with_row (row_list rows.old self.old) (row start.0 end.0) }
    {
        write_row(rows, self.count, start, end);
        self.count_row(start, end);
    }
}

impl WrapState {
    // Nothing pushed yet, with the rows whose bounds are asked for.
    pub fn begin(first: usize, last: usize) -> WrapState
        ensures { result ≡ beginning first last }
    {
        WrapState {
            start: Column(0),
            position: Column(0),
            tally: RowCounts {
                count: 0,
                first,
                last,
                start: Column(0),
                end: Column(0),
                ended: Column(0),
            },
        }
    }

    // Do so many more columns fit within the present row?
    fn fits(self, columns: Column, width: Column) -> bool
        requires { Room self columns.0 }
        ensures { result ≡ leb (self.position.0 + columns.0 - self.start.0) width.0 }
    {
        self.position.0 + columns.0 - self.start.0 <= width.0
    }

    // So many columns further within the present row.
    fn advance(&mut self, columns: Column)
        requires { Room self.old columns.0 }
        ensures { self.new ≡ advanced self.old columns.0 }
    {
        self.position = Column(self.position.0 + columns.0);
    }

    // Columns that are not broken.
    fn unbroken(&mut self, rows: &mut [usize], width: Column, columns: Column)
        requires { Room self.old columns.0 }
        ensures { Stepped rows.old self.old (unbroken_of width.0 columns.0) columns.0 1 rows.new self.new }
    {
        if self.fits(columns, width) {
            self.advance(columns);
            return;
        }
        self.tally.push(rows, self.start, self.position);
        self.start = self.position;
        self.position = Column(self.position.0 + columns.0);
    }

    // A tab, up to the next tab stop of the line's column.
    fn tab(&mut self, rows: &mut [usize], width: Column)
        requires { Room self.old 8 }
        ensures { Stepped rows.old self.old (tabbed width.0) 8 1 rows.new self.new }
    {
        let columns = Column(TAB_STOP - self.position.0 % TAB_STOP);
        if self.fits(columns, width) {
            self.advance(columns);
            return;
        }
        let end = Column(self.position.0 + columns.0);
        self.tally.push(rows, self.start, end);
        self.start = end;
        self.position = end;
    }

    // What the present row holds is pushed, if it holds anything.
    fn push_held(&mut self, rows: &mut [usize])
        requires { Room self.old 0 }
        ensures { Stepped rows.old self.old pushed 0 1 rows.new self.new }
    {
        if self.start.0 == self.position.0 {
            return;
        }
        self.tally.push(rows, self.start, self.position);
        self.start = self.position;
    }

    // A text broken between clusters.
    fn by_clusters(&mut self, text: &[u8], rows: &mut [usize], wrapping: Wrapping)
        requires { Room self.old (2 * length text.now) }
        ensures { Stepped rows.old self.old (clusters_of (profile_of wrapping.profile) wrapping.width.0 (text_at text.now 0)) (2 * length text.now) (length text.now) rows.new self.new }
    {
        if text.is_empty() {
            return;
        }
        let mut p = BytePlace(0);
        let mut scalar = scalar_at(wrapping.profile, text, 0);
        while scalar.is_some() {
            let step = next_cluster(wrapping.profile, text, p, scalar);
            self.unbroken(rows, wrapping.width, step.part.width);
            p = step.part.end;
            scalar = step.next;
        }
    }

    // A word at the start of a row: it fits, or is broken between clusters.
    fn long_word(
        &mut self,
        text: &[u8],
        rows: &mut [usize],
        wrapping: Wrapping,
        at: BytePlace,
        word: TextPart,
    )
        requires { WordRoom (profile_of wrapping.profile) text.now at.0 word self.old }
        ensures { Stepped rows.old self.old (long_word_of (profile_of wrapping.profile) wrapping.width.0 (first_word (text_at text.now at.0))) (2 * (word.end.0 - at.0)) (word.end.0 - at.0) rows.new self.new }
    {
        if self.fits(word.width, wrapping.width) {
            self.advance(word.width);
            return;
        }
        self.by_clusters(&text[at.0..word.end.0], rows, wrapping);
    }

    // A word that fits within the row, or wraps to the next.
    fn one_word(
        &mut self,
        text: &[u8],
        rows: &mut [usize],
        wrapping: Wrapping,
        at: BytePlace,
        word: TextPart,
    )
        requires { WordRoom (profile_of wrapping.profile) text.now at.0 word self.old }
        ensures { Stepped rows.old self.old (one_word_of (profile_of wrapping.profile) wrapping.width.0 (first_word (text_at text.now at.0))) (2 * (word.end.0 - at.0)) (word.end.0 - at.0 + 1) rows.new self.new }
    {
        if self.fits(word.width, wrapping.width) {
            self.advance(word.width);
            return;
        }
        self.push_held(rows);
        self.long_word(text, rows, wrapping, at, word);
    }

    // A text broken between words.
    fn by_words(&mut self, text: &[u8], rows: &mut [usize], wrapping: Wrapping)
        requires { Room self.old (2 * length text.now) }
        ensures { Stepped rows.old self.old (words_of (profile_of wrapping.profile) wrapping.width.0 (text_at text.now 0)) (2 * length text.now) (2 * length text.now) rows.new self.new }
    {
        let mut p = BytePlace(0);
        while p.0 < text.len() {
            let word = next_word(wrapping.profile, text, p);
            if word.end.0 == p.0 {
                return;
            }
            self.one_word(text, rows, wrapping, p, word);
            p = word.end;
        }
    }

    // The text of a span, by the mode.
    fn split_text(&mut self, text: &[u8], rows: &mut [usize], wrapping: Wrapping)
        requires { Room self.old (2 * length text.now) }
        ensures { Stepped rows.old self.old (text_of (profile_of wrapping.profile) wrapping.width.0 (word_mode wrapping.mode) (text_at text.now 0)) (2 * length text.now) (2 * length text.now) rows.new self.new }
    {
        if wrapping.breaks_words() {
            self.by_words(text, rows, wrapping);
            return;
        }
        self.by_clusters(text, rows, wrapping);
    }

    // An Unprintable span, not broken between its marks: 8 columns, or those that it draws.
    fn unprintable(&mut self, text: &[u8], rows: &mut [usize], wrapping: Wrapping)
        requires { Room self.old (10 * length text.now + 8) }
        ensures { Stepped rows.old self.old (unbroken_of wrapping.width.0 (count_of wrapping.mode (text_at text.now 0))) (10 * length text.now + 8) 1 rows.new self.new }
    {
        if wrapping.counts_drawn() {
            self.unbroken(rows, wrapping.width, drawn_columns(text));
            return;
        }
        self.unbroken(rows, wrapping.width, UNPRINTABLE_COLUMNS);
    }

    // One span.
    fn split_span(&mut self, line: &[u8], rows: &mut [usize], wrapping: Wrapping, span: Span)
        requires { SpanRoom line.now self.old }
        ensures { Stepped rows.old self.old (span_of (profile_of wrapping.profile) wrapping.width.0 wrapping.mode line.now span) (10 * length line.now + 8) (2 * length line.now + 1) rows.new self.new }
    {
        if wrapping.is_unwrapped() {
            return;
        }
        let Some(kind) = span.kind() else {
            return;
        };
        match kind {
            SpanKind::Text | SpanKind::Match => {
                let text = text_of(line, span.place, span.len);
                self.split_text(text, rows, wrapping);
            }
            SpanKind::Control | SpanKind::Invalid => {
                self.unbroken(rows, wrapping.width, BYTE_COLUMNS);
            }
            SpanKind::Unprintable => {
                let text = text_of(line, span.place, span.len);
                self.unprintable(text, rows, wrapping);
            }
            SpanKind::Tab => self.tab(rows, wrapping.width),
            _ => {}
        }
    }

    // The last row, unless it is empty and not the only one.
    fn last_row(self, rows: &mut [usize], wrapping: Wrapping) -> RowCounts
        ensures { LastRow rows.old self wrapping.mode rows.new result }
    {
        let mut tally = self.tally;
        if wrapping.is_unwrapped() {
            tally.push(rows, Column(0), Column(usize::MAX));
            return tally;
        }
        if (self.start.0 < self.position.0) | (tally.count == 0) {
            tally.push(rows, self.start, self.position);
            return tally;
        }
        tally
    }
}

// The bytes that a record stands for, as far as the line has them.
pub fn text_of(line: &[u8], place: BytePlace, len: usize) -> &[u8]
    ensures { result.now ≡ take len (drop place.0 line.now) }
{
    let rest = &line[place.0.min(line.len())..];
    &rest[..len.min(rest.len())]
}

// The rows of the spans of a line.
pub fn make_wrap(
    spans: &[Span],
    line: &[u8],
    rows: &mut [usize],
    wrapping: Wrapping,
    mut state: WrapState,
) -> RowCounts
    requires { SpansRoom spans.now line.now state }
    ensures { MadeWrap (profile_of wrapping.profile) wrapping.width.0 wrapping.mode line.now spans.now rows.old state rows.new result }
{
    for span in spans {
        state.split_span(line, rows, wrapping, *span);
    }
    state.last_row(rows, wrapping)
}
