// Line::new and Line::new_search: each match, and each segment before, between and after matches, read by itself.
ghost use Rattle.std.specs.Prelude.{◌≡◌, length};
ghost use Rattle.std.specs.Iterator.{YieldsFirst, item_count};
ghost use Rattle.text.specs.Class.Code.{profile_of};
ghost use Rattle.spans.specs.Segments.{spent, OutsideReady, InsideReady, OutsideBegun, Advanced, AdvanceReady, BeginReady, Begun, IsReady, records_left};

use super::Span;
use super::reader::{Matched, Place, next_span};
use super::search::{Offsets, without_newline};
use text::class::Profile;

// Where a reading of a line stands: a place in a segment, the segment's end, the match that it is or that follows it, the next number
// of the match ranges, and the conversion of offsets.
#[derive(Clone, Copy)]
pub struct Cursor {
    pub place: Place,
    pub end: usize,
    pub matched: Matched,
    pub index: usize,
    pub offsets: Offsets,
}

// A line, and the match ranges of its text searched.
#[derive(Clone, Copy)]
struct Searched<'a> {
    line: &'a [u8],
    matches: &'a [usize],
}

impl<'a> Searched<'a> {
    // The segment from `start` to match `number`, or to the line's end where there is none.
    fn outside(self, start: usize, number: usize, index: usize, offsets: Offsets) -> Cursor
        requires { OutsideReady self.line.now self.matches.now number index offsets }
        ensures { OutsideBegun self.entry.line.now self.entry.matches.now start number index result }
    {
        let begun = Cursor {
            place: Place { at: start, run: 0 },
            end: self.line.len(),
            matched: Matched::Before(number),
            index,
            offsets,
        };
        if index < self.matches.len() {
            let o = offsets.convert(without_newline(self.line), self.matches[index]);
            return Cursor {
                end: o.value,
                index: index + 1,
                offsets: o.offsets,
                ..begun
            };
        }
        begun
    }

    // Match `number` after the segment that ends where it begins.
    fn inside(self, number: usize, c: Cursor) -> Cursor
        requires { InsideReady self.line.now self.matches.now number c }
        ensures { Advanced self.entry.line.now self.entry.matches.now c result }
    {
        let o = c
            .offsets
            .convert(without_newline(self.line), self.matches[c.index]);
        Cursor {
            place: Place { at: c.end, run: 0 },
            end: o.value,
            matched: Matched::Match(number),
            index: c.index + 1,
            offsets: o.offsets,
        }
    }

    // Has the segment no bytes left, and does another follow?
    fn is_spent(self, c: Cursor) -> bool
        ensures { result ≡ spent (length self.entry.line.now) (length self.entry.matches.now) c }
    {
        let at = c.place.at;
        ((c.end <= at) | (self.line.len() <= at))
            & (matches!(c.matched, Matched::Match(_)) | (c.index < self.matches.len()))
    }

    // The segment after one that has no bytes left.
    fn advance(self, c: Cursor) -> Cursor
        requires { AdvanceReady self.line.now self.matches.now c }
        ensures { Advanced self.entry.line.now self.entry.matches.now c result }
    {
        match c.matched {
            Matched::Match(number) => self.outside(c.end, number + 1, c.index, c.offsets),
            Matched::Before(number) => self.inside(number, c),
        }
    }
}

// The records of a line's spans, one after the other.
#[derive(Clone, Copy)]
pub(crate) struct Records<'a> {
    profile: Profile,
    searched: Searched<'a>,
    cursor: Cursor,
}

impl<'a> Records<'a> {
    // All records of a line, where the match ranges pass question 3.
    pub(crate) fn begin(profile: Profile, line: &'a [u8], matches: &'a [usize]) -> Records<'a>
        requires { BeginReady line.now matches.now }
        ensures { Begun (profile_of profile) line.now matches.now result }
    {
        let searched = Searched { line, matches };
        let offsets = Offsets::begin(without_newline(line));
        Records {
            profile,
            searched,
            cursor: searched.outside(0, 0, 0, offsets),
        }
    }
}

impl<'a> Iterator for Records<'a> {
    type Item = Span;

    ghost can_next = { IsReady };

    ghost next_gives = { YieldsFirst records_left };

    ghost remaining = { item_count records_left };

    fn next(&mut self) -> Option<Span> {
        while self.searched.is_spent(self.cursor) {
            self.cursor = self.searched.advance(self.cursor);
        }
        let end = self.cursor.end.min(self.searched.line.len());
        if end <= self.cursor.place.at {
            return None;
        }
        let next = next_span(
            self.profile,
            &self.searched.line[..end],
            self.cursor.place,
            self.cursor.matched,
        );
        self.cursor.place = next.place;
        Some(next.span)
    }
}
