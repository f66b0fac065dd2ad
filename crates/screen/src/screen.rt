// A screen row, and what each change of a list does to it.
ghost use Rattle.std.specs.Prelude.{◌≡◌, cond, true, ◌+◌, ◌-◌, ◌≤◌, ◌<◌, ltb};
ghost use Rattle.text.specs.Class.Code.{profile_of};
ghost use Rattle.screen.specs.Records.Contracts.{record_of};
ghost use Rattle.screen.specs.Row.{write, clear};
ghost use Rattle.screen.specs.Row.Contracts.{part, CellsReady};
ghost use Rattle.screen.specs.Screen.{with_at, with_end, larger_of, cursor_of, Reached, cut_left, cut_right, WriteReady, ClearReady, ClusterOnReady, TextReady, BodyReady, DrawReady, Drawn, Moved, Stepped, cluster_on, text_on, record_on};

use super::body::{ATTRIBUTES, CLEAR_TO_END, TEXT, is_of_kind};
use super::records::{Head, head_at};
use super::row::{behind_later, fill, first_column, is_later, set_cluster};
use buffer::byte_at;
use text::BytePlace;
use text::class::Profile;
use text::scalar::scalar_at;
use text::segmentation::next_cluster;

// The column after the last write, which is the row's width while the flag is pending; the place of the attribute body written from now on,
// 0 for default; the column from which on the row is blank, and the place of the background there, 0 for default; the width of the last
// cluster that would have passed the last column, 0 for none. (A flag of one byte would leave bytes unused, and the copies of these make
// every step slower.)
#[derive(Clone, Copy)]
pub struct Screen {
    pub at: usize,
    pub attributes: usize,
    pub end: usize,
    pub color: usize,
    pub passed: usize,
}

impl Screen {
    // The cursor: the last column while pending.
    fn cursor(self, width: usize) -> usize
        requires { 0 < width }
        ensures { result ≡ cursor_of width self.at }
    {
        if self.at == width { width - 1 } else { self.at }
    }

    fn with_at(self, at: usize) -> Screen
        ensures { result ≡ with_at self at }
    {
        Screen { at, ..self }
    }

    // 08 clears the flag and moves one left, not below 0.
    fn back(self, width: usize) -> Screen
        requires { 0 < width }
        ensures { result ≡ with_at self (cursor_of width self.at - 1) }
    {
        self.with_at(self.cursor(width).saturating_sub(1))
    }

    // Kind 4 moves one right, not past the last column.
    fn right(self, width: usize) -> Screen
        requires { self.at ≤ width }
        ensures { result ≡ with_at self (cond (ltb (self.at + 1) width) (self.at + 1) self.at) }
    {
        if self.at < width {
            if self.at + 1 < width {
                return self.with_at(self.at + 1);
            }
        }
        self
    }

    // The cursor after a cluster that ends at a column.
    fn behind(self, to: usize) -> Screen
        ensures { result ≡ with_end (with_at self to) (larger_of self.end to) }
    {
        Screen {
            at: to,
            end: self.end.max(to),
            ..self
        }
    }

    // Numbers for the cells up to a column.
    fn reach(self, row: &mut [usize], at: usize) -> Screen
        requires { CellsReady row.old self.end (larger_of self.end at) }
        ensures { Reached row.old self at row.new result }
    {
        if self.end < at {
            fill(row, self.end, at, 0, 0, self.color);
            return Screen { end: at, ..self };
        }
        self
    }
}

// The cluster whose later cell stands at a column is cut there: its cells before are blank.
fn cut_left(list: &[u8], row: &mut [usize], end: usize, at: usize)
    requires { CellsReady row.old 0 end }
    ensures { row.new ≡ cut_left list.now row.old end at }
{
    if at < end {
        if is_later(list, row, at) {
            let first = first_column(list, row, at);
            fill(row, first, at, 0, 0, 0);
        }
    }
}

// The later cells from a column on have lost their cluster: they are blank.
fn cut_right(list: &[u8], row: &mut [usize], end: usize, at: usize)
    requires { CellsReady row.old 0 end }
    ensures { row.new ≡ cut_right list.now row.old end at }
{
    if at < end {
        let to = behind_later(list, row, at, end);
        fill(row, at, to, 0, 0, 0);
    }
}

// The clusters that new cells cut.
fn cut(list: &[u8], row: &mut [usize], end: usize, at: usize, to: usize)
    requires { CellsReady row.old 0 end }
    ensures { row.new ≡ cut_right list.now (cut_left list.now row.old end at) end to }
{
    cut_left(list, row, end, at);
    cut_right(list, row, end, to);
}

// A cluster of w columns, from place p to place e.
fn write_cluster(
    list: &[u8],
    row: &mut [usize],
    width: usize,
    state: Screen,
    p: usize,
    e: usize,
    w: usize,
) -> Screen
    requires { WriteReady width row.old state p e w }
    ensures { Moved list.now width row.old state (λ t. write width t (part list.now p (e - p)) w) row.new result }
{
    let at = state.at;
    let to = at + w;
    let t = state.reach(row, at);
    cut(list, row, t.end, at, to);
    set_cluster(row, at, to, p, e - p, t.attributes);
    t.behind(to)
}

// A cluster of a text; none where it has no width.
fn on_cluster(
    list: &[u8],
    row: &mut [usize],
    width: usize,
    t: Screen,
    p: usize,
    e: usize,
    w: usize,
) -> Option<Screen>
    requires { ClusterOnReady list.now width row.old t p e }
    ensures { Stepped list.now width row.old t (cluster_on width (part list.now p (e - p)) w) row.new result }
{
    if (byte_at(list, p) == 0x08) & (e - p == 1) {
        return Some(t.back(width));
    }
    if w == 0 {
        return None;
    }
    if width - t.at < w {
        return Some(Screen { passed: w, ..t });
    }
    Some(write_cluster(list, row, width, t, p, e, w))
}

// Kind 3 blanks from the cursor, with the background that stands at a place.
fn clear_to_end(list: &[u8], row: &mut [usize], width: usize, t: Screen, color: usize) -> Screen
    requires { ClearReady width row.old t color }
    ensures { Moved list.now width row.old t (λ u. clear width u (part list.now color 4)) row.new result }
{
    let c = t.cursor(width);
    let u = t.reach(row, c);
    cut_left(list, row, u.end, c);
    Screen { end: c, color, ..u }
}

// A text from a place to another: each of its clusters.
fn on_text(
    profile: Profile,
    list: &[u8],
    row: &mut [usize],
    width: usize,
    state: Screen,
    start: usize,
    end: usize,
) -> Option<Screen>
    requires { TextReady list.now width row.old state start end }
    ensures { Stepped list.now width row.old state (text_on (profile_of profile) width (part list.now start (end - start))) row.new result }
{
    if start == end {
        return Some(state);
    }
    let text = &list[..end];
    let mut t = state;
    let mut p = BytePlace(start);
    let mut scalar = scalar_at(profile, text, start);
    while scalar.is_some() {
        let step = next_cluster(profile, text, p, scalar);
        let e = step.part.end;
        t = on_cluster(list, row, width, t, p.0, e.0, step.part.width.0)?;
        p = e;
        scalar = step.next;
    }
    if p.0 < end {
        return None;
    }
    Some(t)
}

// A change whose head and body lie within the list; none where its body is none of its kind.
fn on_record(
    profile: Profile,
    list: &[u8],
    row: &mut [usize],
    width: usize,
    t: Screen,
    head: Head,
) -> Option<Screen>
    requires body_ready { BodyReady list.now width row.old t head.start head.len }
    requires whole_value { head.whole ≡ true }
    ensures { Stepped list.now width row.old t (record_on (profile_of profile) width (record_of list.now head)) row.new result }
{
    let start = head.start;
    let end = start + head.len;
    if head.kind == TEXT {
        return on_text(profile, list, row, width, t, start, end);
    }
    if !is_of_kind(head.kind, &list[start..end], false) {
        return None;
    }
    match head.kind {
        ATTRIBUTES => Some(Screen {
            attributes: start,
            ..t
        }),
        CLEAR_TO_END => Some(clear_to_end(list, row, width, t, start)),
        _ => Some(t.right(width)),
    }
}

// All changes of a list, on a row that is blank at first; none where the list is malformed.
pub(crate) fn draw(profile: Profile, list: &[u8], row: &mut [usize], width: usize) -> Option<Screen>
    requires { DrawReady width row.old }
    ensures { Drawn (profile_of profile) list.now width row.new result }
{
    let mut t = Screen {
        at: 0,
        attributes: 0,
        end: 0,
        color: 0,
        passed: 0,
    };
    let mut at = 0;
    while at < list.len() {
        let head = head_at(list, at, 4);
        if !head.whole {
            return None;
        }
        t = on_record(profile, list, row, width, t, head)?;
        at = head.start + head.len;
    }
    Some(t)
}
