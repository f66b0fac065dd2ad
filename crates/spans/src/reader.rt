// parse_spans: the spans of a segment of a line, one after the other. A segment ends where the slice ends.
ghost use Rattle.std.specs.Prelude.{◌≡◌, ◌+◌, ◌-◌, ◌≤◌, ◌<◌, length, get_or, drop};
ghost use Rattle.std.specs.List.{prefix_len};
ghost use Rattle.text.specs.Class.Ascii.{syllable_or_other};
ghost use Rattle.text.specs.Class.Code.{class_number, printable, profile_of};
ghost use Rattle.spans.specs.Sequence.{missing};
ghost use Rattle.spans.specs.Spans.{a_record};
ghost use Rattle.spans.specs.Spans.FirstSpan.{plain_size};
ghost use Rattle.spans.specs.Spans.Kinds.{number_of_kind};
ghost use Rattle.spans.specs.Reader.{c0_not_cr, clusters_at, a_head, PrintableTo, SyllablesTo, ClustersTo, escape_head, head_bytes, HeadReady, SkipToReady, SkippedTo, run_at, text_record, invalid_at, EscapeSpanReady, MarkSpanReady, ControlSpanReady, SpecialStep, NextSpanReady, SpanStep};

use super::Span;
use super::kind::SpanKind;
use super::sequence::{Sequence, sequence_at};
use super::sgr::bytes_from;
use buffer::byte_at;
use text::BytePlace;
use text::class::{Class, Profile, is_printable};
use text::scalar::scalar_at;
use text::segmentation::{cluster_end, next_cluster};
use text::utf8::run_end;

// What a cluster that is no part of a text is: a kind of span, and its length.
#[derive(Clone, Copy)]
pub struct SpanHead {
    pub kind: SpanKind,
    pub len: usize,
}

// Where a reading stands: a place, and the end of the run that it lies in, where that is known; else nothing beyond the place.
#[derive(Clone, Copy)]
pub struct Place {
    pub at: usize,
    pub run: usize,
}

// What a segment is: what stands before the match of a number, or after the last one; or the match.
#[derive(Clone, Copy, PartialEq, Eq, Debug)]
pub enum Matched {
    Before(usize),
    Match(usize),
}

// A span, and where the reading stands after it.
#[derive(Clone, Copy)]
pub struct NextSpan {
    pub span: Span,
    pub place: Place,
}

// Is the byte a C0 control, CR apart? No rule joins what stands after it.
fn is_c0_not_cr(b: u8) -> bool
    ensures { result ≡ c0_not_cr b }
{
    (b <= 0x1F) & (b != 0x0D)
}

// How many bytes in front are printable.
fn printable_len(s: &[u8]) -> usize
    ensures printable { result ≡ prefix_len printable s.now }
    ensures inside { result ≤ length s.now }
{
    s.iter().take_while(|b| is_printable(**b as u32)).count()
}

// Past printable bytes, each a plain cluster by itself; the last of them is left where what follows may join it.
fn printable_end(profile: Profile, t: &[u8], at: usize) -> usize
    requires { at < length t.now }
    ensures { PrintableTo (profile_of profile) t.now at result }
{
    let end = at + printable_len(bytes_from(t, at));
    if (at < end) & (0x80 <= byte_at(t, end)) {
        return end - 1;
    }
    end
}

// Is it class LV, LVT, other or Extended_Pictographic? No rule joins two scalars of these classes, and none of them is without width.
fn is_syllable_or_other(class: Class) -> bool
    ensures { result ≡ syllable_or_other (class_number class) }
{
    matches!(
        class,
        Class::Lv | Class::Lvt | Class::Other | Class::ExtendedPictographic
    )
}

// Past scalars of these classes, in the same way.
fn syllables_and_others_end(profile: Profile, t: &[u8], at: usize) -> usize
    requires { at ≤ length t.now }
    ensures { SyllablesTo (profile_of profile) t.now at result }
{
    let mut i = at;
    let mut next = at;
    while next < t.len() {
        let Some(u) = scalar_at(profile, t, next) else {
            return i;
        };
        if is_syllable_or_other(u.class()) {
            i = next;
            next += u.len();
        } else {
            if byte_at(t, next) < 0x80 {
                return next;
            }
            return i;
        }
    }
    next
}

// Past clusters that have a width: they are parts of a text. Up to a printable byte after the first that no mark follows.
fn clusters_end(profile: Profile, t: &[u8], at: usize) -> usize
    requires { at < length t.now }
    ensures { ClustersTo (profile_of profile) t.now at result }
{
    let mut p = at;
    let mut u = scalar_at(profile, t, at);
    while let Some(_) = u {
        let step = next_cluster(profile, t, BytePlace(p), u);
        if step.part.width.0 == 0 {
            return p;
        }
        p = step.part.end.0;
        u = step.next;
        let printable = is_printable(byte_at(t, p) as u32);
        if printable & (byte_at(t, p + 1) < 0x80) {
            return p;
        }
    }
    p
}

// The end of the text that begins at a place, which is the place where none does.
fn text_end(profile: Profile, t: &[u8], at: usize) -> usize
    requires { at ≤ length t.now }
    ensures { result ≡ at + plain_size (profile_of profile) (clusters_at (profile_of profile) (drop at t.now)) }
{
    let mut i = at;
    while i < t.len() {
        let a = printable_end(profile, t, i);
        if is_c0_not_cr(byte_at(t, a)) {
            return a;
        }
        let b = syllables_and_others_end(profile, t, a);
        if is_c0_not_cr(byte_at(t, b)) {
            return b;
        }
        let end = clusters_end(profile, t, b);
        if is_printable(byte_at(t, end) as u32) {
            i = end;
        } else {
            return end;
        }
    }
    i
}

fn head(kind: SpanKind, len: usize) -> SpanHead
    ensures { result ≡ a_head kind len }
{
    SpanHead { kind, len }
}

// The span that a sequence is; without one, ESC is Control.
#[tactic(auto, unfolding(crate::specs::Reader::escape_head))]
fn escape_head(found: Option<Sequence>) -> SpanHead
    ensures { result ≡ escape_head found }
{
    match found {
        None => head(SpanKind::Control, 1),
        Some(Sequence::Sgr { len }) => head(SpanKind::SgrSequence, len),
        Some(Sequence::Hyperlink { len, .. }) => head(SpanKind::Hyperlink, len),
        Some(Sequence::LineDrawing { len, .. }) => head(SpanKind::LineDrawing, len),
        Some(Sequence::Ignored { len }) => head(SpanKind::Ignore, len),
        Some(Sequence::EraseToEnd { len }) => head(SpanKind::EraseToEndOfLine, len),
    }
}

// What the cluster from `at` to `end` is that is no part of a text, where no sequence begins.
#[tactic(auto, using(crate::proofs::ClusterBytes::head_is), unfolding(crate::proofs::ClusterBytes::head_of))]
fn head_at(t: &[u8], at: usize, end: usize) -> SpanHead
    requires { HeadReady t.now at end }
    ensures { result ≡ head_bytes (end - at) (get_or t.now at 0) (get_or t.now (at + 1) 0) missing }
{
    match (end - at, byte_at(t, at), byte_at(t, at + 1)) {
        (1, b'\n', _) => head(SpanKind::Lf, 1),
        (1, b'\t', _) => head(SpanKind::Tab, 1),
        (1, 0..=0x1F | 0x7F, _) => head(SpanKind::Control, 1),
        (2, b'\r', b'\n') => head(SpanKind::CrLf, 2),
        (n, _, _) => head(SpanKind::Unprintable, n),
    }
}

// Past the clusters that begin before `stop`, where the byte before it begins one, as the last byte of every sequence does.
fn skip_to(profile: Profile, t: &[u8], at: usize, stop: usize) -> usize
    requires { SkipToReady t.now at stop }
    ensures { SkippedTo (profile_of profile) t.now at stop result }
{
    if stop <= at {
        return at;
    }
    cluster_end(profile, t, stop - 1)
}

// The end of the run at the place.
fn run_at(t: &[u8], c: Place) -> usize
    requires { NextSpanReady t.now c }
    ensures { result ≡ run_at t.now c.at }
{
    if c.at < c.run {
        return c.run;
    }
    run_end(t, c.at)
}

// A record: the one place where a kind becomes its number.
fn span_of(kind: SpanKind, at: usize, len: usize, matched: usize) -> Span
    ensures { result ≡ a_record (number_of_kind kind) at len matched }
{
    Span {
        kind: kind as usize,
        place: BytePlace(at),
        len,
        matched,
    }
}

// The text from `at` to `end`: Text, or Match.
#[tactic(auto, unfolding(crate::specs::Reader::text_record))]
fn text_span(at: usize, end: usize, m: Matched) -> Span
    requires { at ≤ end }
    ensures { result ≡ text_record m at (end - at) }
{
    match m {
        Matched::Match(number) => span_of(SpanKind::Match, at, end - at, number),
        Matched::Before(_) => span_of(SpanKind::Text, at, end - at, 0),
    }
}

// The span of an ESC, and the place after what is dropped. The end of the run is looked for here alone, and kept for the next ESC.
fn escape_span(profile: Profile, t: &[u8], c: Place) -> NextSpan
    requires { EscapeSpanReady t.now c }
    ensures { SpecialStep (profile_of profile) t.now c.at result }
{
    let run = run_at(t, c);
    let l = escape_head(sequence_at(t, c.at, run));
    let at = skip_to(profile, t, c.at + 1, c.at + l.len);
    NextSpan {
        span: span_of(l.kind, c.at, l.len, 0),
        place: Place { at, run },
    }
}

// The span of the cluster from a place to `end` that is no part of a text, and no ESC.
fn mark_span(profile: Profile, t: &[u8], c: Place, end: usize) -> NextSpan
    requires { MarkSpanReady (profile_of profile) t.now c end }
    ensures { SpecialStep (profile_of profile) t.now c.at result }
{
    let l = head_at(t, c.at, end);
    NextSpan {
        span: span_of(l.kind, c.at, l.len, 0),
        place: Place { at: end, ..c },
    }
}

// The span of a control byte that is a cluster by itself.
fn control_span(profile: Profile, t: &[u8], c: Place) -> NextSpan
    requires { ControlSpanReady t.now c }
    ensures { SpecialStep (profile_of profile) t.now c.at result }
{
    if byte_at(t, c.at) == 0x1B {
        return escape_span(profile, t, c);
    }
    mark_span(profile, t, c, c.at + 1)
}

// The span of a damaged byte.
fn invalid_span(c: Place) -> NextSpan
    requires { c.at < 65536 }
    ensures { result ≡ invalid_at c }
{
    NextSpan {
        span: span_of(SpanKind::Invalid, c.at, 1, 0),
        place: Place { at: c.at + 1, ..c },
    }
}

// The next span of a segment, which is a match or stands before one.
pub(crate) fn next_span(profile: Profile, t: &[u8], c: Place, m: Matched) -> NextSpan
    requires { NextSpanReady t.now c }
    ensures { SpanStep (profile_of profile) t.now m c.at result }
{
    if is_c0_not_cr(byte_at(t, c.at)) {
        return control_span(profile, t, c);
    }
    let Some(u) = scalar_at(profile, t, c.at) else {
        return invalid_span(c);
    };
    let first = next_cluster(profile, t, BytePlace(c.at), Some(u)).part;
    if first.width.0 == 0 {
        return mark_span(profile, t, c, first.end.0);
    }
    let end = text_end(profile, t, first.end.0);
    NextSpan {
        span: text_span(c.at, end, m),
        place: Place { at: end, ..c },
    }
}
