// Overstrike conversion: src/overstrike.rs. The result so far stands at the front of the buffer.
ghost use Rattle.std.specs.Prelude.{◌≡◌, true, ◌+◌, ◌-◌, ◌*◌, ◌≤◌, ◌<◌, [], ◌++◌, ◌∷◌, length, take};
ghost use Rattle.text.specs.Utf8.{same_bytes, decode, runs};
ghost use Rattle.text.specs.Overstrike.{bolded, underlined, ambiguous, backspace, step, convert_pieces, convert};
ghost use Rattle.text.specs.Backward.{backward};
ghost use Rattle.text.specs.Class.Code.{profile_of};
ghost use Rattle.text.specs.declared.overstrike.Pending.TheVariants.{Held};
ghost use Rattle.text.specs.Overstrike.Code.{BackReady, BackspaceStep, FinishReady, Finished, FrontKnown, LineCopied, PieceDone, PieceReady, Pushed, SpanDone, StepReady, Stepped, Strike, StruckStep, Wrote, conversion, order_of, part_of, plain, state_of, style_of};

use super::backward::{Erasure, Written};
use super::class::Profile;
use super::segmentation::cluster_end;
use super::utf8::decode;

// An overstrike style.
#[derive(Clone, Copy, PartialEq, Eq)]
pub struct Overstrike {
    pub bold: bool,
    pub underline: bool,
}

impl Overstrike {
    const NORMAL: Overstrike = Overstrike {
        bold: false,
        underline: false,
    };

    fn bold(self) -> Overstrike
        ensures { style_of result ≡ bolded (style_of self) }
    {
        Overstrike { bold: true, ..self }
    }

    fn underline(self) -> Overstrike
        ensures { style_of result ≡ underlined (style_of self) }
    {
        Overstrike {
            underline: true,
            ..self
        }
    }

    // Overstriking `_` with itself, in this style and after a cluster of another: the existing overstrike goes on if there is any.
    fn strike_underscore(self, before: Overstrike) -> Overstrike
        ensures { style_of result ≡ ambiguous (style_of before) (style_of self) }
    {
        if self.bold | self.underline {
            return Overstrike {
                bold: true,
                underline: true,
            };
        }
        if before.bold | before.underline {
            return before;
        }
        Overstrike {
            bold: true,
            underline: false,
        }
    }
}

// A cluster's part of the line.
#[derive(Clone, Copy)]
pub struct LinePart {
    pub at: usize,
    pub end: usize,
}

// prev_grapheme: none, one, or one after which a backspace has been read.
#[derive(Clone, Copy)]
pub enum Pending {
    Nothing,
    Held(LinePart),
    Struck(LinePart),
}

// convert_unicode_span's variables: the length of the result, prev_grapheme, prev_overstrike and overstrike; a place of the result at which an
// even number of regional indicators ends.
#[derive(Clone, Copy)]
pub struct Conversion {
    pub len: usize,
    pub pending: Pending,
    pub before: Overstrike,
    pub style: Overstrike,
    pub known: usize,
}

// Erases the last cluster of the result, or adds a backspace.
fn backspace(profile: Profile, out: &mut [u8], len: usize, known: usize) -> Erasure
    requires { BackReady (profile_of profile) out.old len known }
    ensures { FrontKnown (profile_of profile) out.new result (backspace (profile_of profile) (backward (take len out.old))) }
{
    let written = Written {
        profile,
        text: &out[..len],
        known,
    };
    let k = written.erase_last();
    if k.at < len {
        return k;
    }
    out[len] = 0x08;
    Erasure {
        at: len + 1,
        known: k.known,
    }
}

// Bytes after the result, by a loop. It is called: drawn into the steps of `convert` it slows them.
#[inline(never)]
fn push_many(out: &mut [u8], len: usize, src: &[u8]) -> usize
    requires { len + length src.now ≤ length out.old }
    ensures { Pushed out.old out.new len src.now result }
{
    buffer::copy(out, len, src)
}

// Bytes after the result, few at once without a loop.
fn push(out: &mut [u8], len: usize, src: &[u8]) -> usize
    requires { len + length src.now ≤ length out.old }
    ensures { Pushed out.old out.new len src.now result }
{
    let n = src.len();
    if 4 < n {
        return push_many(out, len, src);
    }
    if n == 0 {
        return len;
    }
    out[len] = src[0];
    if n == 1 {
        return len + 1;
    }
    out[len + 1] = src[1];
    if n == 2 {
        return len + 2;
    }
    out[len + 2] = src[2];
    if n == 3 {
        return len + 3;
    }
    out[len + 3] = src[3];
    len + 4
}

// The style order from prev to style.
fn add_control_sequence(out: &mut [u8], len: usize, prev: Overstrike, style: Overstrike) -> usize
    requires { len + length (order_of prev style) ≤ length out.old }
    ensures { Pushed out.old out.new len (order_of prev style) result }
{
    let bold_off = prev.bold & !style.bold;
    let bold_on = !prev.bold & style.bold;
    let underline_off = prev.underline & !style.underline;
    let underline_on = !prev.underline & style.underline;
    if bold_off {
        if underline_off {
            return push(out, len, b"\x1b[22;24m");
        }
        if underline_on {
            return push(out, len, b"\x1b[22;4m");
        }
        return push(out, len, b"\x1b[22m");
    }
    if bold_on {
        if underline_off {
            return push(out, len, b"\x1b[24;1m");
        }
        if underline_on {
            return push(out, len, b"\x1b[1;4m");
        }
        return push(out, len, b"\x1b[1m");
    }
    if underline_off {
        return push(out, len, b"\x1b[24m");
    }
    if underline_on {
        return push(out, len, b"\x1b[4m");
    }
    len
}

// The style order from prev to style and a cluster after the result.
fn push_styled(
    out: &mut [u8],
    len: usize,
    prev: Overstrike,
    style: Overstrike,
    cluster: &[u8],
) -> usize
    requires { len + (length (order_of prev style) + length cluster.now) ≤ length out.old }
    ensures { Pushed out.old out.new len (order_of prev style ++ cluster.now) result }
{
    if prev == style {
        return push(out, len, cluster);
    }
    let n = add_control_sequence(out, len, prev, style);
    push(out, n, cluster)
}

// As `==` says; that walk is not drawn into the code here, and takes `convert` an eighth longer.
fn same_bytes(x: &[u8], y: &[u8]) -> bool
    ensures { result ≡ same_bytes x.now y.now }
{
    if x.len() != y.len() {
        return false;
    }
    let mut i = 0;
    while i < x.len() {
        if x[i] != y[i] {
            return false;
        }
        i += 1;
    }
    true
}

// Are the bytes this one alone?
fn is_byte(x: &[u8], b: u8) -> bool
    ensures { result ≡ same_bytes x.now (b ∷ []) }
{
    if x.len() == 1 {
        return x[0] == b;
    }
    false
}

impl Conversion {
    const START: Conversion = Conversion {
        len: 0,
        pending: Pending::Nothing,
        before: Overstrike::NORMAL,
        style: Overstrike::NORMAL,
        known: 0,
    };

    // A cluster that is a backspace.
    fn on_backspace(self, profile: Profile, out: &mut [u8]) -> Conversion
        requires { BackReady (profile_of profile) out.old self.len self.known }
        ensures { BackspaceStep (profile_of profile) out.old out.new self result }
    {
        if let Pending::Held(cluster) = self.pending {
            return Conversion {
                pending: Pending::Struck(cluster),
                ..self
            };
        }
        let erased = backspace(profile, out, self.len, self.known);
        Conversion {
            len: erased.at,
            pending: Pending::Nothing,
            before: self.before,
            style: Overstrike::NORMAL,
            known: erased.known,
        }
    }

    // The cluster held in the pending one's place.
    fn replace(self, cluster: LinePart, style: Overstrike) -> Conversion
        ensures { result ≡ conversion self.len (Held cluster) self.before style self.known }
    {
        Conversion {
            pending: Pending::Held(cluster),
            style,
            ..self
        }
    }

    // The cluster `upper` over the struck one.
    fn strike(self, line: &[u8], under: LinePart, upper: LinePart) -> Conversion
        requires { Strike line.now self under upper }
        ensures { StruckStep line.now self upper result }
    {
        let below = &line[under.at..under.end];
        let above = &line[upper.at..upper.end];
        let is_upper = is_byte(above, 0x5F);
        let is_under = is_byte(below, 0x5F);
        if same_bytes(below, above) {
            if is_upper {
                return self.replace(under, self.style.strike_underscore(self.before));
            }
            return self.replace(under, self.style.bold());
        }
        if is_upper {
            return self.replace(under, self.style.underline());
        }
        if is_under {
            return self.replace(upper, self.style.underline());
        }
        self.replace(upper, Overstrike::NORMAL)
    }

    // The cluster held after a result of `len` bytes.
    fn hold(self, len: usize, cluster: LinePart) -> Conversion
        ensures { result ≡ conversion len (Held cluster) self.style plain self.known }
    {
        Conversion {
            len,
            pending: Pending::Held(cluster),
            before: self.style,
            style: Overstrike::NORMAL,
            ..self
        }
    }

    // A step of convert_unicode_span: the next cluster of the line.
    fn step(self, profile: Profile, out: &mut [u8], line: &[u8], cluster: LinePart) -> Conversion
        requires { StepReady (profile_of profile) line.now out.old self cluster }
        ensures { Stepped (profile_of profile) line.now out.new result (step (profile_of profile) (state_of line.now out.old self) (part_of line.now cluster.at cluster.end)) }
    {
        if is_byte(&line[cluster.at..cluster.end], 0x08) {
            return self.on_backspace(profile, out);
        }
        match self.pending {
            Pending::Nothing => self.hold(self.len, cluster),
            Pending::Held(before) => {
                let text = &line[before.at..before.end];
                let n = push_styled(out, self.len, self.before, self.style, text);
                self.hold(n, cluster)
            }
            Pending::Struck(under) => self.strike(line, under, cluster),
        }
    }

    // The run's end.
    fn finish(self, out: &mut [u8], line: &[u8]) -> usize
        requires { FinishReady line.now out.old self }
        ensures { Finished line.now out.old out.new self result }
    {
        if let Pending::Held(cluster) = self.pending {
            let text = &line[cluster.at..cluster.end];
            let n = push_styled(out, self.len, self.before, self.style, text);
            return add_control_sequence(out, n, self.style, Overstrike::NORMAL);
        }
        add_control_sequence(out, self.len, self.before, Overstrike::NORMAL)
    }
}

// A piece of a line read up to a place, and its conversion written up to a place.
#[derive(Clone, Copy)]
pub struct Progress {
    pub read: usize,
    pub written: usize,
}

// convert_unicode_span: the run that the line begins with converted into the buffer.
fn convert_unicode_span(profile: Profile, line: &[u8], out: &mut [u8]) -> Progress
    requires { 8 * length line.now ≤ length out.old }
    ensures { SpanDone (profile_of profile) line.now out.new result }
{
    let mut st = Conversion::START;
    let mut p = 0;
    while p < line.len() {
        let e = cluster_end(profile, line, p);
        if e == p {
            let n = st.finish(out, line);
            return Progress {
                read: p,
                written: n,
            };
        }
        st = st.step(profile, out, line, LinePart { at: p, end: e });
        p = e;
    }
    let n = st.finish(out, line);
    Progress {
        read: p,
        written: n,
    }
}

// The piece of the line where the last one ended: a run converted, or a damaged byte copied.
fn convert_piece(profile: Profile, line: &[u8], out: &mut [u8], done: Progress) -> Progress
    requires { PieceReady line.now out.old done }
    ensures { PieceDone (profile_of profile) line.now out.old out.new done result }
{
    let at = done.read;
    let len = done.written;
    if decode(line, at).is_none() {
        out[len] = line[at];
        return Progress {
            read: at + 1,
            written: len + 1,
        };
    }
    let run = convert_unicode_span(profile, &line[at..], &mut out[len..]);
    Progress {
        read: at + run.read,
        written: len + run.written,
    }
}

// The line converted piece by piece.
fn convert_pieces(profile: Profile, line: &[u8], out: &mut [u8]) -> usize
    requires { 8 * length line.now ≤ length out.old }
    ensures { Wrote out.new result (convert_pieces (profile_of profile) (runs (decode line.now))) }
{
    let mut done = Progress {
        read: 0,
        written: 0,
    };
    while done.read < line.len() {
        done = convert_piece(profile, line, out, done);
    }
    done.written
}

// Copies the line to the front of the buffer. Has it a byte 08? One pass: a look that stops at the first 08 would be a second one.
fn copy_line(line: &[u8], out: &mut [u8]) -> bool
    requires { length line.now ≤ length out.old }
    ensures { LineCopied line.now out.new result }
{
    let mut found = false;
    let mut i = 0;
    while i < line.len() {
        out[i] = line[i];
        found = found | (line[i] == 0x08);
        i += 1;
    }
    found
}

// convert_overstrike: the line converted at the front of the buffer.
pub(crate) fn convert_overstrike(profile: Profile, line: &[u8], out: &mut [u8]) -> usize
    requires { 8 * length line.now ≤ length out.old }
    ensures { Wrote out.new result (convert (profile_of profile) line.now) }
{
    if copy_line(line, out) {
        return convert_pieces(profile, line, out);
    }
    line.len()
}
