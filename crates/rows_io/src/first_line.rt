// The first line of the input: width, space, mode (decimal digits), newline.
ghost use Rattle.std.specs.Prelude.{◌≡◌, true};
ghost use Rattle.rows_io.specs.FirstLine.{digit, more, empty, with_digit, with_byte, in_form, width_of, part_of};

// What was read of it: in the width (stage 0), in the mode (1) or in a line of another form (2), whether the number there has a digit,
// and whether the newline was read.
#[derive(Clone, Copy)]
pub struct FirstLine {
    pub(crate) stage: usize,
    pub(crate) digits: bool,
    pub width: usize,
    pub mode: usize,
    pub(crate) ended: bool,
}

// The first line so far, and the place behind it.
#[derive(Clone, Copy)]
pub struct Part {
    pub first: FirstLine,
    pub at: usize,
}

pub fn nothing() -> FirstLine
    ensures { result ≡ empty }
{
    FirstLine {
        stage: 0,
        digits: false,
        width: 0,
        mode: 0,
        ended: false,
    }
}

fn is_digit(b: u8) -> bool
    ensures { result ≡ digit b }
{
    (0x30 <= b) & (b <= 0x39)
}

// A number that has passed 65,535 stays where it is.
fn with_decimal(v: usize, b: u8) -> usize
    requires { digit b ≡ true }
    ensures { result ≡ more v b }
{
    if v <= 65535 {
        return v * 10 + (b - 0x30) as usize;
    }
    v
}

fn with_digit(f: FirstLine, b: u8) -> FirstLine
    requires { digit b ≡ true }
    ensures { result ≡ with_digit f b }
{
    if f.stage == 0 {
        return FirstLine {
            stage: 0,
            digits: true,
            width: with_decimal(f.width, b),
            mode: f.mode,
            ended: false,
        };
    }
    if f.stage == 1 {
        return FirstLine {
            stage: 1,
            digits: true,
            width: f.width,
            mode: with_decimal(f.mode, b),
            ended: false,
        };
    }
    f
}

fn with_byte(f: FirstLine, b: u8) -> FirstLine
    ensures { result ≡ with_byte f b }
{
    if b == 0x0A {
        return FirstLine {
            stage: f.stage,
            digits: f.digits,
            width: f.width,
            mode: f.mode,
            ended: true,
        };
    }
    if is_digit(b) {
        return with_digit(f, b);
    }
    if (b == 0x20) & ((f.stage == 0) & f.digits) {
        return FirstLine {
            stage: 1,
            digits: false,
            width: f.width,
            mode: f.mode,
            ended: false,
        };
    }
    FirstLine {
        stage: 2,
        digits: f.digits,
        width: f.width,
        mode: f.mode,
        ended: false,
    }
}

// The bytes of s that belong to the first line.
pub fn read_part(start: FirstLine, s: &[u8]) -> Part
    ensures { result ≡ part_of start s.now }
{
    let mut f = start;
    for i in 0..s.len() {
        if f.ended {
            return Part { first: f, at: i };
        }
        f = with_byte(f, s[i]);
    }
    Part {
        first: f,
        at: s.len(),
    }
}

// Is it width, space, mode, newline?
pub fn in_form(f: FirstLine) -> bool
    ensures { result ≡ in_form f }
{
    f.ended & ((f.stage == 1) & f.digits)
}

// The width; of a first line of another form, one that question 5 refuses.
pub(crate) fn width_of(f: FirstLine) -> usize
    ensures { result ≡ width_of f }
{
    if f.ended & ((f.stage == 1) & f.digits) {
        return f.width;
    }
    65536
}
