// DEC line drawing: src/line_drawing.rs.
ghost use Rattle.std.specs.Prelude.{◌≡◌, [], ◌-◌, ◌*◌, ◌≤◌, length, get_or};
ghost use Rattle.buffer.specs.Sink.{sink, emit};
ghost use Rattle.text.specs.Utf8.{bytes_of};
ghost use Rattle.text.specs.TextParts.{text_at};
ghost use Rattle.drawing.specs.Marks.{replacements, line_drawn};
ghost use Rattle.drawing.specs.LineDrawing.{Replaceable, has_replacements};

use buffer::push_elements;
use text::utf8::decode;

// What replaces 5F to 7E.
const REPLACEMENTS: [&str; 32] = [
    "\u{A0}", "◆", "▒", "␉", "␌", "␍", "␊", "°", "±", "␤", "␋", "┘", "┐", "┌", "└", "┼", "⎺", "⎻",
    "─", "⎼", "⎽", "├", "┤", "┴", "┬", "│", "≤", "≥", "π", "≠", "£", "·",
];

// What replaces a scalar of 5F to 7E.
fn push_replacement(out: &mut [u8], at: usize, code: u32) -> usize
    requires { Replaceable code }
    ensures { sink out.new result ≡ emit (sink out.old at) (get_or replacements (code - 0x5F) []) }
{
    let replacement = REPLACEMENTS[(code - 0x5F) as usize];
    push_elements(out, at, replacement.as_bytes())
}

// A text as line drawing shows it.
fn convert_line_drawing(out: &mut [u8], text: &[u8]) -> usize
    ensures { sink out.new result ≡ emit (sink out.old 0) (bytes_of (line_drawn (text_at text.now 0))) }
{
    let mut a = 0;
    let mut p = 0;
    while p < text.len() {
        let Some(scalar) = decode(text, p) else {
            return a;
        };
        let end = p + scalar.len;
        if (0x5F <= scalar.code) & (scalar.code <= 0x7E) {
            a = push_replacement(out, a, scalar.code);
        } else {
            a = push_elements(out, a, &text[p..end]);
        }
        p = end;
    }
    a
}

// Does line drawing replace any byte of the text?
fn has_replacements(text: &[u8]) -> bool
    ensures { result ≡ has_replacements text.now }
{
    text.iter().any(|&byte| (0x5F <= byte) & (byte <= 0x7E))
}

// What is handed to clipping: the text where no byte is replaced, else its line-drawn copy, three bytes a byte at most.
pub(crate) fn shown<'a>(text: &'a [u8], copy: &'a mut [u8]) -> &'a [u8]
    requires { 3 * length text.now ≤ length copy.old }
    ensures { text_at result.now 0 ≡ line_drawn (text_at text.now 0) }
{
    if has_replacements(text) {
        let len = convert_line_drawing(copy, text);
        return &copy[..len];
    }
    text
}
