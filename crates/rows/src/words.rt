// Words of a text: src/line.rs, SplitWords.
ghost use Rattle.std.specs.Prelude.{◌≡◌, ◌+◌, ◌<◌, ◌^◌, length};
ghost use Rattle.text.specs.Class.Code.{profile_of};
ghost use Rattle.rows.specs.Words.Laws.{belongs};
ghost use Rattle.rows.specs.Words.Contracts.{byte_belongs, longer, WordAt};

use text::class::{Profile, is_whitespace};
use text::utf8::decode;
use text::width::width;
use text::{BytePlace, Column, TextPart};

// A word ends with it.
const HYPHEN: u8 = b'-';

// Is x a scalar of a separator, or else of a word before a `-`?
#[tactic(auto, unfolding(crate::specs::Words::Laws::belongs))]
fn belongs(sep: bool, x: u32) -> bool
    ensures { result ≡ belongs sep x }
{
    let space = is_whitespace(x);
    if sep {
        space
    } else {
        !space & (x != HYPHEN as u32)
    }
}

// Is it a byte that belongs, of one column: a space, or else one of 21 to 7E but for `-`?
fn byte_belongs(sep: bool, b: u8) -> bool
    ensures { result ≡ byte_belongs sep b }
{
    if sep {
        b == b' '
    } else {
        ((b'!' <= b) & (b <= b'~')) & (b != HYPHEN)
    }
}

// The part with one scalar more.
fn longer(part: TextPart, len: usize, width: usize) -> TextPart
    requires end { part.end.0 + len < 2 ^ 64 }
    requires width { part.width.0 + width < 2 ^ 64 }
    ensures { result ≡ longer part len width }
{
    TextPart {
        end: BytePlace(part.end.0 + len),
        width: Column(part.width.0 + width),
    }
}

// The word at a place with its separator.
pub(crate) fn next_word(profile: Profile, text: &[u8], at: BytePlace) -> TextPart
    requires { at.0 < length text.now }
    ensures { WordAt (profile_of profile) text.now at.0 result }
{
    let mut part = TextPart {
        end: at,
        width: Column(0),
    };
    let mut sep = false;
    while part.end.0 < text.len() {
        let i = part.end.0;
        if byte_belongs(sep, text[i]) {
            part = longer(part, 1, 1);
            continue;
        }
        let Some(scalar) = decode(text, i) else {
            return part;
        };
        if belongs(sep, scalar.code) {
            part = longer(part, scalar.len, width(profile, scalar.code));
            continue;
        }
        if sep {
            return part;
        }
        if scalar.code == HYPHEN as u32 {
            return longer(part, scalar.len, 1);
        }
        sep = true;
    }
    part
}
