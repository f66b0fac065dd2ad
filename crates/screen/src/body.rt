// The bodies that documents 01 and 02 allow for each kind.
ghost use Rattle.std.specs.Prelude.{◌≡◌, ◌≤◌};
ghost use Rattle.screen.specs.WellFormed.{color, fields, body_sizes, of_kind};

use super::BODY_SIZE;
use buffer::byte_at;
use text::utf8::run_end;

// The kinds of changes.
pub(crate) const TEXT: usize = 1;

pub(crate) const ATTRIBUTES: usize = 2;

pub(crate) const CLEAR_TO_END: usize = 3;

pub(crate) const CURSOR_RIGHT: usize = 4;

// The size of an old attribute body, without alignment.
pub(crate) const OLD_SIZE: usize = 24;

// Is it a colour that stands at a place of a body?
pub(crate) fn is_color(body: &[u8], at: usize) -> bool
    requires { at ≤ 12 }
    ensures { result ≡ color body.now at }
{
    let a = byte_at(body, at);
    let last = (byte_at(body, at + 2) == 0) & (byte_at(body, at + 3) == 0);
    ((a == 0) & ((byte_at(body, at + 1) == 0) & last)) | (((a == 1) & last) | (a == 2))
}

// Do attributes have allowed values?
pub(crate) fn are_fields(body: &[u8]) -> bool
    ensures { result ≡ fields body.now }
{
    let flags = byte_at(body, 3) <= 31;
    let font = (byte_at(body, 0) <= 2)
        & ((byte_at(body, 1) <= 2) & ((byte_at(body, 2) <= 2) & flags));
    let alignment = byte_at(body, 24) <= 2;
    font & (is_color(body, 4) & (is_color(body, 8) & (is_color(body, 12) & alignment)))
}

// Is it a body of its kind? `old` says whether an old attribute body is one.
pub(crate) fn is_of_kind(kind: usize, body: &[u8], old: bool) -> bool
    ensures { result ≡ of_kind (body_sizes old) kind body.now }
{
    let len = body.len();
    match kind {
        TEXT => run_end(body, 0) == len,
        ATTRIBUTES => ((old & (len == OLD_SIZE)) | (len == BODY_SIZE)) & are_fields(body),
        CLEAR_TO_END => (len == 4) & is_color(body, 0),
        CURSOR_RIGHT => len == 0,
        _ => false,
    }
}
