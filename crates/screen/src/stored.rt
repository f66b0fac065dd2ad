// The stored form of a change list (document 02, U8) and back: records whose lengths have 2 bytes, and 4.
ghost use Rattle.std.specs.Prelude.{◌≡◌, ◌++◌, map, ◌+◌, length, leb};
ghost use Rattle.buffer.specs.Numbers.{le2};
ghost use Rattle.buffer.specs.Sink.{sink, emit};
ghost use Rattle.screen.specs.Records.{records, length_bytes, encode_one, encode};
ghost use Rattle.screen.specs.Records.Contracts.{record_of, LengthSize};
ghost use Rattle.screen.specs.Stored.{lengthened};
ghost use Rattle.screen.specs.Stored.Contracts.{is_formed, refusal_in, refusal_of, whole_record, WriteRecordsReady};

use super::BODY_SIZE;
use super::body::{OLD_SIZE, is_of_kind};
use super::records::{Head, head_at};
use buffer::{push_element, push_elements, push_le2, push_le4};
use text::Refusal;

// Is it a whole record, with a body of its kind?
fn is_formed(list: &[u8], head: Head, old: bool) -> bool
    requires { head.whole ≡ leb (head.start + head.len) (length list.now) }
    ensures { result ≡ is_formed old (record_of list.now head) }
{
    let start = head.start;
    if head.whole {
        return is_of_kind(head.kind, &list[start..start + head.len], old);
    }
    false
}

// Questions 10 and 12: is each record whole, with a body of its kind, and is no body above 65,535 bytes?
pub(crate) fn storable(list: &[u8], size: usize, old: bool) -> Result<(), Refusal>
    requires { LengthSize size }
    ensures { refusal_in result ≡ refusal_of old (records size list.now) }
{
    let mut short = true;
    let mut at = 0;
    while at < list.len() {
        let head = head_at(list, at, size);
        if !is_formed(list, head, old) {
            return Err(Refusal::ListMalformed);
        }
        short = short & (head.len <= 65535);
        at = head.start + head.len;
    }
    if short {
        Ok(())
    } else {
        Err(Refusal::BodyTooLong)
    }
}

// The head of a record: a length of `size` bytes, and its kind.
#[inline]
fn write_head(size: usize, len: usize, kind: usize, out: &mut [u8], at: usize) -> usize
    ensures { sink out.new result ≡ emit (sink out.old at) (length_bytes size len ++ le2 kind) }
{
    if size == 2 {
        let a = push_le2(out, at, len);
        return push_le2(out, a, kind);
    }
    let a = push_le4(out, at, len);
    push_le2(out, a, kind)
}

// A record; an old attribute body gets baseline alignment.
fn write_record(kind: usize, body: &[u8], size: usize, out: &mut [u8], at: usize) -> usize
    ensures { sink out.new result ≡ emit (sink out.old at) (encode_one size (lengthened (whole_record kind body.now))) }
{
    if (kind == 2) & (body.len() == OLD_SIZE) {
        let a = write_head(size, BODY_SIZE, kind, out, at);
        let b = push_elements(out, a, body);
        return push_element(out, b, 0);
    }
    let a = write_head(size, body.len(), kind, out, at);
    push_elements(out, a, body)
}

// The records of a list, their lengths of `from` bytes written in `to` bytes.
pub(crate) fn write_records(list: &[u8], from: usize, to: usize, out: &mut [u8]) -> usize
    requires { WriteRecordsReady list.now from }
    ensures { sink out.new result ≡ emit (sink out.old 0) (encode to (map lengthened (records from list.now))) }
{
    let mut count = 0;
    let mut at = 0;
    while at < list.len() {
        let head = head_at(list, at, from);
        let start = head.start;
        let end = start + head.len;
        count = write_record(head.kind, &list[start..end], to, out, count);
        at = end;
    }
    count
}
