// One walk over a change list's records: a head, which is a little-endian length of the body and a 2-byte kind, and the body.
ghost use Rattle.std.specs.Prelude.{◌≡◌, ◌+◌, ◌≤◌, ◌<◌, length, take, drop};
ghost use Rattle.screen.specs.Records.{little_endian};
ghost use Rattle.screen.specs.Records.Contracts.{HeadReady, head_at};

use buffer::byte_at;

// A record's kind, the place and the length of its body, and whether head and body lie within the list.
#[derive(Clone, Copy)]
pub struct Head {
    pub kind: usize,
    pub start: usize,
    pub len: usize,
    pub whole: bool,
}

// The number that the 2 bytes at a place say; past the end they are 0.
fn read_le2(list: &[u8], at: usize) -> usize
    requires { at ≤ length list.now + 6 }
    ensures value { result ≡ little_endian (take 2 (drop at list.now)) }
    ensures upper_bound { result < 65536 }
{
    byte_at(list, at) as usize + 256 * byte_at(list, at + 1) as usize
}

// The length at a place, of 2 bytes or 4.
pub fn read_length(list: &[u8], at: usize, size: usize) -> usize
    requires { HeadReady list.now at size }
    ensures value { result ≡ little_endian (take size (drop at list.now)) }
    ensures upper_bound { result < 4294967296 }
{
    let low = read_le2(list, at);
    if size == 2 {
        return low;
    }
    low + 65536 * read_le2(list, at + 2)
}

// The head at a place; its length has `size` bytes.
pub(crate) fn head_at(list: &[u8], at: usize, size: usize) -> Head
    requires { HeadReady list.now at size }
    ensures { result ≡ head_at size list.now at }
{
    let len = read_length(list, at, size);
    let kind = read_le2(list, at + size);
    let start = at + size + 2;
    Head {
        kind,
        start,
        len,
        whole: start + len <= list.len(),
    }
}
