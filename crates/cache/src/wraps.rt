// Kept wraps in an array of 8,212 numbers: which are kept, and what a use leaves.
ghost use Rattle.std.specs.Prelude.{◌≡◌, ◌*◌, not, [], ◌∷◌, length, take, drop};
ghost use Rattle.std.proofs.Math.Option.{some};
ghost use Rattle.buffer.specs.Sink.{sink, emit};
ghost use Rattle.cache.specs.Wraps.{key, find, heads_in, has_block, well_kept, kept, without, head_numbers, after_use, with_wrap};
ghost use Rattle.cache.specs.Wraps.Contracts.{head_at, HeadAtReady, InHeads, Kept, option_of, kept_rows, new_heads, HeadsReady, NewBlock, AddReady, KeepReady, listed, ListReady};
ghost use Rattle.cache.specs.Calls.Contracts.{RememberReady, Remembered};

use buffer::{copy, push_elements};
use rows::{Mode, Request};
use text::Answer;

// How many wraps are kept at most, and how many rows each may have.
const MAX_KEPT: usize = 4;

const MAX_ROWS: usize = 1024;

// How many numbers a head takes, the heads together, and a block: start and end of each row.
const HEAD_LEN: usize = 5;

const HEADS_LEN: usize = 20;

pub(crate) const BLOCK_LEN: usize = 2048;

// What a wrap is found by.
#[derive(Clone, Copy, PartialEq, Eq, Debug)]
pub(crate) struct Key {
    pub(crate) version: usize,
    pub(crate) width: usize,
    pub(crate) mode: usize,
}

impl Key {
    // Of a width and a mode, by the profile of document 01.
    pub(crate) fn of(width: usize, mode: usize) -> Key
        ensures { result ≡ key 0 width mode }
    {
        Key {
            version: 0,
            width,
            mode,
        }
    }
}

// A head: the key of a wrap, the number of its rows and its block.
#[derive(Clone, Copy)]
pub(crate) struct Head {
    pub(crate) key: Key,
    pub(crate) count: usize,
    pub(crate) block: usize,
}

fn head_at(wraps: &[usize], i: usize) -> Head
    requires { HeadAtReady wraps.now i }
    ensures { result ≡ head_at wraps.now i }
{
    Head {
        key: Key {
            version: wraps[HEAD_LEN * i],
            width: wraps[HEAD_LEN * i + 1],
            mode: wraps[HEAD_LEN * i + 2],
        },
        count: wraps[HEAD_LEN * i + 3],
        block: wraps[HEAD_LEN * i + 4],
    }
}

// How many heads stand before one of no rows.
fn heads_in(wraps: &[usize]) -> usize
    requires { length wraps.now ≡ 8212 }
    ensures { InHeads wraps.now result }
{
    for n in 0..MAX_KEPT {
        if head_at(wraps, n).count == 0 {
            return n;
        }
    }
    MAX_KEPT
}

// Has no head from one on this block?
fn is_free(wraps: &[usize], n: usize, from: usize, block: usize) -> bool
    requires { InHeads wraps.now n }
    ensures { result ≡ not (has_block block (drop from (heads_in 4 wraps.now))) }
{
    for i in from..n {
        if head_at(wraps, i).block == block {
            return false;
        }
    }
    true
}

// Has no wrap more than 1,024 rows, and have the n heads the blocks below n, each once?
fn well_kept(wraps: &[usize], n: usize) -> bool
    requires { InHeads wraps.now n }
    ensures { result ≡ well_kept n (heads_in 4 wraps.now) }
{
    for i in 0..n {
        let head = head_at(wraps, i);
        let free = is_free(wraps, n, i + 1, head.block);
        if !(((head.count <= MAX_ROWS) & (head.block < n)) & free) {
            return false;
        }
    }
    true
}

// How many wraps are kept.
fn heads_kept(wraps: &[usize]) -> usize
    requires { length wraps.now ≡ 8212 }
    ensures { Kept wraps.now result }
{
    let n = heads_in(wraps);
    if well_kept(wraps, n) { n } else { 0 }
}

// The first kept head of a key.
fn find(wraps: &[usize], n: usize, key: Key) -> Option<Head>
    requires { Kept wraps.now n }
    ensures { result ≡ option_of (find key (kept wraps.now)) }
{
    for i in 0..n {
        let head = head_at(wraps, i);
        if key == head.key {
            return Some(head);
        }
    }
    None
}

// How many rows are kept for a key.
pub(crate) fn kept_rows(wraps: &[usize], key: Key) -> Option<usize>
    requires { length wraps.now ≡ 8212 }
    ensures { result ≡ kept_rows key wraps.now }
{
    let head = find(wraps, heads_kept(wraps), key)?;
    Some(head.count)
}

#[tactic(auto, unfolding(crate::specs::Wraps::head_numbers))]
fn push_head(heads: &mut [usize], at: usize, head: Head) -> usize
    ensures { sink heads.new result ≡ emit (sink heads.old at) (head_numbers (head ∷ [])) }
{
    let key = head.key;
    push_elements(
        heads,
        at,
        &[key.version, key.width, key.mode, head.count, head.block],
    )
}

// A head, unless it is that of this key.
fn push_other(heads: &mut [usize], at: usize, head: Head, key: Key) -> usize
    ensures { sink heads.new result ≡ emit (sink heads.old at) (head_numbers (without key (head ∷ []))) }
{
    if key == head.key {
        return at;
    }
    push_head(heads, at, head)
}

// The kept heads of other keys, in their order.
fn push_others(heads: &mut [usize], start: usize, wraps: &[usize], n: usize, key: Key) -> usize
    requires { Kept wraps.now n }
    ensures { sink heads.new result ≡ emit (sink heads.old start) (head_numbers (without key (kept wraps.now))) }
{
    let mut at = start;
    for i in 0..n {
        at = push_other(heads, at, head_at(wraps, i), key);
    }
    at
}

// The heads after a use: that of the wrap used, and the others after it, as many as there is room for.
fn heads_after(heads: &mut [usize], wraps: &[usize], n: usize, used: Head)
    requires { HeadsReady heads.old wraps.now n }
    ensures { heads.new ≡ new_heads (kept wraps.now) used }
{
    let at = push_head(heads, 0, used);
    push_others(heads, at, wraps, n, used.key);
}

// A kept wrap is used.
fn use_wrap(wraps: &mut [usize], n: usize, used: Head)
    requires { Kept wraps.old n }
    ensures { wraps.new ≡ after_use wraps.old (kept wraps.old) used }
{
    let mut heads = [0usize; HEADS_LEN];
    heads_after(&mut heads, wraps, n, used);
    copy(wraps, 0, &heads);
}

// The block of a new wrap: the next one, or that of the least recently used, which gives way.
fn new_block(wraps: &[usize], n: usize) -> usize
    requires { Kept wraps.now n }
    ensures { NewBlock wraps.now result }
{
    if n < MAX_KEPT {
        n
    } else {
        head_at(wraps, MAX_KEPT - 1).block
    }
}

// A new wrap of at most 1,024 rows is kept.
fn add_wrap(wraps: &mut [usize], rows: &[usize], n: usize, key: Key, count: usize)
    requires { AddReady wraps.old n rows.now count }
    ensures { wraps.new ≡ with_wrap wraps.old (kept wraps.old) key count (take (2 * count) rows.now) }
{
    let block = new_block(wraps, n);
    let used = Head { key, count, block };
    let mut heads = [0usize; HEADS_LEN];
    heads_after(&mut heads, wraps, n, used);
    copy(wraps, HEADS_LEN + BLOCK_LEN * block, &rows[..2 * count]);
    copy(wraps, 0, &heads);
}

// A new wrap is used, and kept where it has at most 1,024 rows.
fn keep_wrap(wraps: &mut [usize], rows: &[usize], n: usize, key: Key, count: usize)
    requires { KeepReady wraps.old n rows.now count }
    ensures { wraps.new ≡ with_wrap wraps.old (kept wraps.old) key count (take (2 * count) rows.now) }
{
    if MAX_ROWS < count {
        return;
    }
    add_wrap(wraps, rows, n, key, count);
}

// The rows of a kept wrap at the front of the row list, where they are to be listed.
fn list_rows(rows: &mut [usize], wraps: &[usize], head: Head, list: bool)
    requires { ListReady rows.old wraps.now head list }
    ensures { rows.new ≡ listed list (some head) wraps.now rows.old }
{
    if !list {
        return;
    }
    let from = HEADS_LEN + BLOCK_LEN * head.block;
    let to = from + 2 * head.count;
    copy(rows, 0, &wraps[from..to]);
}

// What a call leaves that was answered so: an accepted one is a use of its key, but for Unwrapped height. The rows of a kept wrap are listed.
pub(crate) fn remember(wraps: &mut [usize], rows: &mut [usize], request: Request, answer: Answer)
    requires { RememberReady (key 0 request.width request.mode) request.listed answer.number answer.count wraps.old (length rows.old) }
    ensures { Remembered (key 0 request.width request.mode) request.listed answer.number answer.count wraps.old rows.old wraps.new rows.new }
{
    let unwrapped_height = (request.mode == Mode::Unwrapped as usize) & !request.listed;
    if (0 < answer.number) | unwrapped_height {
        return;
    }
    let key = Key::of(request.width, request.mode);
    let n = heads_kept(wraps);
    match find(wraps, n, key) {
        Some(head) => {
            list_rows(rows, wraps, head, request.listed);
            use_wrap(wraps, n, head);
        }
        None => keep_wrap(wraps, rows, n, key, answer.count),
    }
}
