// Rows: the ranges of equal kinds, without those of kind 45 (no class, width 1, no conjunct value).
ghost use Rattle.std.specs.Prelude.{◌≡◌, ◌+◌, ◌≤◌, ◌==◌, length, drop};
ghost use Rattle.std.specs.List.{prefix_len};
ghost use Rattle.unicode_io.specs.Rows.{next_row, row_in, rows_from};

// A row ends before `end`.
#[derive(Clone, Copy, PartialEq, Eq, Debug)]
pub struct Row {
    pub low: usize,
    pub end: usize,
    pub kind: u32,
}

fn kinds_from(kinds: &[u32], at: usize) -> &[u32]
    ensures { result.now ≡ drop at kinds.now }
{
    kinds.get(at..).unwrap_or(&[])
}

// How many kinds in front are this one.
fn leading(kinds: &[u32], kind: u32) -> usize
    ensures equal { result ≡ prefix_len (λ k. k == kind) kinds.now }
    ensures inside { result ≤ length kinds.now }
{
    kinds.iter().take_while(|k| **k == kind).count()
}

// The first place from `at` on whose kind is another.
fn run_end(kinds: &[u32], at: usize, kind: u32) -> usize
    ensures { result ≡ at + prefix_len (λ k. k == kind) (drop at kinds.now) }
{
    let rest = kinds_from(kinds, at);
    at + leading(rest, kind)
}

// The first row from `at` on.
pub fn next_row(kinds: &[u32], at: usize) -> Option<Row>
    ensures { result ≡ row_in (next_row at kinds.now) }
{
    let low = run_end(kinds, at, 45);
    if kinds.len() <= low {
        return None;
    }
    let kind = kinds[low];
    let end = run_end(kinds, low, kind);
    Some(Row { low, end, kind })
}

pub fn count_rows(kinds: &[u32]) -> usize
    ensures { result ≡ length (rows_from 0 kinds.now) }
{
    let mut n = 0;
    let mut at = 0;
    while let Some(row) = next_row(kinds, at) {
        n += 1;
        at = row.end;
    }
    n
}
