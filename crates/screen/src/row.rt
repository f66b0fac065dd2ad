// The cells of a row, three numbers each: the place of the cell's cluster in the list, 0 for a blank; the cluster's length, 0 in the later
// cells of a wide one; the place of its attribute body, of a blank the place of its background, 0 for default.
ghost use Rattle.std.specs.Prelude.{◌≡◌, ◌+◌, ◌*◌, ◌-◌, take, drop, length};
ghost use Rattle.std.proofs.lemmas.List.Edits.{sets};
ghost use Rattle.screen.specs.Row.{is_later};
ghost use Rattle.screen.specs.Row.Contracts.{part, cells_in, cell_in, first_column, laters, set_cell, same_numbers, cluster_numbers, CellReady, CellsReady, ClusterReady};

// How many bytes a part of the list has.
pub(crate) fn part_len(list: &[u8], at: usize, len: usize) -> usize
    ensures { result ≡ length (part list.now at len) }
{
    if list.len() <= at {
        return 0;
    }
    len.min(list.len() - at)
}

fn set_cell(row: &mut [usize], i: usize, cluster: usize, len: usize, body: usize)
    requires { CellReady row.old i }
    ensures { row.new ≡ set_cell row.old i cluster len body }
{
    row[3 * i] = cluster;
    row[3 * i + 1] = len;
    row[3 * i + 2] = body;
}

// Is it a later cell of a wide cluster?
pub(crate) fn is_later(list: &[u8], row: &[usize], i: usize) -> bool
    requires { CellReady row.now i }
    ensures { result ≡ is_later (cell_in list.now row.now i) }
{
    let cluster = row[3 * i];
    let len = row[3 * i + 1];
    if cluster == 0 {
        return false;
    }
    part_len(list, cluster, len) == 0
}

// The first column of the cluster that the cells before `at` end in.
pub(crate) fn first_column(list: &[u8], row: &[usize], at: usize) -> usize
    requires { CellsReady row.now 0 at }
    ensures { result ≡ first_column (take at (cells_in list.now row.now)) }
{
    let mut i = at;
    while 0 < i {
        i -= 1;
        if !is_later(list, row, i) {
            return i;
        }
    }
    0
}

// The column after the later cells that stand from `from` on, before `end`.
pub(crate) fn behind_later(list: &[u8], row: &[usize], from: usize, end: usize) -> usize
    requires { CellsReady row.now from end }
    ensures { result ≡ from + laters (drop from (take end (cells_in list.now row.now))) }
{
    for i in from..end {
        if !is_later(list, row, i) {
            return i;
        }
    }
    end
}

// Cells alike from a column to another.
pub(crate) fn fill(
    row: &mut [usize],
    from: usize,
    to: usize,
    cluster: usize,
    len: usize,
    body: usize,
)
    requires { CellsReady row.old from to }
    ensures { row.new ≡ sets row.old (3 * from) (same_numbers (to - from) cluster len body) }
{
    for i in from..to {
        set_cell(row, i, cluster, len, body);
    }
}

// The cells of a cluster from a column to another.
pub(crate) fn set_cluster(
    row: &mut [usize],
    from: usize,
    to: usize,
    cluster: usize,
    len: usize,
    body: usize,
)
    requires { ClusterReady row.old from to }
    ensures { row.new ≡ sets row.old (3 * from) (cluster_numbers (to - from) cluster len body) }
{
    set_cell(row, from, cluster, len, body);
    fill(row, from + 1, to, cluster, 0, body);
}
