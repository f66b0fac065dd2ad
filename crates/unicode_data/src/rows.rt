// The row of a table that has a scalar.
ghost use Rattle.std.specs.Prelude.{◌≡◌, T};
ghost use Rattle.unicode_data.specs.Table.{rows_of, kind_in, ascending};

// No class.
const OTHER: u32 = 11;

const IN_NO_ROW: u32 = 4 * OTHER + 1;

// 4 times the class and the width of a scalar, by rows of three numbers: first scalar, last scalar, 4 times the class and the width.
pub(crate) fn find_row(rows: &[u32], x: u32) -> u32
    requires { T (ascending (rows_of rows.now)) }
    ensures { result ≡ kind_in (rows_of rows.now) x }
{
    let mut low = 0;
    let mut high = rows.len() / 3;
    while low < high {
        let middle = low + (high - low) / 2;
        let at = middle * 3;
        if x < rows[at] {
            high = middle;
        } else if rows[at + 1] < x {
            low = middle + 1;
        } else {
            return rows[at + 2];
        }
    }
    IN_NO_ROW
}
