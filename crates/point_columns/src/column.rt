// Rows of one column.
ghost use Rattle.std.specs.Prelude.{◌≡◌, ◌++◌, ◌≤◌, length, drop, set};

// Sets row k, if the column has it.
pub(crate) fn put_row(out: &mut [f64], k: usize, x: f64)
    ensures { out.new ≡ set out.old k x }
{
    if k < out.len() {
        out[k] = x;
    }
}

// Writes rows from the column's beginning on.
pub fn put_rows(rows: &[f64], out: &mut [f64])
    requires { length rows.now ≤ length out.old }
    ensures { out.new ≡ rows.now ++ drop (length rows.now) out.old }
{
    // row by row, since a copy of a slice calls the C library's memmove
    for k in 0..rows.len() {
        out[k] = rows[k];
    }
}
