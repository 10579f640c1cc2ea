// Two kinds of column that only the tables have: dates, and floats that may be infinite.
ghost use Rattle.std.specs.Prelude.{◌≡◌, length};
ghost use Rattle.columns.specs.Rows.{some};
ghost use Rattle.faults.specs.Fault.{no_date_at, nan_at};

// Whether some number is no date.
pub fn no_date(s: &[u32]) -> bool
    ensures { result ≡ some (no_date_at s.now) (length s.now) }
{
    s.iter().any(|number| !days::is_date(*number))
}

// Whether some float is NaN.
pub fn not_a_number(s: &[f64]) -> bool
    ensures { result ≡ some (nan_at s.now) (length s.now) }
{
    s.iter().any(|float| float.is_nan())
}
