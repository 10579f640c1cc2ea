// Columns of floats: whether some position is off the globe, or some number not finite.
ghost use Rattle.std.specs.Prelude.{◌≡◌, min, length};
ghost use Rattle.column_floats.specs.Real.{not_finite_at, off_globe_at};
ghost use Rattle.columns.specs.Rows.{among, some};

use columns::some_counted;
use globe::on_globe;

// Whether some row's position is off the globe: a NaN is.
pub fn off_globe(lat: &[f64], lon: &[f64], flags: &[u8], all: bool) -> bool
    ensures { result ≡ some (among all flags.now (off_globe_at lat.now lon.now)) (min (length lat.now) (length lon.now)) }
{
    let rows = lat.len().min(lon.len());
    some_counted(rows, flags, all, |k| !on_globe(lat[k], lon[k]))
}

// Whether some row is NaN or infinite.
pub fn not_finite(s: &[f32], flags: &[u8], all: bool) -> bool
    ensures { result ≡ some (among all flags.now (not_finite_at s.now)) (length s.now) }
{
    some_counted(s.len(), flags, all, |k| !s[k].is_finite())
}
