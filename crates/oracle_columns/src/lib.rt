// The C names under which tools/oracle times the passes over columns. Each says no more than the pass that it calls.
#![tactic(auto)]

ghost use Rattle.std.specs.Prelude.{◌-◌, min, ◌≡◌, length};
ghost use Rattle.columns.specs.Number.{ends_past_at, reaches_at};
ghost use Rattle.column_floats.specs.Real.{not_finite_at, off_globe_at};
ghost use Rattle.columns.specs.Rows.{among, some};
ghost use Rattle.column_ids.specs.Text.{bad_id_at};
ghost use Rattle.column_order.specs.Order.{out_of_order_at};
ghost use Rattle.column_order.specs.declared.order.Key.TheVariants.{Id};

use column_order::Key;
use ids::{IdColumn, Lent, Span};

#[unsafe(no_mangle)]
pub extern "C" fn zebumorn_reaches(s: &[u32], flags: &[u8], all: bool, n: u64) -> bool
    ensures { result ≡ some (among all flags.now (reaches_at s.now n)) (length s.now) }
{
    columns::reaches(s, flags, all, n)
}

#[unsafe(no_mangle)]
pub extern "C" fn zebumorn_ends_past(
    first: &[u32],
    count: &[u32],
    flags: &[u8],
    all: bool,
    n: u64,
) -> bool
    ensures { result ≡ some (among all flags.now (ends_past_at first.now count.now n)) (min (length first.now) (length count.now)) }
{
    columns::ends_past(first, count, flags, all, n)
}

#[unsafe(no_mangle)]
pub extern "C" fn zebumorn_off_globe(lat: &[f64], lon: &[f64], flags: &[u8], all: bool) -> bool
    ensures { result ≡ some (among all flags.now (off_globe_at lat.now lon.now)) (min (length lat.now) (length lon.now)) }
{
    column_floats::off_globe(lat, lon, flags, all)
}

#[unsafe(no_mangle)]
pub extern "C" fn zebumorn_not_finite(s: &[f32], flags: &[u8], all: bool) -> bool
    ensures { result ≡ some (among all flags.now (not_finite_at s.now)) (length s.now) }
{
    column_floats::not_finite(s, flags, all)
}

#[unsafe(no_mangle)]
pub extern "C" fn zebumorn_bad_ids(
    bytes: &[u8],
    starts: &[u32],
    lens: &[u32],
    flags: &[u8],
    all: bool,
    empty: bool,
) -> bool
    ensures { result ≡ some (among all flags.now (bad_id_at bytes.now starts.now lens.now empty)) (min (length starts.now) (length lens.now)) }
{
    column_ids::bad_ids(bytes, starts, lens, flags, all, empty)
}

// The ids of n rows, whose starts stand at 0 in the words and their lengths after them.
#[unsafe(no_mangle)]
pub extern "C" fn zebumorn_ids_unsorted(bytes: &[u8], words: &[u32], n: u32) -> bool
    ensures { result ≡ some (out_of_order_at bytes.now words.now (Id (record { starts = record { at = 0; n = n }; lens = record { at = n; n = n } }))) (n - 1) }
{
    let starts = Span { at: 0, n };
    let lens = Span { at: n, n };
    let ids = IdColumn { starts, lens };
    column_order::unsorted(
        &Lent {
            bytes,
            words,
            times: &[],
            reals: &[],
            dists: &[],
        },
        Key::Id(ids),
        n as usize,
    )
}
