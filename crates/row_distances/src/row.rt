// A row of the stop times as backfill sees it, and what is written into one that has no distance.
ghost use Rattle.std.specs.Prelude.{◌≡◌};
ghost use Rattle.row_distances.specs.Rows.{in_feed, filled_by};

use float_bits::narrow;
use unit_scales::Affine;

// A distance, and a byte that is not zero where there is one.
#[derive(Clone, Copy)]
pub struct Distance {
    pub dist: f32,
    pub measured: u8,
}

// What a trip's missing distances are written in: three cases with a meaning each, and so no `Option`.
#[derive(Clone, Copy)]
pub enum Unit {
    Metres,
    // The feed's own: a distance d stands for a + b·d metres.
    Feed(Affine),
    // It cannot be told, and nothing is written.
    Unknown,
}

// A length of m metres as a distance of a feed.
fn in_feed(k: Affine, m: f64) -> f64
    ensures { result ≡ in_feed k m }
{
    (m - k.a) / k.b
}

// A row whose stop is m metres along the line.
#[tactic(auto, unfolding(crate::specs::Rows::filled_by))]
pub fn filled(unit: Unit, m: f64, row: Distance) -> Distance
    ensures { result ≡ filled_by unit m row }
{
    if row.measured != 0 {
        return row;
    }
    match unit {
        Unit::Metres => Distance {
            dist: narrow(m),
            measured: 1,
        },
        Unit::Feed(k) => Distance {
            dist: narrow(in_feed(k, m)),
            measured: 1,
        },
        Unit::Unknown => row,
    }
}
