// The metres of a unit of distance: a ratio that was measured, or a common unit near it.
ghost use Rattle.std.specs.Prelude.{◌≡◌};
ghost use Rattle.unit_scales.specs.Scale.{near_unit, snap_unit_scale};

use ieee::abs;

// Whether a ratio is above zero and within a quarter of a unit.
fn near_unit(ratio: f64, unit: f64) -> bool
    ensures { result ≡ near_unit ratio unit }
{
    ratio > 0.0 && abs(ratio / unit - 1.0) <= 0.25
}

// The first of metre, kilometre, foot and mile that the ratio is near, and else the ratio itself.
pub fn snap_unit_scale(ratio: f64) -> f64
    ensures { result ≡ snap_unit_scale ratio }
{
    for unit in [1.0, 1000.0, 0.3048, 1609.344] {
        if near_unit(ratio, unit) {
            return unit;
        }
    }
    ratio
}
