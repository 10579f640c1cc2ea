// The unit that the first ratio is near.
ghost use Rattle.std.specs.Prelude.{◌≡◌};
ghost use Rattle.lent_samples.specs.Samples.{first_scale};

// The metres of the unit that the first of these ratios is near, or the ratio itself; none where no ratio is lent.
#[tactic(auto, unfolding(crate::specs::Samples::first_scale))]
pub fn first_scale(ratios: &[f64]) -> Option<f64>
    ensures { result ≡ first_scale ratios.now }
{
    match ratios {
        [ratio, ..] => Some(unit_scales::snap_unit_scale(*ratio)),
        [] => None,
    }
}
