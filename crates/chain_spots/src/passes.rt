// The length of a chain, and the stretch of it that a target meets.
ghost use Rattle.std.specs.Prelude.{◌≡◌};
ghost use Rattle.line_parts.specs.Part.{part_length};
ghost use Rattle.first_stretch.specs.Search.{stretch_at};
ghost use Rattle.routes.specs.Route.{nano};
ghost use Rattle.chain_vertices.specs.Walk.{points_of};

use chain_stretches::{fraction, met};
use chain_vertices::MarkedChain;
use lengths::metres;
use line_parts::Part;
use stretches::Spot;

// The length of a part of a chain.
pub fn length_of(chain: &MarkedChain, part: Part) -> f64
    ensures { result ≡ part_length (points_of chain.now) part }
{
    let mut here = chain.seek(part.first);
    let mut sum = 0.0;
    for k in part.first..part.last {
        let there = chain.onward(k, here);
        sum += metres(here.at, there.at);
        here = there;
    }
    sum
}

// The first stretch of a part of a chain that a target meets.
pub fn stretch_of(chain: &MarkedChain, part: Part, target: f64) -> Spot
    ensures { result ≡ stretch_at (points_of chain.now) part nano target }
{
    let mut here = chain.seek(part.first);
    let mut sum = 0.0;
    for k in part.first..part.last {
        let there = chain.onward(k, here);
        let next = sum + metres(here.at, there.at);
        if met(target, sum, next) {
            return Spot::Stretch(k, fraction(target, sum, next));
        }
        sum = next;
        here = there;
    }
    Spot::NoStretch
}
