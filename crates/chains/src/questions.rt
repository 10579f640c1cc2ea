// The questions that are asked of a chain. The rows are marked for each, a bit a row, in an array that is small
// where they are few.
ghost use Rattle.std.specs.Prelude.{◌≡◌, ℕ, ◌*◌, ◌≤◌, length, get_or};
ghost use Rattle.chain_lines.specs.Chain.{chain_line};
ghost use Rattle.chains.specs.Route.{chain_route, on_chain};

use chain_rows::Chain;
use chain_spots::{along, drawn, length_of};
use chain_vertices::{MarkedChain, mark};
use ids::Lent;
use routes::Route;
use stretches::{Drawn, Spot};
use tables::{StopTimes, Stops};

// A spot and its position.
#[derive(Clone, Copy)]
pub struct OnChain {
    pub spot: Spot,
    pub drawn: Drawn,
}

// The whole of a chain with its length, with marks that are clear.
fn route_in(lent: &Lent, s: Stops, c: StopTimes, chain: Chain, marks: &mut [u64]) -> Route
    requires count_bound { chain.count ≤ 64 * length marks.old }
    requires by_index { (w : ℕ) → get_or marks.old w 0 ≡ 0 }
    ensures { result ≡ chain_route (chain_line lent.now.bytes.now lent.now.words.now lent.now.reals.now s c chain) }
{
    let kept = mark(lent, s, c, chain, marks);
    let line = MarkedChain::new(lent, s, c, chain, marks, kept);
    let part = line.whole();
    Route {
        part,
        total: length_of(&line, part),
    }
}

// Where a chain is at a fraction of its length, with marks that are clear.
fn walk_in(
    lent: &Lent,
    s: Stops,
    c: StopTimes,
    chain: Chain,
    marks: &mut [u64],
    route: Route,
    f: f64,
) -> OnChain
    requires count_bound { chain.count ≤ 64 * length marks.old }
    requires by_index { (w : ℕ) → get_or marks.old w 0 ≡ 0 }
    ensures { result ≡ on_chain (chain_line lent.now.bytes.now lent.now.words.now lent.now.reals.now s c chain) route f }
{
    let kept = mark(lent, s, c, chain, marks);
    let line = MarkedChain::new(lent, s, c, chain, marks, kept);
    let spot = along(&line, route, f);
    OnChain {
        spot,
        drawn: drawn(&line, route.part, spot),
    }
}

// The whole of a chain with its length.
pub fn chain_route(lent: &Lent, s: Stops, c: StopTimes, chain: Chain) -> Route
    requires { chain.count ≤ 1000000 }
    ensures { result ≡ chain_route (chain_line lent.now.bytes.now lent.now.words.now lent.now.reals.now s c chain) }
{
    if chain.count <= 256 {
        let mut few = [0u64; 4];
        return route_in(lent, s, c, chain, &mut few);
    }
    let mut marks = [0u64; 15625];
    route_in(lent, s, c, chain, &mut marks)
}

// Where a chain is at a fraction of its length: the spot, and the position there.
pub fn chain_walk(
    lent: &Lent,
    s: Stops,
    c: StopTimes,
    chain: Chain,
    route: Route,
    f: f64,
) -> OnChain
    requires { chain.count ≤ 1000000 }
    ensures { result ≡ on_chain (chain_line lent.now.bytes.now lent.now.words.now lent.now.reals.now s c chain) route f }
{
    if chain.count <= 256 {
        let mut few = [0u64; 4];
        return walk_in(lent, s, c, chain, &mut few, route, f);
    }
    let mut marks = [0u64; 15625];
    walk_in(lent, s, c, chain, &mut marks, route, f)
}
