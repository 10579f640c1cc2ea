// A chain whose rows are marked, and from a vertex of it to the next.
ghost use Rattle.std.specs.Prelude.{◌≡◌, suc, length};
ghost use Rattle.ids.specs.First.{last};
ghost use Rattle.chain_lines.specs.Chain.{stop_of, line_from, chain_line};
ghost use Rattle.chain_lines.specs.Stops.{points_below};
ghost use Rattle.chain_lines.specs.Thin.{thinned};
ghost use Rattle.chain_vertices.specs.Marks.{Marked};
ghost use Rattle.chain_vertices.specs.Vertices.{row_of, marked_ahead, vertices_of, past_all};

use crate::marks::marked;
use chain_lines::{no_point, point_or, stop_of};
use chain_rows::Chain;
use ids::Lent;
use lengths::Point;
use line_parts::Part;
use tables::{StopTimes, Stops};

// At a vertex, with so many rows ahead.
#[derive(Clone, Copy)]
pub struct Here {
    pub left: usize,
    pub at: Point,
}

// A chain with a bit for each row that is kept, and the count of its vertices.
#[derive(Clone, Copy)]
pub struct MarkedChain<'a, 'b> {
    lent: Lent<'a>,
    stops: Stops,
    calls: StopTimes,
    chain: Chain,
    marks: &'b [u64],
    count: usize,
    pub ghost right: { Marked (stop_of lent.bytes.now lent.words.now lent.reals.now stops calls chain) chain.count marks.now },
    pub ghost full: { count ≡ length (line_from (stop_of lent.bytes.now lent.words.now lent.reals.now stops calls chain) chain) },
}

// How many vertices a chain has, where so many stops are kept.
fn vertices_of(kept: usize) -> usize
    ensures { result ≡ vertices_of kept }
{
    if kept < 2 {
        return 2;
    }
    kept
}

// The row that has m rows ahead of it.
fn row_of(chain: Chain, m: usize) -> usize
    ensures { result ≡ row_of chain m }
{
    if chain.reversed {
        m
    } else {
        (chain.count as usize).saturating_sub(m).saturating_sub(1)
    }
}

// How many rows are ahead of the next row that is kept.
#[tactic(auto, using(ids::proofs::Search::last_hit, ids::proofs::Search::last_skip, ids::proofs::Search::last_miss))]
fn next(chain: Chain, marks: &[u64], left: usize) -> Option<usize>
    ensures { result ≡ last (marked_ahead chain marks.now) left }
{
    for m in (0..left).rev() {
        if marked(marks, row_of(chain, m)) {
            return Some(m);
        }
    }
    None
}

// Past the last vertex.
fn past() -> Here
    ensures { result ≡ past_all }
{
    Here {
        left: 0,
        at: no_point(),
    }
}

impl<'a, 'b> MarkedChain<'a, 'b> {
    ghost use Rattle.line_parts.specs.Part.{whole_of};
    ghost use Rattle.chain_vertices.specs.Walk.{points_of, StandsAt};

    // Of marks that `mark` set, where so many stops are kept.
    pub fn new(
        lent: &Lent<'a>,
        stops: Stops,
        calls: StopTimes,
        chain: Chain,
        marks: &'b [u64],
        kept: usize,
    ) -> MarkedChain<'a, 'b>
        requires marked { Marked (stop_of lent.now.bytes.now lent.now.words.now lent.now.reals.now stops calls chain) chain.count marks.now }
        requires kept_value { kept ≡ length (thinned (points_below (stop_of lent.now.bytes.now lent.now.words.now lent.now.reals.now stops calls chain) chain.count)) }
        ensures { points_of result ≡ chain_line lent.now.bytes.now lent.now.words.now lent.now.reals.now stops calls chain }
    {
        MarkedChain {
            lent: *lent,
            stops,
            calls,
            chain,
            marks,
            count: vertices_of(kept),
        }
    }

    // The whole of it.
    pub fn whole(&self) -> Part
        ensures { result ≡ whole_of (points_of self.now) }
    {
        Part {
            first: 0,
            last: self.count - 1,
        }
    }

    // At the first vertex: the first row that is kept is behind.
    fn start(&self) -> Here
        ensures { StandsAt self.now result 0 }
    {
        let chain = self.chain;
        let at = chain.from;
        match next(chain, self.marks, chain.count as usize) {
            Some(left) => Here { left, at },
            None => Here { left: 0, at },
        }
    }

    // From vertex k to the next.
    pub fn onward(&self, k: usize, here: Here) -> Here
        requires { StandsAt self.now here k }
        ensures { StandsAt self.now result (suc k) }
    {
        let chain = self.chain;
        let ahead = self.count.saturating_sub(k);
        if ahead < 2 {
            return past();
        }
        if ahead < 3 {
            let to = chain.to;
            return Here { left: 0, at: to };
        }
        let Some(left) = next(chain, self.marks, here.left) else {
            return past();
        };
        let stop = stop_of(
            &self.lent,
            self.stops,
            self.calls,
            chain,
            row_of(chain, left),
        );
        Here {
            left,
            at: point_or(stop),
        }
    }

    // At vertex k.
    pub fn seek(&self, k: usize) -> Here
        ensures { StandsAt self.now result k }
    {
        if self.count <= k {
            return past();
        }
        let mut here = self.start();
        for j in 0..k {
            here = self.onward(j, here);
        }
        here
    }
}
