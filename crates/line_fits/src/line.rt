// The rows of a line, and the one that fits the moment asked of best. A line's rows stand together among the line entries: the first is
// found by halves, and then they are read one by one.
ghost use Rattle.std.specs.Prelude.{◌≡◌};
ghost use Rattle.ids.specs.Pool.{cell_of};
ghost use Rattle.trip_fits.specs.Fits.{trip_fit};
ghost use Rattle.trip_fits.specs.Plans.{Planned};
ghost use Rattle.line_fits.specs.Lines.{on_line, line_from, kept_of, best_of};

use departure_fits::{Fit, away_of};
use ids::Lent;
use row_lookup::seek;
use row_stands::{Rows, stands};
use std::cmp::Ordering;
use trip_fits::{Asked, Plan, Timetable};

// Whether row k of the line entries has the token.
pub fn on_line(lent: &Lent, plan: Plan, token: &[u8], k: usize) -> bool
    ensures { result ≡ on_line lent.now.bytes.now lent.now.words.now plan token.now k }
{
    match stands(
        lent,
        Rows::Lines(plan.lines.token),
        k,
        token,
        &token[..0],
        0,
        0,
    ) {
        Ordering::Less => false,
        Ordering::Equal => true,
        Ordering::Greater => false,
    }
}

// How well row k's trip fits.
pub fn fit_at(timetable: &Timetable, asked: Asked, k: usize) -> Option<Fit>
    ensures { result ≡ trip_fit timetable.now.lent.bytes.now timetable.now.lent.words.now timetable.now.plan asked.today asked.yesterday (cell_of timetable.now.lent.words.now timetable.now.plan.lines.trip k) }
{
    let trip = timetable.plan.lines.trip;
    timetable.fit_of(asked, ids::cell(timetable.lent.words, trip, k) as usize)
}

// The row found so far, and how far away it is.
#[derive(Clone, Copy)]
struct Best {
    at: Option<usize>,
    away: u64,
}

// With row k, which is so far away.
fn kept(best: Best, away: u64, k: usize) -> Best
    ensures { result ≡ kept_of best away k }
{
    if away < best.away {
        return Best { at: Some(k), away };
    }
    best
}

// The line of a token: its rows are the line entries that have it, from the first on. The line entries ascend.
#[derive(Clone, Copy)]
pub struct Line<'a, 'b> {
    pub timetable: Timetable<'a>,
    pub token: &'b [u8],
    pub from: usize,
    pub ghost planned: { Planned timetable.lent.bytes.now timetable.lent.words.now timetable.plan },
    pub ghost begins: { from ≡ line_from timetable.lent.bytes.now timetable.lent.words.now timetable.plan token.now },
}

impl<'a, 'b> Line<'a, 'b> {
    ghost use Rattle.line_fits.specs.Asked.{fits_of};

    // From its first row on, or from past all where it has none.
    pub fn new(timetable: &Timetable<'a>, token: &'b [u8]) -> Line<'a, 'b>
        requires planned { Planned timetable.now.lent.bytes.now timetable.now.lent.words.now timetable.now.plan }
        ensures timetable_is { result.timetable ≡ timetable.now }
        ensures token_is { result.token.now ≡ token.now }
    {
        let lines = timetable.plan.lines;
        let from = seek(
            &timetable.lent,
            Rows::Lines(lines.token),
            lines.trip.n as usize,
            token,
            &token[..0],
            0,
            0,
        );
        Line {
            timetable: *timetable,
            token,
            from,
        }
    }

    // Whether row k of the line entries is its.
    pub fn has(&self, k: usize) -> bool
        ensures { result ≡ on_line self.now.timetable.lent.bytes.now self.now.timetable.lent.words.now self.now.timetable.plan self.now.token.now k }
    {
        on_line(&self.timetable.lent, self.timetable.plan, self.token, k)
    }

    // The trip of row k.
    pub fn trip_at(&self, k: usize) -> usize
        ensures { result ≡ cell_of self.now.timetable.lent.words.now self.now.timetable.plan.lines.trip k }
    {
        ids::cell(self.timetable.lent.words, self.timetable.plan.lines.trip, k) as usize
    }

    // How well row k's trip fits.
    pub fn fit_at(&self, asked: Asked, k: usize) -> Option<Fit>
        ensures { result ≡ trip_fit self.now.timetable.lent.bytes.now self.now.timetable.lent.words.now self.now.timetable.plan asked.today asked.yesterday (cell_of self.now.timetable.lent.words.now self.now.timetable.plan.lines.trip k) }
    {
        fit_at(&self.timetable, asked, k)
    }

    // The first row than which none is nearer.
    pub fn best_of(&self, asked: Asked) -> Option<usize>
        ensures { result ≡ best_of (fits_of self.now asked) self.now.timetable.plan.lines.trip.n }
    {
        let mut best = Best {
            at: None,
            away: 901,
        };
        for k in self.from..self.timetable.plan.lines.trip.n as usize {
            if !self.has(k) {
                return best.at;
            }
            best = kept(best, away_of(self.fit_at(asked, k)), k);
        }
        best.at
    }
}
