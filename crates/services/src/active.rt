// Whether a service runs on a day.
ghost use Rattle.std.specs.Prelude.{◌≡◌};
ghost use Rattle.services.specs.Runs.{excepted, exception_rows, ranged, range_rows, runs_of, Calendared};

use ids::Lent;
use row_lookup::row_of;
use row_stands::Rows;
use service_ranges::in_range;
use tables::{Calendars, Exceptions, Ranges};

// The calendars, ranges and exceptions of the lent tables, which ascend.
#[derive(Clone, Copy)]
pub struct Calendar<'a> {
    pub lent: Lent<'a>,
    pub calendars: Calendars,
    pub ranges: Ranges,
    pub exceptions: Exceptions,
    pub ghost ascends: { Calendared lent.bytes.now lent.words.now calendars ranges exceptions },
}

impl<'a> Calendar<'a> {
    // Whether an exception of the service on the day adds it, where flag is 0, or removes it, where flag is 1.
    #[tactic(auto, unfolding(crate::specs::Runs::excepted))]
    fn is_excepted(&self, feed: &[u8], service: &[u8], day: u32, flag: u32) -> bool
        ensures { result ≡ excepted self.now.lent.bytes.now self.now.lent.words.now self.now.exceptions feed.now service.now day flag }
    {
        let e = self.exceptions;
        row_of(
            &self.lent,
            Rows::Exceptions(e.feed, e.service, e.date, e.removed),
            e.date.n as usize,
            feed,
            service,
            day,
            flag,
        )
        .is_some()
    }

    // Whether the service's range has the day.
    #[tactic(auto, unfolding(crate::specs::Runs::ranged))]
    fn is_ranged(&self, feed: &[u8], service: &[u8], day: u32) -> bool
        ensures { result ≡ ranged self.now.lent.bytes.now self.now.lent.words.now self.now.ranges feed.now service.now day }
    {
        let g = self.ranges;
        match row_of(
            &self.lent,
            Rows::Ranges(g.feed, g.service),
            g.first.n as usize,
            feed,
            service,
            0,
            0,
        ) {
            Some(k) => in_range(&self.lent, g, day, k),
            None => false,
        }
    }

    // Whether the service runs on the day: a feed without a calendar always runs; removed beats added beats the range.
    #[tactic(auto, unfolding(crate::specs::Runs::runs_of, crate::specs::Runs::named))]
    pub fn runs(&self, feed: &[u8], service: &[u8], day: u32) -> bool
        ensures { result ≡ runs_of self.now.lent.bytes.now self.now.lent.words.now self.now.calendars self.now.ranges self.now.exceptions feed.now service.now day }
    {
        if ids::find(&self.lent, self.calendars.feed, feed).is_none() {
            return true;
        }
        !self.is_excepted(feed, service, day, 1)
            && (self.is_excepted(feed, service, day, 0) || self.is_ranged(feed, service, day))
    }
}
