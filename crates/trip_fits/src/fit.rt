// How well a trip's first departure fits the moment asked of.
ghost use Rattle.std.specs.Prelude.{◌≡◌, leb, ◌&&◌};
ghost use Rattle.services.specs.Runs.{Calendared};
ghost use Rattle.trip_fits.specs.Fits.{runs_on, departing, trip_fit};

use departure_fits::{Count, Fit, fit_if, nearer_of};
use ids::{Lent, Span};
use services::Calendar;
use tables::{Calendars, Exceptions, Lines, Ranges, Trips};

// What a trip is found in by its line and time.
#[derive(Clone, Copy)]
pub struct Plan {
    pub trips: Trips,
    // of the stop times
    pub departures: Span,
    pub lines: Lines,
    pub calendars: Calendars,
    pub ranges: Ranges,
    pub exceptions: Exceptions,
}

// The moment asked of, counted in its own service day and in the day before.
#[derive(Clone, Copy)]
pub struct Asked {
    pub today: Count,
    pub yesterday: Count,
}

// A plan in the lent tables, whose calendar tables ascend.
#[derive(Clone, Copy)]
pub struct Timetable<'a> {
    pub lent: Lent<'a>,
    pub plan: Plan,
    pub ghost calendared: { Calendared lent.bytes.now lent.words.now plan.calendars plan.ranges plan.exceptions },
}

impl<'a> Timetable<'a> {
    // Whether the trip runs on the day.
    #[tactic(auto, unfolding(crate::specs::Fits::runs_on))]
    fn trip_runs(&self, trip: usize, day: u32) -> bool
        ensures { result ≡ runs_on self.now.lent.bytes.now self.now.lent.words.now self.now.plan trip day }
    {
        let p = self.plan;
        let calendar = Calendar {
            lent: self.lent,
            calendars: p.calendars,
            ranges: p.ranges,
            exceptions: p.exceptions,
        };
        calendar.runs(
            ids::id(&self.lent, p.trips.feed, trip),
            ids::id(&self.lent, p.trips.service, trip),
            day,
        )
    }

    // Whether the trip runs on the day before, and a departure at s of that day may be meant.
    fn late_runs(&self, trip: usize, s: u32, day: u32) -> bool
        ensures { result ≡ (leb 43200 s && runs_on self.now.lent.bytes.now self.now.lent.words.now self.now.plan trip day) }
    {
        s >= 43200 && self.trip_runs(trip, day)
    }

    // A departure at second s of the trip: of today's service day, or of yesterday's where it is from noon on.
    #[tactic(auto, unfolding(crate::specs::Fits::departing))]
    fn departing_at(&self, asked: Asked, trip: usize, s: u32) -> Option<Fit>
        ensures { result ≡ departing self.now.lent.bytes.now self.now.lent.words.now self.now.plan asked.today asked.yesterday trip s }
    {
        let Asked { today, yesterday } = asked;
        let a = fit_if(self.trip_runs(trip, today.day), s, today.second);
        let b = fit_if(self.late_runs(trip, s, yesterday.day), s, yesterday.second);
        nearer_of(a, b)
    }

    // How well the trip's first departure fits.
    #[tactic(auto, unfolding(crate::specs::Fits::trip_fit))]
    pub fn fit_of(&self, asked: Asked, trip: usize) -> Option<Fit>
        ensures { result ≡ trip_fit self.now.lent.bytes.now self.now.lent.words.now self.now.plan asked.today asked.yesterday trip }
    {
        let p = self.plan;
        if columns::bit(self.lent.bytes, p.trips.frequency, trip) != 0 {
            return None;
        }
        let row = ids::cell(self.lent.words, p.trips.first, trip);
        if p.departures.n <= row {
            return None;
        }
        let s = ids::cell(self.lent.words, p.departures, row as usize);
        self.departing_at(asked, trip, s)
    }
}
