// The tables and their columns. A flag is a byte, zero or not; a row under a flag that is zero has no
// value there. All columns of a table have as many rows as its first. Those that a C name takes have C's layout.
use ids::{IdColumn, Span};

// Records in their own order.
#[repr(C)]
#[derive(Clone, Copy)]
pub struct Stops {
    pub own: IdColumn,
    pub raw: IdColumn,
    pub lat: Span,
    pub lon: Span,
    pub positioned: Span,
}

// Ids that ascend, each with the row of a record.
#[repr(C)]
#[derive(Clone, Copy)]
pub struct IdRows {
    pub id: IdColumn,
    pub row: Span,
}

// The rows of a trip in the stop times are `count` from `first` on.
#[repr(C)]
#[derive(Clone, Copy)]
pub struct Trips {
    pub feed: IdColumn,
    pub service: IdColumn,
    pub shape: Span,
    pub shaped: Span,
    pub frequency: Span,
    pub first: Span,
    pub count: Span,
}

// Arrivals and departures are schedule seconds.
#[repr(C)]
#[derive(Clone, Copy)]
pub struct StopTimes {
    pub sequence: Span,
    pub stop: Span,
    pub arrival: Span,
    pub departure: Span,
    pub dist: Span,
    pub measured: Span,
}

// The points of a shape are `count` from `first` on.
#[repr(C)]
#[derive(Clone, Copy)]
pub struct Shapes {
    pub id: IdColumn,
    pub first: Span,
    pub count: Span,
}

#[repr(C)]
#[derive(Clone, Copy)]
pub struct Points {
    pub lat: Span,
    pub lon: Span,
}

// An alias and the trip id that it stands for.
#[repr(C)]
#[derive(Clone, Copy)]
pub struct Aliases {
    pub id: IdColumn,
    pub trip: IdColumn,
}

// By token, then trip.
#[repr(C)]
#[derive(Clone, Copy)]
pub struct Lines {
    pub token: IdColumn,
    pub trip: Span,
}

// The feeds that have a calendar.
#[repr(C)]
#[derive(Clone, Copy)]
pub struct Calendars {
    pub feed: IdColumn,
}

// By feed, then service. Days are dates, yyyymmdd; weekdays the low seven bits, Monday lowest.
#[repr(C)]
#[derive(Clone, Copy)]
pub struct Ranges {
    pub feed: IdColumn,
    pub service: IdColumn,
    pub first: Span,
    pub last: Span,
    pub weekdays: Span,
}

// By feed, service, date, then added before removed.
#[repr(C)]
#[derive(Clone, Copy)]
pub struct Exceptions {
    pub feed: IdColumn,
    pub service: IdColumn,
    pub date: Span,
    pub removed: Span,
}

// By stop_sequence.
#[repr(C)]
#[derive(Clone, Copy)]
pub struct Updates {
    pub sequence: Span,
    pub stop: IdColumn,
    pub named: Span,
    pub arrival: Span,
    pub arrives: Span,
    pub departure: Span,
    pub departs: Span,
    pub arrdelay: Span,
    pub arrdelayed: Span,
    pub depdelay: Span,
    pub depdelayed: Span,
}

// One row.
#[repr(C)]
#[derive(Clone, Copy)]
pub struct Sailing {
    pub feed: IdColumn,
    pub key: IdColumn,
    pub route: IdColumn,
    pub routed: Span,
    pub cancelled: Span,
    pub now: Span,
    pub offset: Span,
}

#[repr(C)]
#[derive(Clone, Copy)]
pub struct Tables {
    pub stops: Stops,
    pub stopkeys: IdRows,
    pub trips: Trips,
    pub tripkeys: IdRows,
    pub times: StopTimes,
    pub shapes: Shapes,
    pub points: Points,
    pub aliases: Aliases,
    pub lines: Lines,
    pub calendars: Calendars,
    pub ranges: Ranges,
    pub exceptions: Exceptions,
    pub updates: Updates,
    pub sailing: Sailing,
}

// What matching is asked of, in one row: the trip key before its last `@`, the route, the first departure.
#[repr(C)]
#[derive(Clone, Copy)]
pub struct Journey {
    pub key: IdColumn,
    pub route: IdColumn,
    pub routed: Span,
    pub departure: Span,
    pub departs: Span,
    pub offset: Span,
}

// What a calendar is asked of, in one row.
#[repr(C)]
#[derive(Clone, Copy)]
pub struct Service {
    pub feed: IdColumn,
    pub service: IdColumn,
    pub date: Span,
}

// The trip that a leg is asked of, in one row.
#[derive(Clone, Copy)]
pub struct LegAsked {
    pub trip: IdColumn,
}

// What interpolation alone is lent: the points of one line, the positions of a leg's ends, distances, and a
// fraction and calibration numbers. Each may be empty.
#[derive(Clone, Copy)]
pub struct Along {
    pub line: Points,
    pub ends: Points,
    pub dists: Span,
    pub numbers: Span,
}

// What calibration alone is lent: the points of one line, samples, each a position and a distance, and
// calibration numbers.
#[derive(Clone, Copy)]
pub struct Samples {
    pub line: Points,
    pub at: Points,
    pub dist: Span,
    pub numbers: Span,
}
