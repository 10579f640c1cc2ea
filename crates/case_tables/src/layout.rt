// Where each column stands in its pool. A column of ids has two parts, each as long as its table: where ids begin, then how long they are.
use crate::held::Case;
use crate::limits::{
    CALLS, ID_BYTES, OTHERS, POINTS, SHAPES, STOP_KEYS, STOPS, TRIP_KEYS, TRIPS, UPDATES,
};
use crate::place::IdPlace;
use ids::Span;
use tables::{
    Aliases, Calendars, Exceptions, IdRows, Lines, Points, Ranges, Sailing, Shapes, StopTimes,
    Stops, Tables, Trips, Updates,
};

// The words.
pub const STOP_OWN: IdPlace = IdPlace { at: 0, rows: STOPS };

pub const STOP_RAW: IdPlace = IdPlace {
    at: STOP_OWN.at + 2 * STOPS,
    rows: STOPS,
};

pub const STOP_KEY: IdPlace = IdPlace {
    at: STOP_RAW.at + 2 * STOPS,
    rows: STOP_KEYS,
};

pub const STOP_KEY_ROW: u32 = STOP_KEY.at + 2 * STOP_KEYS;

pub const TRIP_FEED: IdPlace = IdPlace {
    at: STOP_KEY_ROW + STOP_KEYS,
    rows: TRIPS,
};

pub const TRIP_SERVICE: IdPlace = IdPlace {
    at: TRIP_FEED.at + 2 * TRIPS,
    rows: TRIPS,
};

pub const TRIP_SHAPE: u32 = TRIP_SERVICE.at + 2 * TRIPS;

pub const TRIP_FIRST: u32 = TRIP_SHAPE + TRIPS;

pub const TRIP_COUNT: u32 = TRIP_FIRST + TRIPS;

pub const TRIP_KEY: IdPlace = IdPlace {
    at: TRIP_COUNT + TRIPS,
    rows: TRIP_KEYS,
};

pub const TRIP_KEY_ROW: u32 = TRIP_KEY.at + 2 * TRIP_KEYS;

pub const CALL_SEQUENCE: u32 = TRIP_KEY_ROW + TRIP_KEYS;

pub const CALL_STOP: u32 = CALL_SEQUENCE + CALLS;

pub const CALL_ARRIVAL: u32 = CALL_STOP + CALLS;

pub const CALL_DEPARTURE: u32 = CALL_ARRIVAL + CALLS;

pub const SHAPE: IdPlace = IdPlace {
    at: CALL_DEPARTURE + CALLS,
    rows: SHAPES,
};

pub const SHAPE_FIRST: u32 = SHAPE.at + 2 * SHAPES;

pub const SHAPE_COUNT: u32 = SHAPE_FIRST + SHAPES;

pub const ALIAS: IdPlace = IdPlace {
    at: SHAPE_COUNT + SHAPES,
    rows: OTHERS,
};

pub const ALIAS_TRIP: IdPlace = IdPlace {
    at: ALIAS.at + 2 * OTHERS,
    rows: OTHERS,
};

pub const LINE_TOKEN: IdPlace = IdPlace {
    at: ALIAS_TRIP.at + 2 * OTHERS,
    rows: OTHERS,
};

pub const LINE_TRIP: u32 = LINE_TOKEN.at + 2 * OTHERS;

pub const CALENDAR: IdPlace = IdPlace {
    at: LINE_TRIP + OTHERS,
    rows: OTHERS,
};

pub const RANGE_FEED: IdPlace = IdPlace {
    at: CALENDAR.at + 2 * OTHERS,
    rows: OTHERS,
};

pub const RANGE_SERVICE: IdPlace = IdPlace {
    at: RANGE_FEED.at + 2 * OTHERS,
    rows: OTHERS,
};

pub const RANGE_FIRST: u32 = RANGE_SERVICE.at + 2 * OTHERS;

pub const RANGE_LAST: u32 = RANGE_FIRST + OTHERS;

pub const EXCEPTION_FEED: IdPlace = IdPlace {
    at: RANGE_LAST + OTHERS,
    rows: OTHERS,
};

pub const EXCEPTION_SERVICE: IdPlace = IdPlace {
    at: EXCEPTION_FEED.at + 2 * OTHERS,
    rows: OTHERS,
};

pub const EXCEPTION_DATE: u32 = EXCEPTION_SERVICE.at + 2 * OTHERS;

pub const UPDATE_SEQUENCE: u32 = EXCEPTION_DATE + OTHERS;

pub const UPDATE_STOP: IdPlace = IdPlace {
    at: UPDATE_SEQUENCE + UPDATES,
    rows: UPDATES,
};

pub const FEED: IdPlace = IdPlace {
    at: UPDATE_STOP.at + 2 * UPDATES,
    rows: 1,
};

pub const KEY: IdPlace = IdPlace {
    at: FEED.at + 2,
    rows: 1,
};

pub const ROUTE: IdPlace = IdPlace {
    at: KEY.at + 2,
    rows: 1,
};

pub const WORDS: u32 = ROUTE.at + 2;

// The bytes: columns of flags, then the ids.
pub const STOP_POSITIONED: u32 = 0;

pub const TRIP_SHAPED: u32 = STOP_POSITIONED + STOPS;

pub const TRIP_FREQUENCY: u32 = TRIP_SHAPED + TRIPS;

pub const CALL_MEASURED: u32 = TRIP_FREQUENCY + TRIPS;

pub const RANGE_DAYS: u32 = CALL_MEASURED + CALLS;

pub const EXCEPTION_REMOVED: u32 = RANGE_DAYS + OTHERS;

pub const UPDATE_NAMED: u32 = EXCEPTION_REMOVED + OTHERS;

pub const UPDATE_ARRIVES: u32 = UPDATE_NAMED + UPDATES;

pub const UPDATE_DEPARTS: u32 = UPDATE_ARRIVES + UPDATES;

pub const UPDATE_ARRIVAL_DELAYED: u32 = UPDATE_DEPARTS + UPDATES;

pub const UPDATE_DEPARTURE_DELAYED: u32 = UPDATE_ARRIVAL_DELAYED + UPDATES;

pub const ROUTED: u32 = UPDATE_DEPARTURE_DELAYED + UPDATES;

pub const CANCELLED: u32 = ROUTED + 1;

pub const IDS: u32 = CANCELLED + 1;

pub const BYTES: u32 = IDS + ID_BYTES;

// The times.
pub const UPDATE_ARRIVAL: u32 = 0;

pub const UPDATE_DEPARTURE: u32 = UPDATE_ARRIVAL + UPDATES;

pub const UPDATE_ARRIVAL_DELAY: u32 = UPDATE_DEPARTURE + UPDATES;

pub const UPDATE_DEPARTURE_DELAY: u32 = UPDATE_ARRIVAL_DELAY + UPDATES;

pub const NOW: u32 = UPDATE_DEPARTURE_DELAY + UPDATES;

pub const OFFSET: u32 = NOW + 1;

pub const TIMES: u32 = OFFSET + 1;

// The reals.
pub const STOP_LAT: u32 = 0;

pub const STOP_LON: u32 = STOP_LAT + STOPS;

pub const POINT_LAT: u32 = STOP_LON + STOPS;

pub const POINT_LON: u32 = POINT_LAT + POINTS;

pub const REALS: u32 = POINT_LON + POINTS;

// The distances.
pub const CALL_DIST: u32 = 0;

pub const DISTS: u32 = CALL_DIST + CALLS;

pub fn span(at: u32, n: u32) -> Span {
    Span { at, n }
}

// The tables of a case.
pub fn tables(c: Case) -> Tables {
    Tables {
        stops: stops(c.stops),
        stopkeys: stop_keys(c.stopkeys),
        trips: trips(c.trips),
        tripkeys: trip_keys(c.tripkeys),
        times: calls(c.calls),
        shapes: shapes(c.shapes),
        points: points(c.points),
        aliases: aliases(c.aliases),
        lines: lines(c.lines),
        calendars: calendars(c.calendars),
        ranges: ranges(c.ranges),
        exceptions: exceptions(c.exceptions),
        updates: updates(c.updates),
        sailing: sailing(),
    }
}

fn stops(n: u32) -> Stops {
    Stops {
        own: STOP_OWN.column(n),
        raw: STOP_RAW.column(n),
        lat: span(STOP_LAT, n),
        lon: span(STOP_LON, n),
        positioned: span(STOP_POSITIONED, n),
    }
}

fn stop_keys(n: u32) -> IdRows {
    IdRows {
        id: STOP_KEY.column(n),
        row: span(STOP_KEY_ROW, n),
    }
}

fn trips(n: u32) -> Trips {
    Trips {
        feed: TRIP_FEED.column(n),
        service: TRIP_SERVICE.column(n),
        shape: span(TRIP_SHAPE, n),
        shaped: span(TRIP_SHAPED, n),
        frequency: span(TRIP_FREQUENCY, n),
        first: span(TRIP_FIRST, n),
        count: span(TRIP_COUNT, n),
    }
}

fn trip_keys(n: u32) -> IdRows {
    IdRows {
        id: TRIP_KEY.column(n),
        row: span(TRIP_KEY_ROW, n),
    }
}

fn calls(n: u32) -> StopTimes {
    StopTimes {
        sequence: span(CALL_SEQUENCE, n),
        stop: span(CALL_STOP, n),
        arrival: span(CALL_ARRIVAL, n),
        departure: span(CALL_DEPARTURE, n),
        dist: span(CALL_DIST, n),
        measured: span(CALL_MEASURED, n),
    }
}

fn shapes(n: u32) -> Shapes {
    Shapes {
        id: SHAPE.column(n),
        first: span(SHAPE_FIRST, n),
        count: span(SHAPE_COUNT, n),
    }
}

fn points(n: u32) -> Points {
    Points {
        lat: span(POINT_LAT, n),
        lon: span(POINT_LON, n),
    }
}

fn aliases(n: u32) -> Aliases {
    Aliases {
        id: ALIAS.column(n),
        trip: ALIAS_TRIP.column(n),
    }
}

fn lines(n: u32) -> Lines {
    Lines {
        token: LINE_TOKEN.column(n),
        trip: span(LINE_TRIP, n),
    }
}

fn calendars(n: u32) -> Calendars {
    Calendars {
        feed: CALENDAR.column(n),
    }
}

fn ranges(n: u32) -> Ranges {
    Ranges {
        feed: RANGE_FEED.column(n),
        service: RANGE_SERVICE.column(n),
        first: span(RANGE_FIRST, n),
        last: span(RANGE_LAST, n),
        weekdays: span(RANGE_DAYS, n),
    }
}

fn exceptions(n: u32) -> Exceptions {
    Exceptions {
        feed: EXCEPTION_FEED.column(n),
        service: EXCEPTION_SERVICE.column(n),
        date: span(EXCEPTION_DATE, n),
        removed: span(EXCEPTION_REMOVED, n),
    }
}

fn updates(n: u32) -> Updates {
    Updates {
        sequence: span(UPDATE_SEQUENCE, n),
        stop: UPDATE_STOP.column(n),
        named: span(UPDATE_NAMED, n),
        arrival: span(UPDATE_ARRIVAL, n),
        arrives: span(UPDATE_ARRIVES, n),
        departure: span(UPDATE_DEPARTURE, n),
        departs: span(UPDATE_DEPARTS, n),
        arrdelay: span(UPDATE_ARRIVAL_DELAY, n),
        arrdelayed: span(UPDATE_ARRIVAL_DELAYED, n),
        depdelay: span(UPDATE_DEPARTURE_DELAY, n),
        depdelayed: span(UPDATE_DEPARTURE_DELAYED, n),
    }
}

fn sailing() -> Sailing {
    Sailing {
        feed: FEED.column(1),
        key: KEY.column(1),
        route: ROUTE.column(1),
        routed: span(ROUTED, 1),
        cancelled: span(CANCELLED, 1),
        now: span(NOW, 1),
        offset: span(OFFSET, 1),
    }
}
