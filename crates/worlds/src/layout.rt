// The bounds and tables, from the words that lay them out: seven bounds, the lengths of the five pools, then a
// first place and a count for each column, in the order of the structs of crate tables; a column of ids has two.
ghost use Rattle.std.specs.Prelude.{◌≡◌, ◌+◌, ◌*◌, ◌<◌, get_or};

use ids::{IdColumn, Span, word};
use tables::{
    Aliases, Along, Bounds, Calendars, Exceptions, IdRows, Journey, LegAsked, Lines, Points,
    Ranges, Sailing, Samples, Service, Shapes, StopTimes, Stops, Tables, Trips, Updates,
};

// A bound, where it is not 0, is set; else it is document 01's.
pub fn bounds(words: &[u32]) -> Bounds {
    let chart = Bounds::chart();
    Bounds {
        stops: bound(words, 0, chart.stops),
        trips: bound(words, 1, chart.trips),
        calls: bound(words, 2, chart.calls),
        points: bound(words, 3, chart.points),
        updates: bound(words, 4, chart.updates),
        id: bound(words, 5, chart.id),
        others: bound(words, 6, chart.others),
    }
}

fn bound(words: &[u32], k: usize, chart: u32) -> u32 {
    match word(words, k) {
        0 => chart,
        set => set,
    }
}

// The whole of pool k, of which the world has so much.
pub fn pool(words: &[u32], k: usize) -> Span
    requires { k < 5 }
    ensures { result ≡ record { at = 0; n = get_or words.now (7 + k) 0 } }
{
    Span {
        at: 0,
        n: word(words, 7 + k),
    }
}

/// Column k.
pub fn span(words: &[u32], k: usize) -> Span
    requires { k < 128 }
    ensures { result ≡ record { at = get_or words.now (12 + 2 * k) 0; n = get_or words.now (13 + 2 * k) 0 } }
{
    Span {
        at: word(words, 12 + 2 * k),
        n: word(words, 13 + 2 * k),
    }
}

fn ids(words: &[u32], k: usize) -> IdColumn
    requires { k < 127 }
{
    IdColumn {
        starts: span(words, k),
        lens: span(words, k + 1),
    }
}

pub fn tables(words: &[u32]) -> Tables {
    Tables {
        stops: stops(words),
        stopkeys: id_rows(words, 7),
        trips: trips(words),
        tripkeys: id_rows(words, 19),
        times: times(words),
        shapes: shapes(words),
        points: points(words, 32),
        aliases: aliases(words),
        lines: lines(words),
        calendars: calendars(words),
        ranges: ranges(words),
        exceptions: exceptions(words),
        updates: updates(words),
        sailing: sailing(words),
    }
}

fn stops(words: &[u32]) -> Stops {
    Stops {
        own: ids(words, 0),
        raw: ids(words, 2),
        lat: span(words, 4),
        lon: span(words, 5),
        positioned: span(words, 6),
    }
}

fn id_rows(words: &[u32], k: usize) -> IdRows
    requires { k < 126 }
{
    IdRows {
        id: ids(words, k),
        row: span(words, k + 2),
    }
}

fn trips(words: &[u32]) -> Trips {
    Trips {
        feed: ids(words, 10),
        service: ids(words, 12),
        shape: span(words, 14),
        shaped: span(words, 15),
        frequency: span(words, 16),
        first: span(words, 17),
        count: span(words, 18),
    }
}

fn times(words: &[u32]) -> StopTimes {
    StopTimes {
        sequence: span(words, 22),
        stop: span(words, 23),
        arrival: span(words, 24),
        departure: span(words, 25),
        dist: span(words, 26),
        measured: span(words, 27),
    }
}

fn shapes(words: &[u32]) -> Shapes {
    Shapes {
        id: ids(words, 28),
        first: span(words, 30),
        count: span(words, 31),
    }
}

/// Points, whose latitudes are column k, and whose longitudes are the next.
pub fn points(words: &[u32], k: usize) -> Points
    requires { k < 127 }
    ensures lat { result.lat ≡ record { at = get_or words.now (12 + 2 * k) 0; n = get_or words.now (13 + 2 * k) 0 } }
    ensures lon { result.lon ≡ record { at = get_or words.now (14 + 2 * k) 0; n = get_or words.now (15 + 2 * k) 0 } }
{
    Points {
        lat: span(words, k),
        lon: span(words, k + 1),
    }
}

fn aliases(words: &[u32]) -> Aliases {
    Aliases {
        id: ids(words, 34),
        trip: ids(words, 36),
    }
}

fn lines(words: &[u32]) -> Lines {
    Lines {
        token: ids(words, 38),
        trip: span(words, 40),
    }
}

fn calendars(words: &[u32]) -> Calendars {
    Calendars {
        feed: ids(words, 41),
    }
}

fn ranges(words: &[u32]) -> Ranges {
    Ranges {
        feed: ids(words, 43),
        service: ids(words, 45),
        first: span(words, 47),
        last: span(words, 48),
        weekdays: span(words, 49),
    }
}

fn exceptions(words: &[u32]) -> Exceptions {
    Exceptions {
        feed: ids(words, 50),
        service: ids(words, 52),
        date: span(words, 54),
        removed: span(words, 55),
    }
}

fn updates(words: &[u32]) -> Updates {
    Updates {
        sequence: span(words, 56),
        stop: ids(words, 57),
        named: span(words, 59),
        arrival: span(words, 60),
        arrives: span(words, 61),
        departure: span(words, 62),
        departs: span(words, 63),
        arrdelay: span(words, 64),
        arrdelayed: span(words, 65),
        depdelay: span(words, 66),
        depdelayed: span(words, 67),
    }
}

fn sailing(words: &[u32]) -> Sailing {
    Sailing {
        feed: ids(words, 68),
        key: ids(words, 70),
        route: ids(words, 72),
        routed: span(words, 74),
        cancelled: span(words, 75),
        now: span(words, 76),
        offset: span(words, 77),
    }
}

pub fn journey(words: &[u32]) -> Journey {
    Journey {
        key: ids(words, 78),
        route: ids(words, 80),
        routed: span(words, 82),
        departure: span(words, 83),
        departs: span(words, 84),
        offset: span(words, 85),
    }
}

pub fn service(words: &[u32]) -> Service {
    Service {
        feed: ids(words, 86),
        service: ids(words, 88),
        date: span(words, 90),
    }
}

pub fn leg(words: &[u32]) -> LegAsked {
    LegAsked {
        trip: ids(words, 91),
    }
}

pub fn along(words: &[u32]) -> Along {
    Along {
        line: points(words, 93),
        ends: points(words, 95),
        dists: span(words, 97),
        numbers: span(words, 98),
    }
}

pub fn samples(words: &[u32]) -> Samples {
    Samples {
        line: points(words, 99),
        at: points(words, 101),
        dist: span(words, 103),
        numbers: span(words, 104),
    }
}
