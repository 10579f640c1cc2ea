// The tables that geometry is lent.
use case_tables::Case;
use probe_pools::asked;
use tables::{Stops, Tables, Trips};

// A case's tables, with a plain id in place of each id of a stop, a feed or a service.
pub(crate) fn plain_tables(held: Case) -> Tables {
    let t = case_tables::tables(held);
    Tables {
        stops: Stops {
            own: asked::plain(held.stops),
            raw: asked::plain(held.stops),
            ..t.stops
        },
        trips: Trips {
            feed: asked::plain(held.trips),
            service: asked::plain(held.trips),
            ..t.trips
        },
        ..t
    }
}
