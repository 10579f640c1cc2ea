// How much a case may hold. docs/CASES.md names each limit; a line past one is no form.

// Records of stops, and rows of the stop-id table: one for each record, and 1,024 more.
pub const STOPS: u32 = 4096;

pub const STOP_KEYS: u32 = 5120;

// Static trips, and rows of the trip-id table: one for each, and 1,024 more.
pub const TRIPS: u32 = 1024;

pub const TRIP_KEYS: u32 = 2048;

// Stop times of all trips.
pub const CALLS: u32 = 8192;

pub const SHAPES: u32 = 1024;

// Points of all shapes.
pub const POINTS: u32 = 16384;

pub const UPDATES: u32 = 512;

// Rows of each other table: aliases, lines, calendars, ranges, exceptions.
pub const OTHERS: u32 = 1024;

// Bytes of one id, and of all.
pub const ID: u32 = 255;

pub const ID_BYTES: u32 = 131072;

// Bytes of a line. A form within the other limits has fewer.
pub const LINE: u32 = 4096;

// Bytes of all queries, each with its newline.
pub const QUERIES: u32 = 65536;
