// How many rows each table of a case has, and what else is counted while the case is read.

#[derive(Clone, Copy, Debug, Default, PartialEq, Eq)]
pub struct Case {
    pub stops: u32,
    pub stopkeys: u32,
    pub trips: u32,
    pub tripkeys: u32,
    pub calls: u32,
    pub shapes: u32,
    pub points: u32,
    pub aliases: u32,
    pub lines: u32,
    pub calendars: u32,
    pub ranges: u32,
    pub exceptions: u32,
    pub updates: u32,
    // of each form that stands once
    pub feeds: u32,
    pub keys: u32,
    pub nows: u32,
    pub offsets: u32,
    pub cancels: u32,
    pub routes: u32,
    // bytes of ids and of queries
    pub id_bytes: u32,
    pub query_bytes: usize,
}
