// How large each table and id may be.
ghost use Rattle.std.specs.Prelude.{◌≡◌};
ghost use Rattle.tables.specs.Bounds.{chart_bounds};

#[derive(Clone, Copy)]
pub struct Bounds {
    pub stops: u32,
    pub trips: u32,
    pub calls: u32,
    // of one shape
    pub points: u32,
    pub updates: u32,
    // bytes of an id
    pub id: u32,
    // aliases, shapes, line entries, and rows of each calendar table
    pub others: u32,
}

impl Bounds {
    // The bounds of document 01's chart.
    pub fn chart() -> Self
        ensures { result ≡ chart_bounds }
    {
        Bounds {
            stops: 65535,
            trips: 65535,
            calls: 1000000,
            points: 8192,
            updates: 256,
            id: 96,
            others: 65535,
        }
    }
}
