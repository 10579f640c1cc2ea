// Which pool a column lies in, and which of its rows have a value.
ghost use Rattle.std.specs.Prelude.{◌≡◌};
ghost use Rattle.tables.specs.Marks.{where_set};

use ids::Span;

// The five pools.
#[derive(Clone, Copy)]
pub enum Pool {
    Bytes,
    Words,
    Times,
    Reals,
    Dists,
}

// Which rows of a column have a value: all, or those whose flag is set.
#[derive(Clone, Copy)]
pub struct Mark {
    pub all: bool,
    pub flags: Span,
}

impl Mark {
    /// Each row has a value.
    pub const ALL: Mark = Mark {
        all: true,
        flags: Span { at: 0, n: 0 },
    };

    /// The rows whose flag is set have a value.
    pub fn where_set(flags: Span) -> Mark
        ensures { result ≡ where_set flags }
    {
        Mark { all: false, flags }
    }
}
