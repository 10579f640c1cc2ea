// A point in both columns.
ghost use Rattle.std.specs.Prelude.{◌≡◌, ◌<◌};
ghost use Rattle.point_columns.specs.Columns.{SameColumns};
ghost use Rattle.point_columns.specs.Drawn.{later_of, row_after, lat_put, lon_put};

use crate::column::put_row;
use lengths::Point;

// The two lent columns that points are drawn in.
#[derive(Drop)]
pub struct Sheet<'a> {
    pub lat: &'a mut [f64],
    pub lon: &'a mut [f64],
}

impl Sheet<'_> {
    // Writes a point, if there is one, to row k, as far as the columns have it. Answers the row of the next.
    pub fn put(&mut self, k: usize, drawn: Option<Point>) -> usize
        requires { k < 18446744073709551615 }
        ensures value { result ≡ row_after drawn k }
        ensures lat_after { self.new.lat.now ≡ lat_put self.old.lat.now k drawn }
        ensures lon_after { self.new.lon.now ≡ lon_put self.old.lon.now k drawn }
        ensures same { SameColumns self.old self.new }
    {
        let Some(p) = drawn else {
            return k;
        };
        put_row(self.lat, k, p.lat);
        put_row(self.lon, k, p.lon);
        k + 1
    }
}

// The last point drawn, with one more if there is one.
pub fn later(last: Option<Point>, drawn: Option<Point>) -> Option<Point>
    ensures { result ≡ later_of last drawn }
{
    match drawn {
        Some(_) => drawn,
        None => last,
    }
}
