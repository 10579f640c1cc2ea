// The place between two distances, of those that are lent. Where fewer rows are lent than it reads, there is no answer.
ghost use Rattle.std.specs.Prelude.{◌≡◌};
ghost use Rattle.lengths.specs.Line.{line_of};
ghost use Rattle.lent_distances.specs.Distances.{by_dist_lent, by_feed_lent};

use lengths::Polyline;
use stretches::Drawn;

pub fn between_distances(line: Polyline, d: &[f32], x: &[f64]) -> Option<Drawn>
    ensures { result ≡ by_dist_lent (line_of line.entry.lat.now line.entry.lon.now) d.now x.now }
{
    if d.len() < 2 {
        return None;
    }
    if x.len() < 1 {
        return None;
    }
    by_distance::interpolate_shape_by_dist(line, d[0], d[1], x[0])
}

pub fn between_feed_distances(line: Polyline, d: &[f32], x: &[f64]) -> Option<Drawn>
    ensures { result ≡ by_feed_lent (line_of line.entry.lat.now line.entry.lon.now) d.now x.now }
{
    if d.len() < 2 {
        return None;
    }
    if x.len() < 3 {
        return None;
    }
    by_distance::interpolate_shape_by_feed_dist(line, d[0], d[1], x[0], x[1], x[2])
}
