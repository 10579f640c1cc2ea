// What the row of a sailing says.
ghost use Rattle.std.specs.Prelude.{◌≡◌};
ghost use Rattle.sailing_rows.specs.Rows.{is_cancelled, clock_of, offset_of, route_of, base_key};

use ids::Lent;
use tables::Sailing;

// Whether it is cancelled.
pub fn is_cancelled(bytes: &[u8], s: Sailing) -> bool
    ensures { result ≡ is_cancelled bytes.now s }
{
    let cancelled = s.cancelled;
    update_rows::is_set(bytes, cancelled, 0)
}

// The clock.
pub fn clock(times: &[i64], s: Sailing) -> u64
    ensures { result ≡ clock_of times.now s }
{
    let column = s.now;
    update_rows::moment_at(times, column, 0)
}

// The route, or an empty text where there is none.
pub fn route<'a>(lent: &Lent<'a>, s: Sailing) -> &'a [u8]
    ensures { result.now ≡ route_of lent.now.bytes.now lent.now.words.now s }
{
    let routed = s.routed;
    let routes = s.route;
    if update_rows::is_set(lent.bytes, routed, 0) {
        return ids::id(lent, routes, 0);
    }
    &lent.bytes[..0]
}

// The offset of its local time.
pub fn offset(times: &[i64], s: Sailing) -> i64
    ensures { result ≡ offset_of times.now s }
{
    let column = s.offset;
    update_rows::time(times, column, 0)
}

// The key before its last '@'.
pub fn base_key<'a>(lent: &Lent<'a>, s: Sailing) -> &'a [u8]
    ensures { result.now ≡ base_key lent.now.bytes.now lent.now.words.now s }
{
    let keys = s.key;
    key_parts::base(ids::id(lent, keys, 0))
}
