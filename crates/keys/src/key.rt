// Texts put together in a buffer, and the row of an id made of parts, as
// `format!("{feed_id}:IDFM:{digits}")` is looked up in rt/estimate.rs.
ghost use Rattle.std.specs.Prelude.{◌≡◌, ◌++◌, map, ◌+◌, ◌≤◌, length, take};
ghost use Rattle.ids.specs.Bytes.{upper_of};
ghost use Rattle.ids.specs.Pool.{id_of};
ghost use Rattle.ids.specs.Rows.{GoodIds, row_of};

use ids::{IdColumn, Lent, find};

// s into the buffer from `at` on; the place after it.
pub fn put(buf: &mut [u8], at: usize, s: &[u8]) -> usize
    requires { at + length s.now ≤ length buf.old }
    ensures { (result ≡ at + length s.now) × (take result buf.new ≡ take at buf.old ++ s.now) }
{
    let end = at + s.len();
    buf[at..end].copy_from_slice(s);
    end
}

// The same with s in upper case.
pub fn upper_into(buf: &mut [u8], at: usize, s: &[u8]) -> usize
    requires { at + length s.now ≤ length buf.old }
    ensures { (result ≡ at + length s.now) × (take result buf.new ≡ take at buf.old ++ map upper_of s.now) }
{
    let end = at + s.len();
    let part = &mut buf[at..end];
    part.copy_from_slice(s);
    part.make_ascii_uppercase();
    end
}

// The row whose id is the four parts joined, of which some may be empty. No id is over 96 bytes, so
// one that has a longer part is in no row, and four others fit the buffer.
pub fn find_joined(
    lent: &Lent,
    col: IdColumn,
    a: &[u8],
    b: &[u8],
    c: &[u8],
    d: &[u8],
) -> Option<usize>
    requires { GoodIds (id_of lent.now.bytes.now lent.now.words.now col) col.starts.n }
    ensures { result ≡ row_of (id_of lent.now.bytes.now lent.now.words.now col) col.starts.n (a.now ++ (b.now ++ (c.now ++ d.now))) }
{
    if 96 < a.len() {
        return None;
    }
    if 96 < b.len() {
        return None;
    }
    if 96 < c.len() {
        return None;
    }
    if 96 < d.len() {
        return None;
    }
    let mut buf = [0u8; 384];
    let i = put(&mut buf, 0, a);
    let j = put(&mut buf, i, b);
    let k = put(&mut buf, j, c);
    let n = put(&mut buf, k, d);
    find(lent, col, &buf[..n])
}
