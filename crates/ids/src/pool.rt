// Two pools hold every table: one of words, one of bytes. A column of numbers is a span of the
// words; a column of ids is two, where each id begins in the bytes and how long it is. Reads are
// total: past a pool's end a number is 0 and an id is cut, so that no caller has to know that a
// column lies in its pool before it reads it. Whether it does is for a check of the tables to say.
ghost use Rattle.std.specs.Prelude.{◌≡◌, get_or, take, drop};
ghost use Rattle.ids.specs.Pool.{cell_of, id_of};

/// What a caller lends: the pools that the columns of all tables lie in.
#[derive(Clone, Copy)]
pub struct Lent<'a> {
    pub bytes: &'a [u8],
    pub words: &'a [u32],
    pub times: &'a [i64],
    pub reals: &'a [f64],
    pub dists: &'a [f32],
}

// A column: n elements from `at` on in a pool.
#[repr(C)]
#[derive(Clone, Copy)]
pub struct Span {
    pub at: u32,
    pub n: u32,
}

// A column of ids. Row k's is lens[k] bytes from starts[k] on; there are as many as starts has.
#[repr(C)]
#[derive(Clone, Copy)]
pub struct IdColumn {
    pub starts: Span,
    pub lens: Span,
}

// The word at i, or 0 past the end.
pub fn word(words: &[u32], i: usize) -> u32
    ensures { result ≡ get_or words.now i 0 }
{
    if i < words.len() { words[i] } else { 0 }
}

// Row k of a column of numbers.
pub fn cell(words: &[u32], span: Span, k: usize) -> u32
    ensures { result ≡ cell_of words.now span k }
{
    if words.len() <= k {
        return 0;
    }
    word(words, span.at as usize + k)
}

// n bytes from a on, or as many as there are.
pub fn part<'a>(bytes: &'a [u8], a: usize, n: usize) -> &'a [u8]
    ensures { result.now ≡ take n (drop a bytes.now) }
{
    let (_, rest) = bytes.split_at(bytes.len().min(a));
    let (part, _) = rest.split_at(rest.len().min(n));
    part
}

// Row k of a column of ids.
#[tactic(auto, unfolding(crate::specs::Pool::id_of))]
pub fn id<'a>(lent: &Lent<'a>, col: IdColumn, k: usize) -> &'a [u8]
    ensures { result.now ≡ id_of lent.now.bytes.now lent.now.words.now col k }
{
    let a = cell(lent.words, col.starts, k) as usize;
    let n = cell(lent.words, col.lens, k) as usize;
    part(lent.bytes, a, n)
}
