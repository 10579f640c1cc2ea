// A table's rows by their key: which of two comes first, and whether all ascend. Reads are total, as
// in `ids`: past a pool's end a number is 0 and an id is cut.
ghost use Rattle.std.specs.Prelude.{◌≡◌, [], ◌∷◌, ◌-◌};
ghost use Rattle.ids.specs.Cmp.{cmp};
ghost use Rattle.ids.specs.Pool.{cell_of, id_of};
ghost use Rattle.columns.specs.Rows.{some};
ghost use Rattle.column_order.specs.Order.{cmp_rows, out_of_order_at};
ghost use Rattle.column_order.specs.declared.order.Key.TheVariants.{Dated, IdWord, Ids};

use columns::bit;
use ids::{IdColumn, Lent, Span, cell, compare, id};
use std::cmp::Ordering;

// What a table's rows ascend by. Columns of numbers are spans of the words.
#[derive(Clone, Copy)]
pub enum Key {
    // A number.
    Word(Span),
    // An id.
    Id(IdColumn),
    // An id, then a number.
    IdWord(IdColumn, Span),
    // Two ids.
    Ids(IdColumn, IdColumn),
    // Two ids, then a number, then a flag: a span of the bytes, each read as zero or one.
    Dated(IdColumn, IdColumn, Span, Span),
}

// How x stands to y.
pub fn numbers(x: u32, y: u32) -> Ordering
    ensures { result ≡ cmp (x ∷ []) (y ∷ []) }
{
    if x < y {
        return Ordering::Less;
    }
    if y < x {
        return Ordering::Greater;
    }
    Ordering::Equal
}

// How row i's number stands to row j's.
fn by_word(words: &[u32], s: Span, i: usize, j: usize) -> Ordering
    ensures { result ≡ cmp (cell_of words.now s i ∷ []) (cell_of words.now s j ∷ []) }
{
    numbers(cell(words, s, i), cell(words, s, j))
}

// How row i's id stands to row j's.
fn by_id(lent: &Lent, a: IdColumn, i: usize, j: usize) -> Ordering
    ensures { result ≡ cmp (id_of lent.now.bytes.now lent.now.words.now a i) (id_of lent.now.bytes.now lent.now.words.now a j) }
{
    compare(id(lent, a, i), id(lent, a, j))
}

// By an id, then a number.
fn by_id_word(lent: &Lent, a: IdColumn, s: Span, i: usize, j: usize) -> Ordering
    ensures { result ≡ cmp_rows lent.now.bytes.now lent.now.words.now (IdWord a s) i j }
{
    match by_id(lent, a, i, j) {
        Ordering::Less => return Ordering::Less,
        Ordering::Equal => {}
        Ordering::Greater => return Ordering::Greater,
    }
    by_word(lent.words, s, i, j)
}

// By two ids.
fn by_ids(lent: &Lent, a: IdColumn, b: IdColumn, i: usize, j: usize) -> Ordering
    ensures { result ≡ cmp_rows lent.now.bytes.now lent.now.words.now (Ids a b) i j }
{
    match by_id(lent, a, i, j) {
        Ordering::Less => return Ordering::Less,
        Ordering::Equal => {}
        Ordering::Greater => return Ordering::Greater,
    }
    by_id(lent, b, i, j)
}

// By two ids, then a number, then a flag.
fn by_date(lent: &Lent, a: IdColumn, b: IdColumn, s: Span, f: Span, i: usize, j: usize) -> Ordering
    ensures { result ≡ cmp_rows lent.now.bytes.now lent.now.words.now (Dated a b s f) i j }
{
    match by_ids(lent, a, b, i, j) {
        Ordering::Less => return Ordering::Less,
        Ordering::Equal => {}
        Ordering::Greater => return Ordering::Greater,
    }
    match by_word(lent.words, s, i, j) {
        Ordering::Less => return Ordering::Less,
        Ordering::Equal => {}
        Ordering::Greater => return Ordering::Greater,
    }
    numbers(bit(lent.bytes, f, i), bit(lent.bytes, f, j))
}

// How row i stands to row j.
pub fn compare_rows(lent: &Lent, key: Key, i: usize, j: usize) -> Ordering
    ensures { result ≡ cmp_rows lent.now.bytes.now lent.now.words.now key i j }
{
    match key {
        Key::Word(s) => by_word(lent.words, s, i, j),
        Key::Id(a) => by_id(lent, a, i, j),
        Key::IdWord(a, s) => by_id_word(lent, a, s, i, j),
        Key::Ids(a, b) => by_ids(lent, a, b, i, j),
        Key::Dated(a, b, s, f) => by_date(lent, a, b, s, f, i, j),
    }
}

// Whether some of n rows does not come before the next.
pub fn unsorted(lent: &Lent, key: Key, n: usize) -> bool
    ensures { result ≡ some (out_of_order_at lent.now.bytes.now lent.now.words.now key) (n - 1) }
{
    columns::some_row(
        n.saturating_sub(1),
        |k| !matches!(compare_rows(lent, key, k, k + 1), Ordering::Less),
    )
}
