// Whether some row is at fault, which rows of a column count, and what a column of flags has in a row.
ghost use Rattle.std.specs.Prelude.{Bool, false, true, ◌≡◌, ◌<◌, ℕ, length, min};
ghost use Rattle.columns.specs.Rows.{Finds, Read, among, bit_of, counts, some};

use ids::Span;

// Whether one of n rows is at fault.
pub fn some_row<F: Fn(usize) -> bool>(n: usize, at_fault: F) -> bool
    requires { (k : ℕ) → k < n → F.pre at_fault k }
    ensures { (fault : ℕ → Bool) → Finds (F.post at_fault) fault n → result ≡ some fault n }
{
    for k in 0..n {
        if at_fault(k) {
            return true;
        }
    }
    false
}

// Whether one of n rows that counts is at fault. Unless all count, rows that have no flag are not read.
pub fn some_counted<F: Fn(usize) -> bool>(n: usize, flags: &[u8], all: bool, at_fault: F) -> bool
    requires { (k : ℕ) → k < n → F.pre at_fault k }
    ensures { (fault : ℕ → Bool) → Finds (F.post at_fault) fault n → result ≡ some (among all flags.now fault) n }
{
    let rows = read(n, flags, all);
    some_row(
        rows,
        |k|
            requires flagged { all ≡ false → k < length flags.now }
            requires callable { F.pre at_fault k }
            ensures skipped { counts all flags.entry.now k ≡ false → result ≡ false }
            ensures tested { counts all flags.entry.now k ≡ true → F.post at_fault k result }
        { counted(flags, all, k) && at_fault(k) },
    )
}

// How many of n rows to read: all, or those that have a flag.
pub fn read(n: usize, flags: &[u8], all: bool) -> usize
    ensures { Read all flags.now n result }
{
    if all { n } else { n.min(flags.len()) }
}

// Whether row k, of those to read, counts.
#[tactic(auto, unfolding(crate::specs::Rows::counts))]
pub fn counted(flags: &[u8], all: bool, k: usize) -> bool
    requires { all ≡ false → k < length flags.now }
    ensures { result ≡ counts all flags.now k }
{
    all || flags[k] != 0
}

// Row k of a column of flags, as zero or one.
pub fn bit(bytes: &[u8], span: Span, k: usize) -> u32
    ensures { result ≡ bit_of bytes.now span k }
{
    let at = (span.at as usize).saturating_add(k);
    match bytes.get(at) {
        Some(flag) => u32::from(*flag != 0),
        None => 0,
    }
}
