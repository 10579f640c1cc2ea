// The queries of a case, each with a newline after it.
use case_tables::Case;
use case_words::Why;

// Keeps a query, with a newline, after the others.
pub fn kept(s: &[u8], queries: &mut [u8], held: &mut Case) -> Result<(), Why> {
    let at = held.query_bytes;
    let n = s.len();
    if queries.len() <= n || queries.len() - n <= at {
        return Err(Why::Queries);
    }
    queries[at..at + n].copy_from_slice(s);
    queries[at + n] = b'\n';
    held.query_bytes = at + n + 1;
    Ok(())
}
