// Each line of queries.
use case_queries::Query;
use case_tables::Pools;
use estimate::estimate;
use probe_pools::asked;
use std::io;

// The place beside the estimate of the case that the pools hold.
fn place(out: &impl Print, err: &impl Print, pools: &Pools) -> io::Result<()> {
    let answer = estimate(&pools.lent(), case_tables::tables(pools.held));
    estimate_words::print_place(out, err, answer)
}

// A query of what a case holds.
fn answer(out: &impl Print, err: &impl Print, s: &[u8], pools: &mut Pools) -> io::Result<()> {
    match case_queries::query_of(s) {
        Some(Query::Place) => place(out, err, pools),
        Some(query) => probe_answers::answer(out, err, s, pools, query),
        None => Ok(()),
    }
}

// An answer for each line of queries.
pub(crate) fn answer_all(
    out: &impl Print,
    err: &impl Print,
    queries: &[u8],
    pools: &mut Pools,
) -> io::Result<()> {
    asked::plain_ids(pools);
    let text = ids::part(queries, 0, pools.held.query_bytes);
    for line in text.split_inclusive(|b| *b == b'\n') {
        answer(out, err, line.strip_suffix(b"\n").unwrap_or(line), pools)?;
    }
    Ok(())
}
