// The forms of the case language that say what rows are looked up by (docs/CASES.md): ids beside a record's own, aliases, line tokens and calendars. As programs, its
// functions are proved safe and ending: what is read shows in what is answered.
#![tactic(auto)]

mod calendars; // calendars.rt: calendars, ranges and exceptions
mod keys; // keys.rt: ids, aliases and line tokens

use case_tables::Pools;
use case_words::{Form, Why};

// Reads a row of one of these forms, of what stands between the line's parentheses.
pub fn read_lookup(s: &[u8], pools: &mut Pools, form: Form, row: u32) -> Result<(), Why> {
    match form {
        Form::StopKey => keys::stop_key(s, pools, row),
        Form::StaticKey => keys::static_key(s, pools, row),
        Form::Alias => keys::alias(s, pools, row),
        Form::Line => keys::line_token(s, pools, row),
        Form::Calendar => calendars::calendar(s, pools, row),
        Form::Range => calendars::range(s, pools, row),
        Form::Exception => calendars::exception(s, pools, row),
        _ => Err(Why::Name),
    }
}
