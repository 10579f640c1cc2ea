// The forms of the case language but its queries (docs/CASES.md), each by its name: each line into the pools that a program lends. A line that is no form may leave a row
// half written: then the text is no case, and nothing of it is read. As programs, its functions are proved safe and ending: what is read shows in what is answered.
#![tactic(auto)]

use case_lookups::read_lookup;
use case_tables::{Pools, layout, put};
use case_tokens::fields;
use case_words::{Form, Why, token};

// A row of a form.
fn read_row(s: &[u8], pools: &mut Pools, form: Form, row: u32) -> Result<(), Why> {
    match form {
        Form::Feed => token::id(s, 1, pools, layout::FEED, 0),
        Form::Trip => token::id(s, 1, pools, layout::KEY, 0),
        Form::Now => {
            put(pools.times, layout::NOW, 0, token::moment(s, 1)?);
            Ok(())
        }
        Form::Offset => {
            put(pools.times, layout::OFFSET, 0, token::moment(s, 1)?);
            Ok(())
        }
        Form::Route => case_sailing::route(s, pools),
        Form::Cancelled => {
            case_sailing::cancelled(pools);
            Ok(())
        }
        Form::Update => case_sailing::update(s, pools, row),
        Form::Stop => case_statics::stop(s, pools, row),
        Form::Static => case_statics::static_trip(s, pools, row),
        Form::Call => case_statics::call(s, pools, row),
        Form::Shape => case_statics::shape(s, pools, row),
        Form::Point => case_statics::point(s, pools, row),
        _ => read_lookup(s, pools, form, row),
    }
}

// Reads a form other than a query, of what stands between the line's parentheses.
pub fn read_form(s: &[u8], pools: &mut Pools, form: Form) -> Result<(), Why> {
    let most = form.most();
    let held = form.held(&mut pools.held);
    let row = *held;
    if most <= row {
        return Err(if most == 1 {
            Why::Again
        } else {
            Why::Rows(most)
        });
    }
    if !form.is_count(fields(s)) {
        return Err(Why::Tokens);
    }
    *held = row + 1;
    read_row(s, pools, form, row)
}
