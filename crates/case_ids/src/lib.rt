// The ids of the case language, as its tokens spell them.
#![tactic(auto)]

mod id; // id.rt: ids, with % and two digits for a byte

pub use id::{coded, id_length, is_plain, put_id};
