//! The program `fwu` as one call: what its words ask for is done on a flash, and each line is answered.
#![tactic(auto)]

mod answering;
mod laws;
mod serving_command;
mod top;

pub use laws::{
    bad_list_is_none, boots_are_permitted, list_is_some, missing_list_is_none, no_metadata_is_none,
    nothing_follows_the_sink, nothing_is_armed, nothing_is_passed_over, nothing_is_touched,
    usage_line_is_of_usage, usage_reads_no_source, ways_are_promised, ways_hold,
};
pub use top::{fwu_top, fwu_top_with};
