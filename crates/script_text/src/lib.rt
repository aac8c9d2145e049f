//! Scripts, an own format: lines of calls, boots and power cuts, and the limits of their text.
//!
//! A line ends at a byte 0x0A, or at the text's end. A line that is empty or begins with `#` is nothing; any other is a
//! call, whose words are parted by exactly one space each.
#![tactic(auto)]

mod call;
mod laws;
mod limit;
mod line;
mod script;
mod split;
mod words;

pub use call::Call;
pub use laws::{calls_have_lines, cuts_are_armable, long_texts_stay_too_long};
pub use limit::{TextLimit, is_too_long};
pub use script::{Script, ScriptFault, read_script};
