//! What an agent of the update keeps and knows of its flash, and the machine that it shows. Nothing here takes memory.
#![tactic(auto)]

mod laws;
mod stop;

pub use laws::calls_go;
pub use stop::Stop;
