//! A flash that is read where it lies in memory, and whose erases, programs and barriers are noted down as steps, in their order.
//! It tells its content: that of the image with the steps done.
#![tactic(auto)]

mod device;
mod flash;
mod ghost_bytes;
mod laws;
mod lent_file;
mod overlay;
mod step;
mod stopped;
#[cfg(test)]
mod tests;

pub use device::StepParts;
pub use flash::{StepFlash, Unmade};
pub use laws::{
    a_guard_tells_its_image, an_arming_tells_its_steps, no_block_behind_the_last_is_counted,
    no_power_is_lost,
};
pub use step::{BARRIER, COPY, ERASE, PROGRAM, Step};
