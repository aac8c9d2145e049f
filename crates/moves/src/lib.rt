//! What writes to the flash are to the machine: moves.
#![tactic(auto)]

mod laws;
mod stores;

pub use laws::{
    calls_compose, losses_leave_calm, marks_do_trials, raises_show, records_do_raises,
    repairs_do_moves, repairs_keep_counts, repairs_show, starts_are_ready, trials_show,
    writes_stay_guarded,
};
pub use stores::{
    barriers_keep_ready, clears_do_nothing, ends_switch, moves_keep_fit, moves_keep_quiet,
    others_show_nothing, others_stay_guarded, slots_hold_packages, staging_keeps_ready,
    states_have_metadata, stores_do_moves, stores_show_moves,
};
