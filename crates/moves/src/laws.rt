//! Laws of the definitions: functions that do nothing, whose contract is the law.

ghost use Rattle.moves.specs.Law.{CallsCompose, LossesLeaveCalm, StartsAreReady, RepairsDo, TrialsDo, RaisesDo, RepairsShow, RepairsKeepCounts, TrialsShow, RaisesShow, WritesStayGuarded};

/// Calls in a row do the moves of each, and a call that stops a prefix of them.
pub fn calls_compose()
    ensures { CallsCompose }
{}

/// After a loss of power the flash is calm at a state after some of the moves.
pub fn losses_leave_calm()
    ensures { LossesLeaveCalm }
{}

/// A sound flash with nothing dirty and two like replicas is ready.
pub fn starts_are_ready()
    ensures { StartsAreReady }
{}

/// A repair is no move to the machine, and a migration the one of that name.
pub fn repairs_do_moves()
    ensures { RepairsDo }
{}

/// A mark in the block of the trials is a trial.
pub fn marks_do_trials()
    ensures { TrialsDo }
{}

/// A record of the counter raises it.
pub fn records_do_raises()
    ensures { RaisesDo }
{}

/// On any flash that shows a state, a repair that is done changes no more of it than the version.
pub fn repairs_show()
    ensures { RepairsShow }
{}

/// A repair leaves the layout, the trials and the counter as they are, at any exit.
pub fn repairs_keep_counts()
    ensures { RepairsKeepCounts }
{}

/// On any flash that shows a state and has tidy marks, a mark that is done counts as one more trial.
pub fn trials_show()
    ensures { TrialsShow }
{}

/// On any flash that shows a state, a record that is done is its counter.
pub fn raises_show()
    ensures { RaisesShow }
{}

/// On any flash at rest, a repair, a mark and a record put no place at risk that the layout or a bank in use has.
pub fn writes_stay_guarded()
    ensures { WritesStayGuarded }
{}
