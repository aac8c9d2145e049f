//! Laws of stores of metadata, of cleared marks and of writes in a free bank: functions that do nothing, whose contract is the law.

ghost use Rattle.moves.specs.Law.{StatesHaveMetadata, MovesKeepFit, StoresDoMoves, EndsSwitch, BarriersKeepReady, ClearsDo, StagingKeepsReady, StoresShowMoves, OthersShowNothing, SlotsHold, OthersStayGuarded, MovesKeepQuiet};

/// The metadata that decides follows from the state that is shown.
pub fn states_have_metadata()
    ensures { StatesHaveMetadata }
{}

/// The metadata after a move is of the layout where the metadata before is.
pub fn moves_keep_fit()
    ensures { MovesKeepFit }
{}

/// A store of the metadata of a move does this move, or stops before or after it.
pub fn stores_do_moves()
    ensures { StoresDoMoves }
{}

/// The marks cleared, and then a store, switch to the update bank, whose slots begin with a complete package and are quiet.
pub fn ends_switch()
    ensures { EndsSwitch }
{}

/// A barrier leaves a ready flash ready.
pub fn barriers_keep_ready()
    ensures { BarriersKeepReady }
{}

/// While the active bank is accepted, the marks may be cleared.
pub fn clears_do_nothing()
    ensures { ClearsDo }
{}

/// Writes in an invalid bank leave a ready flash ready, at any exit.
pub fn staging_keeps_ready()
    ensures { StagingKeepsReady }
{}

/// On any flash that shows a state, a store of the metadata of a move that is done shows the state after it.
pub fn stores_show_moves()
    ensures { StoresShowMoves }
{}

/// On any flash that shows a state, cleared marks of an accepted bank and writes in an invalid bank show nothing.
pub fn others_show_nothing()
    ensures { OthersShowNothing }
{}

/// A bank whose slots begin with the images of a complete package holds it.
pub fn slots_hold_packages()
    ensures { SlotsHold }
{}

/// On any flash at rest, a store, a clear and writes in an invalid bank put nothing in use at risk.
pub fn others_stay_guarded()
    ensures { OthersStayGuarded }
{}

/// On any flash at rest, the banks that a move puts in use are quiet where the bank is that it switches to.
pub fn moves_keep_quiet()
    ensures { MovesKeepQuiet }
{}
