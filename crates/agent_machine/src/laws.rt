//! Laws of an agent's calls: functions that do nothing, whose contract is the law.
ghost use Rattle.agent_machine.specs.Goes.{CallsGo};

/// What is done and what comes next do the moves of both, one after the other. What the flash stopped
/// did a prefix of the moves of whatever was to follow.
pub fn calls_go()
    ensures { CallsGo }
{}
