//! Laws: functions that do nothing, whose contract is the law.

ghost use Rattle.capsule_tables.specs.Making.{MadeIsRead};

/// Parts that make a capsule are read again from it: in their order the types and the payloads.
pub fn made_is_read()
    ensures { MadeIsRead }
{}
