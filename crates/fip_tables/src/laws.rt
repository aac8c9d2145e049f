//! Laws: functions that do nothing, whose contract is the law.

ghost use Rattle.fip_tables.specs.Again.{PassedIsRead, FaultsStand, TablesStandByLength};

/// What is decided by the front of a package. No further bytes mend a bad name, a serial number of
/// zero, an entry too many or a type that is there twice. Behind a whole table nothing counts but how
/// many bytes follow.
pub fn fronts_decide()
    ensures faults { FaultsStand }
    ensures tables { TablesStandByLength }
{}

/// Parts that can be packed are read again from their package, where its serial number is not zero.
/// What is read has the serial number, the flags, and in their order the types, the flags and the
/// payloads.
pub fn passed_is_read()
    ensures { PassedIsRead }
{}
