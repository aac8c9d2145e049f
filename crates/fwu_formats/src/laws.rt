//! Laws of the formats: functions that do nothing, whose contract is the law.

ghost use Rattle.fwu_formats.specs.Law.{FormatsAreSealed, HaveOneSpelling, MarksAreCounted, PackedIsRead, ReadLayoutsFit, TablesAreRead, WrittenIsRead};

/// A block that isn't sealed is no layout, no metadata and no record of the counter.
pub fn formats_are_sealed()
    ensures { FormatsAreSealed }
{}

/// Layouts, metadata, manifests and records of the counter that are written are read again as what they say.
pub fn written_is_read()
    ensures { WrittenIsRead }
{}

/// A package that is packed is read again, with the parts and payloads in their order.
pub fn packed_is_read()
    ensures { PackedIsRead }
{}

/// A layout that was read is within its limits.
pub fn read_layouts_fit()
    ensures { ReadLayoutsFit }
{}

/// What the number of marks of a block is, and when a block is tidy.
pub fn marks_are_counted()
    ensures { MarksAreCounted }
{}

/// A package is read exactly where the equations of its table hold.
pub fn tables_are_read()
    ensures { TablesAreRead }
{}

/// Layouts, metadata of version 2, manifests and records of the counter have one spelling: bytes that are read as the
/// same value are the same, and those that are written.
pub fn formats_have_one_spelling()
    ensures { HaveOneSpelling }
{}
