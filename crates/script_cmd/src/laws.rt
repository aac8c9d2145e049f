//! Laws of the ways that a run may end, and of wrong outcomes that none is promised:
//! functions that do nothing, whose contract is the law.
ghost use Rattle.script_cmd.specs.Outcomes.{BadListIsNone, ListIsSome, MissingListIsNone, NoMetadataIsNone};
ghost use Rattle.script_cmd.specs.Outcomes.{NothingFollowsTheSink, NothingIsArmed, NothingIsPassedOver};
ghost use Rattle.script_cmd.specs.Outcomes.{NothingIsTouched, UsageLineIsOfUsage, UsageReadsNoSource, BootsArePermitted};
ghost use Rattle.script_cmd.specs.Promises.{WaysArePromised, WaysHold};

/// Whichever way a run ends: what the sink took is the lines of its turns, or one line where nothing ran; its status has its cause,
/// and what can't run is refused; and its turns follow one another, each with the reply of its call, up to what is left of the device.
pub fn ways_hold()
    ensures { WaysHold }
{}

/// Whichever way a run of what the words ask for ends, it promises all that a run promises.
pub fn ways_are_promised()
    ensures { WaysArePromised }
{}

/// A run of a script with calls that does none of them doesn't end with 0.
pub fn nothing_is_passed_over()
    ensures { NothingIsPassedOver }
{}

/// A run without a turn leaves the device as it was.
pub fn nothing_is_touched()
    ensures { NothingIsTouched }
{}

/// The armings are those of the script's turns.
pub fn nothing_is_armed()
    ensures { NothingIsArmed }
{}

/// A run ends at the line that the sink didn't take.
pub fn nothing_follows_the_sink()
    ensures { NothingFollowsTheSink }
{}

/// Each boot that is answered, on any device, is of a version that some complete package has whose manifest passes. It is not below
/// the counter which the boot read.
pub fn boots_are_permitted()
    ensures { BootsArePermitted }
{}

/// A first boot answers that there is no metadata only where the bytes have none.
pub fn no_metadata_is_none()
    ensures { NoMetadataIsNone }
{}

/// Words that ask for nothing are answered by 2 only where a list was named and not read.
pub fn usage_reads_no_source()
    ensures { UsageReadsNoSource }
{}

/// Behind a list that told files lack there is no choice of manifests that pass.
pub fn missing_list_is_none()
    ensures { MissingListIsNone }
{}

/// Behind a list that told files show to have a bad line there is no choice of manifests that pass.
pub fn bad_list_is_none()
    ensures { BadListIsNone }
{}

/// Behind a list those of some digests pass.
pub fn list_is_some()
    ensures { ListIsSome }
{}

/// The line of usage stands for words that ask for nothing alone, also where the sink failed behind it.
pub fn usage_line_is_of_usage()
    ensures { UsageLineIsOfUsage }
{}
