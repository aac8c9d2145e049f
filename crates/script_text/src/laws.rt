//! Laws of the definitions: functions that do nothing, whose contract is the law.
ghost use Rattle.script_text.specs.Law.{CallsHaveLines, CutsAreArmable, LongStaysLong};

/// Every cut of a script names an erase or a program from 1 on, and at most a block's bytes.
pub fn cuts_are_armable()
    ensures { CutsAreArmable }
{}

/// A script has no more calls than lines.
pub fn calls_have_lines()
    ensures { CallsHaveLines }
{}

/// A text with a front that is too long is too long.
pub fn long_texts_stay_too_long()
    ensures { LongStaysLong }
{}
