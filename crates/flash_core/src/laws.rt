//! What holds of each device: a function that does nothing, whose contract is the law.

ghost use Rattle.std.specs.Prelude.{◌≡◌, ℕ, ◌-◌, ◌<◌, Some};
ghost use Rattle.flash_core.specs.Counts.{lowered};
ghost use Rattle.flash_core.specs.declared.flash.Arming.{Arming};

use crate::flash::Flash;

/// The erases and programs that were done are fewer than an armed loss counted, on every device. So what a
/// clause says is left of it is an exact difference: no 4 are done where it counted 3, and none where it was 1.
pub fn armed_losses_stay_ahead<D: Flash>()
    ensures one { (d : D) (armed : Arming) → D.arming d ≡ lowered (Some armed) → 1 < armed.n }
    ensures some { (d : D) (armed : Arming) (done : ℕ) →
        D.arming d ≡ Some (record { n = armed.n - done; k = armed.k }) → done < armed.n }
{}
