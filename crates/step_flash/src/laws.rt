//! What holds of each device of steps: functions that do nothing, whose contracts are the laws.
ghost use Rattle.std.specs.Prelude.{◌≡◌, ◌≤◌, List, ℕ, Result, IsErrOf, Some};
ghost use Rattle.flash_core.specs.Counts.{Spends, lowered_by};
ghost use Rattle.flash_core.specs.declared.flash.FlashStop.{FlashStop};
ghost use Rattle.flash_core.specs.declared.flash.FlashStop.TheVariants.{Lost};
ghost use Rattle.step_flash.specs.Flash.{arming_of, block_count, counts_of, image_of, package_of, steps_of, told_of, writes_of};
ghost use Rattle.step_flash.specs.Guard.{guard_with};
ghost use Rattle.step_flash.specs.Writes.{erases_and_programs, far_loss};
ghost use Rattle.step_flash.specs.declared.flash.StepFlash.{StepFlash};

/// A device that tells the guard of an image and a package lies over that image, and has that package. No call changes the guard,
/// so a device that a generic call gives back has the image and the package that it was handed in with.
pub fn a_guard_tells_its_image()
    ensures { (d : StepFlash) (image file : List ℕ) → (told_of d).guard ≡ guard_with image file
        → (image_of d ≡ image) × (package_of d ≡ file) }
{}

/// No call of a device ends in a loss of power: by what each call says of its counts, where it stops it has failed.
pub fn no_power_is_lost<T>()
    ensures { (old new : StepFlash) (result : Result T FlashStop) →
        Spends result (counts_of old) (counts_of new) → IsErrOf result Lost → ⊥ }
{}

/// No device counts an erase or a program of a block that it has not. So where a call spares the blocks before one, its steps lie
/// from there to the end of the flash.
pub fn no_block_behind_the_last_is_counted()
    ensures { (d : StepFlash) (b : ℕ) → block_count d ≤ b → writes_of d b ≡ 0 }
{}

/// A device on which no loss is armed tells a far one, and by that how many erases and programs it noted. So a call that brings an
/// armed loss nearer by so much has so many of them, and where a generic call gives a device back, that is one with so many.
pub fn an_arming_tells_its_steps()
    ensures { (d : StepFlash) (most writes : ℕ) → arming_of d ≡ lowered_by writes (Some (far_loss most))
        → erases_and_programs (steps_of d) ≡ writes }
{}
