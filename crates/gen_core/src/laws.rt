//! Laws: functions that do nothing, whose contract is the law.
ghost use Rattle.gen_core.specs.Law.{GeneratedAreComplete, LayoutsHaveImages, RoundsHavePackages};

/// A package that is made from a number installs its manifest and its images.
pub fn generated_are_complete()
    ensures { GeneratedAreComplete }
{}

/// The images of each layout within its limits are such as a package can be made for.
pub fn layouts_have_images()
    ensures { LayoutsHaveImages }
{}

/// The package of each round stands under the round's name, and all packages of a soak install their
/// images.
pub fn rounds_have_packages()
    ensures { RoundsHavePackages }
{}
