//! The flash of a run between two turns.
ghost use Rattle.std.specs.Prelude.{IsTrue, is_some};

use crate::stage::{Fresh, Stage};
use flash_core::Flash;

/// The flash of a run between two turns. A boot takes its stage out, and puts the next one in; every other turn leaves it in place.
#[derive(Drop)]
pub struct Powered<D: Flash> {
    pub(crate) inside: Option<Stage<D>>,
    ghost there: { IsTrue (is_some inside) },
}

impl<D: Flash> Powered<D> {
    ghost use Rattle.std.specs.Prelude.{◌≡◌, None, true, false};
    ghost use Rattle.script_turns.specs.Powered.{device, has_power, shown_on};

    /// A flash that is off.
    pub fn off(flash: D) -> Powered<D>
        ensures device { device result ≡ flash }
        ensures on { shown_on result ≡ None }
        ensures has { has_power result ≡ false }
    {
        Powered {
            inside: Some(Stage::Off(flash)),
        }
    }

    /// A flash that is on, and was not booted.
    pub fn fresh(fresh: Fresh<D>) -> Powered<D>
        ensures device { device result ≡ fresh.flash }
        ensures on { shown_on result ≡ None }
        ensures has { has_power result ≡ true }
    {
        Powered {
            inside: Some(Stage::Fresh(fresh)),
        }
    }

    /// The flash as it is.
    pub fn into_flash(self) -> D
        ensures { result ≡ device self }
    {
        let Powered { inside } = self;
        let Some(stage) = inside else { unreachable!() };
        stage.into_flash()
    }
}
