//! Ending a staging.
ghost use Rattle.std.specs.Prelude.{◌≡◌, ◌<◌, length, IsFalse, OnOk};
ghost use Rattle.agent_machine.specs.Ends.{TakesSwitch};
ghost use Rattle.agent_calls.specs.Shown.{SpentBy, device, gone, moment};
ghost use Rattle.update_client.specs.Images.{FinishesBy, HoldsPayloads, InstallsImages, KeepsBeside, SparesOthers};
ghost use Rattle.update_client.specs.Halts.{StopsEnd, flash_of};
ghost use Rattle.update_client.specs.Takes.{AllUnstagedTake, ImagesTake, InstallTakes, OnRefusedEnd, OnUnread, TakesFirst};

use crate::images::send_images;
use crate::packages::Payloads;
use crate::pieces::{is_unread, stopped};
use crate::stops::SendStop;
use agent_calls::{Agent, Stop};
use flash_core::Flash;
use host_io::Files;
use verify_core::Verifier;

/// Installs what was staged; where that is refused, cancels it.
pub fn finish<D: Flash, V: Verifier>(agent: &mut Agent<D>, verifier: &V) -> Result<(), SendStop>
    requires here { IsFalse (gone agent.old) }

    ensures finishes { FinishesBy (V.passes verifier.now) result
        (moment agent.old) (moment agent.new) }
    ensures takes { OnOk result
        (TakesSwitch (D.arming (device agent.old)) (D.arming (device agent.new))) }
    ensures unswitched { OnRefusedEnd result (device agent.new ≡ device agent.old) }
    ensures stops { StopsEnd result }
    ensures spent { SpentBy (flash_of result) agent.old agent.new }
    ensures spares { SparesOthers (moment agent.old) (moment agent.new) }
{
    match agent.end(verifier) {
        Ok(()) => Ok(()),
        Err(Stop::Status(status)) => match agent.cancel() {
            Ok(()) => Err(SendStop::End(status)),
            Err(stop) => Err(stopped(stop)),
        },
        Err(Stop::Lost) => Err(SendStop::Lost),
        Err(Stop::Fault) => Err(SendStop::Fault),
        Err(Stop::Gone) => Err(SendStop::Gone),
    }
}

/// Sends the images of a package into a staging and installs them; after a failed read cancels it.
pub fn install<D: Flash, H: Files, V: Verifier>(
    agent: &mut Agent<D>,
    files: &mut H,
    payloads: &Payloads<'_>,
    acceptance: u32,
    buf: &mut [u8],
    verifier: &V,
) -> Result<(), SendStop>
    requires room { 0 < length buf.old }
    requires payloads { HoldsPayloads (H.contents files.old) payloads.now.name.now payloads.now.entries.now }
    requires here { IsFalse (gone agent.old) }

    ensures installs { InstallsImages (H.contents files.old) payloads.now.name.now payloads.now.entries.now
        acceptance (V.passes verifier.now) result (moment agent.old) (moment agent.new) }
    // when done, all images and their switch; where the end is refused, not the switch
    ensures takes { OnOk result (InstallTakes (length buf.old) payloads.now.entries.now (moment agent.old)
        (D.arming (device agent.old)) (D.arming (device agent.new))) }
    ensures unswitched { OnRefusedEnd result (ImagesTake (length buf.old) payloads.now.entries.now
        (length payloads.now.entries.now) (moment agent.old) (D.arming (device agent.old)) (D.arming (device agent.new))) }
    ensures unread { OnUnread result (TakesFirst (length buf.old) payloads.now.entries.now
        (AllUnstagedTake payloads.now.entries.now (moment agent.old) (D.arming (device agent.old)) (D.arming (device agent.new)))) }
    ensures keeps { KeepsBeside H.Files payloads.now.name.now result agent.old agent.new files.old files.new
        buf.old buf.new }
{
    match send_images(agent, files, payloads, acceptance, buf) {
        Ok(()) => finish(agent, verifier),
        Err(stop) => {
            if !is_unread(&stop) {
                return Err(stop);
            }
            // within a staging this is neither refused nor stopped
            let _cancelled = agent.cancel();
            Err(SendStop::ReadFailed)
        }
    }
}
