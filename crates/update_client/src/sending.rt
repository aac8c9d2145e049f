//! Sending a package to the agent.
ghost use Rattle.std.specs.Prelude.{◌≡◌, ◌+◌, ◌<◌, length, IsFalse, IfOk, OnOk};
ghost use Rattle.flash_core.specs.Calls.{Goes};
ghost use Rattle.fwu_model.specs.State.{State};
ghost use Rattle.fwu_model.specs.Session.{Session};
ghost use Rattle.fip_tables.specs.Images.{AreImages};
ghost use Rattle.agent_machine.specs.Beside.{SparesBlocksByAll};
ghost use Rattle.agent_machine.specs.Moment.{Shows};
ghost use Rattle.fwu_model.specs.Answer.{first_image_fault};
ghost use Rattle.host_io.specs.Reads.{ReadsFile};
ghost use Rattle.agent_calls.specs.Shown.{device, fields, gone, moment};
ghost use Rattle.update_client.specs.Halts.{flash_of};
ghost use Rattle.update_client.specs.Images.{HoldsPayloads, ReadsPieceBy};
ghost use Rattle.update_client.specs.Sends.{FaultsBy, GoneBy, Installs, IsCounted, IsEarlySend, IsSwitched, Sends};
ghost use Rattle.agent_calls.specs.Takes.{writes_to_begin};
ghost use Rattle.update_client.specs.Takes.{SendTakesBy, writes_sent};

use crate::choosing::{choose, skipped};
use crate::finishing::install;
use crate::packages::Payloads;
use crate::pieces::unbegun;
use crate::stops::{SendStop, Sent};
use agent_calls::Agent;
use fip_tables::Toc;
use flash_core::Flash;
use host_io::Files;
use verify_core::Verifier;

/// Sends the images of a package to the agent, and installs them (DEN0118). It does a begin, for
/// each image of the layout in its order an open, the writes of its payload and a commit, and an
/// end.
///
/// The package is the file `name`, and its table is the one that is given. An image is the payload
/// of the entry of its type, wherever that stands in the table, and the other entries are skipped.
/// With `acceptance` 0 each image is accepted at once; with another number the package is on trial.
/// The buffer's length is that of each write, in bytes, but for the last one of an image; an image
/// of no bytes has no write. Nothing here takes memory.
///
/// `MissingImage`: no entry has the type of this image of the layout. `ImageTooLarge`: its payload
/// has more bytes than its slot. Of several such images the lowest one is named, before any call.
/// `Begin`: the agent refused to begin, always by DENIED. `End`: it refused to install what was
/// staged, always by AUTH_FAIL, and the staging was cancelled. `ReadFailed`: the file could not be
/// read, and the staging was cancelled. `Lost`, `Fault`: the flash stopped a call. `Gone`: it had
/// stopped an earlier call of this agent.
pub fn send<D: Flash, H: Files, V: Verifier>(
    agent: &mut Agent<D>,
    files: &mut H,
    name: &str,
    toc: &Toc,
    acceptance: u32,
    buf: &mut [u8],
    verifier: &V,
) -> Result<Sent, SendStop>
    requires room { 0 < length buf.old }
    requires payloads { HoldsPayloads (H.contents files.old) name.now toc.now.entries }

    // Of an agent that isn't gone, on any device: the reply is the machine's, and so is what the
    // agent shows afterwards. On a ready flash each loss leaves a prefix of the machine's moves.
    ensures sends { IsFalse (gone agent.old) →
        Sends (H.contents files.old) name.now toc.now acceptance
        (V.passes verifier.now) result (moment agent.old) (moment agent.new) }
    // When done, the update bank holds the images and is active.
    ensures installs { IsFalse (gone agent.old) → (s : State) (x : Session) →
        Shows (moment agent.old) s x → OnOk result (Installs (H.contents files.old) name.now toc.now
        acceptance (moment agent.new) s) }
    // So on any device, a file too, the agent then has the other bank active.
    ensures switched { IsFalse (gone agent.old) → OnOk result
        (IsSwitched (fields agent.old) (fields agent.new)) }
    ensures counted { IfOk result (IsCounted (fields agent.old).layout.rows toc.now) }
    // A missing or too large image comes exactly by the table and the layout, on any agent.
    ensures faults { FaultsBy (first_image_fault (fields agent.old).layout.rows toc.now) result }
    // It, a refused begin and Gone leave everything as it was.
    ensures untouched { IsEarlySend result → agent.new ≡ agent.old }
    ensures unread { IsEarlySend result → files.new ≡ files.old }
    // Gone comes exactly on an agent that is gone, where no image is missing or too large.
    ensures gone { GoneBy (first_image_fault (fields agent.old).layout.rows toc.now) result
        (gone agent.old) (gone agent.new) }
    ensures goes { IsFalse (gone agent.old) →
        Goes D.Flash (flash_of result) (device agent.old) (device agent.new) }
    // On every device, whatever its reads give, no block is erased or programmed but 1 to 3 and those of
    // the bank behind the one that was started. That holds at any exit.
    ensures touches { SparesBlocksByAll (fields agent.old)
        (D.writes (device agent.old)) (D.writes (device agent.new)) }
    // On every device: the erases and programs of the begin, and of each image's writes and its commit.
    // Each write has as many bytes as the buffer, but the last one of an image.
    ensures takes { let f = fields agent.old in SendTakesBy result
        (writes_to_begin f + writes_sent (length buf.old) f.layout.rows toc.now) (writes_to_begin f) (length buf.old)
        (AreImages f.layout.rows toc.now) (D.arming (device agent.old)) (D.arming (device agent.new)) }
    ensures buffer { length buf.new ≡ length buf.old }
    ensures files { ReadsFile H.Files name.now files.old files.new }
    ensures reads { ReadsPieceBy (H.faults files.old) (H.faults files.new) result }
{
    let entries = choose(agent.rows(), toc)?;
    let images = agent.rows().len() as u32;
    let skipped = skipped(agent.rows(), toc);
    match agent.begin(0, 0) {
        Ok(()) => {}
        Err(stop) => return Err(unbegun(stop)),
    }
    let payloads = Payloads {
        name,
        entries: entries.as_slice(),
    };
    install(agent, files, &payloads, acceptance, buf, verifier)?;
    Ok(Sent {
        images,
        skipped,
        copied: 0,
    })
}
