//! Sending some images of a package over those of the active bank.
ghost use Rattle.std.specs.Prelude.{◌≡◌, ◌+◌, ◌<◌, ◌≤◌, length, take, IsFalse, IfOk, OnOk};
ghost use Rattle.flash_core.specs.Calls.{Goes};
ghost use Rattle.fwu_model.specs.State.{State};
ghost use Rattle.fwu_model.specs.Session.{Session};
ghost use Rattle.fwu_model.specs.Answer.{partial_fault};
ghost use Rattle.host_io.specs.Reads.{ReadsFile};
ghost use Rattle.agent_machine.specs.Beside.{SparesBlocksByAll};
ghost use Rattle.agent_machine.specs.Moment.{Shows};
ghost use Rattle.agent_calls.specs.Shown.{device, fields, gone, moment};
ghost use Rattle.agent_calls.specs.Takes.{writes_to_begin};
ghost use Rattle.update_client.specs.Takes.{SendTakesBy};
ghost use Rattle.update_client.specs.Images.{HoldsPayloads, ReadsPieceBy};
ghost use Rattle.update_client.specs.Sends.{FaultsBy, GoneBy, IsEarlySend, IsSwitched};
ghost use Rattle.update_client.specs.Halts.{flash_of};
ghost use Rattle.update_client.specs.Partial.{InstallsOver, IsCountedOver, SendsOver, present, entry_types, writes_copied, writes_over};

use crate::choosing::{choose_present, skipped};
use crate::finishing::install;
use crate::packages::Payloads;
use crate::pieces::unbegun;
use crate::stops::{SendStop, Sent};
use agent_calls::Agent;
use base_core::Guid;
use fip_tables::{Entry, Toc};
use flash_core::Flash;
use host_io::Files;
use verify_core::Verifier;

/// The types of up to 16 entries, and nil behind them.
fn types_in(entries: &[Entry]) -> [Guid; 16]
    requires { length entries.now ≤ 16 }
    ensures { take (length entries.now) result ≡ entry_types entries.now }
{
    let mut types = [Guid::nil(); 16];
    for k in 0..entries.len() {
        let entry = entries[k];
        types[k] = entry.guid;
    }
    types
}

/// Sends the images of the layout that a package has, over those of the active bank, and installs
/// them. It does a partial begin, which copies the other images as accepted. For each image that the
/// package has, in the layout's order, come an open, the writes of its payload and a commit. Last
/// comes an end.
///
/// The package is the file `name`, and its table is the one that is given. An image is the payload
/// of the entry of its type, wherever that stands in the table, and the entries of no image are
/// skipped. With `acceptance` 0 each image that is sent is accepted at once; with another number
/// these are not, and the package is on trial. The buffer's length is that of each write, in bytes,
/// but for the last one of an image; an image of no bytes has no write. The copies are read and
/// written 4096 bytes at a time. Nothing here takes memory.
///
/// `MissingImage`: no entry has the type of any image; the first image of the layout is named.
/// `ImageTooLarge`: the payload of this image has more bytes than its slot; of several such images
/// the lowest one is named. Both come before any call. `Begin`: the agent refused to begin, always by
/// DENIED. `End`: it refused to install what was staged, always by AUTH_FAIL, and the staging was
/// cancelled. `ReadFailed`: the file could not be read, and the staging was cancelled. `Lost`,
/// `Fault`: the flash stopped a call. `Gone`: it had stopped an earlier call of this agent.
pub fn send_partial<D: Flash, H: Files, V: Verifier>(
    agent: &mut Agent<D>,
    files: &mut H,
    name: &str,
    toc: &Toc,
    acceptance: u32,
    buf: &mut [u8],
    verifier: &V,
) -> Result<Sent, SendStop>
    requires room { 0 < length buf.old }
    requires payloads { HoldsPayloads (H.contents files.old) name.now toc.now.entries }

    // Of an agent that isn't gone, on any device: the reply is the machine's, and so is what the
    // agent shows afterwards. On a ready flash each loss leaves a prefix of the machine's moves.
    ensures sends { IsFalse (gone agent.old) →
        SendsOver (H.contents files.old) name.now toc.now acceptance
        (V.passes verifier.now) result (moment agent.old) (moment agent.new) }
    // When done, the update bank holds the images, over those of the bank that was active, and is active.
    ensures installs { IsFalse (gone agent.old) → (s : State) (x : Session) →
        Shows (moment agent.old) s x → OnOk result (InstallsOver (H.contents files.old) name.now
        toc.now acceptance (moment agent.old) (moment agent.new) s) }
    // So on any device, a file too, the agent then has the other bank active.
    ensures switched { IsFalse (gone agent.old) → OnOk result
        (IsSwitched (fields agent.old) (fields agent.new)) }
    // A missing or too large image comes exactly by the table and the layout, on any agent.
    ensures faults { FaultsBy (partial_fault (fields agent.old).layout.rows toc.now) result }
    // It, a refused begin and Gone leave everything as it was.
    ensures untouched { IsEarlySend result → agent.new ≡ agent.old }
    ensures unread { IsEarlySend result → files.new ≡ files.old }
    // Gone comes exactly on an agent that is gone, where no image is missing or too large.
    ensures gone { GoneBy (partial_fault (fields agent.old).layout.rows toc.now) result
        (gone agent.old) (gone agent.new) }
    ensures counted { IfOk result (IsCountedOver (fields agent.old).layout.rows toc.now) }
    ensures goes { IsFalse (gone agent.old) →
        Goes D.Flash (flash_of result) (device agent.old) (device agent.new) }
    // On every device, whatever its reads give, no block is erased or programmed but 1 to 3 and those of
    // the bank behind the one that was started. That holds at any exit.
    ensures touches { SparesBlocksByAll (fields agent.old)
        (D.writes (device agent.old)) (D.writes (device agent.new)) }
    // On every device: the erases and programs of the begin, of each copy in pieces of 4096 bytes, and of
    // each image's writes and its commit. Each write has as many bytes as the buffer, but the last one of an image.
    ensures takes { let f = fields agent.old in SendTakesBy result
        (writes_to_begin f + writes_over (length buf.old) f.layout.rows f.lengths toc.now)
        (writes_to_begin f + writes_copied f.layout.rows f.lengths toc.now) (length buf.old)
        (λ entries. entries ≡ present f.layout.rows toc.now) (D.arming (device agent.old)) (D.arming (device agent.new)) }
    ensures buffer { length buf.new ≡ length buf.old }
    ensures files { ReadsFile H.Files name.now files.old files.new }
    ensures reads { ReadsPieceBy (H.faults files.old) (H.faults files.new) result }
{
    let entries = choose_present(agent.rows(), toc)?;
    let images = entries.len() as u32;
    let copied = agent.rows().len() as u32 - images;
    let skipped = skipped(agent.rows(), toc);
    let types = types_in(entries.as_slice());
    match agent.begin_partial(0, &types[..entries.len()]) {
        Ok(()) => {}
        Err(stop) => return Err(unbegun(stop)),
    }
    let payloads = Payloads {
        name,
        entries: entries.as_slice(),
    };
    install(agent, files, &payloads, acceptance, buf, verifier)?;
    Ok(Sent {
        images,
        skipped,
        copied,
    })
}
