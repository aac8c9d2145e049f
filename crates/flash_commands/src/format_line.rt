//! The line of a flash that was formatted or was not, in room that was made before. Nothing here takes memory.
ghost use Rattle.std.specs.Prelude.{◌≡◌, ◌≤◌, ◌+◌, ◌++◌, ◌∷◌, [], Err, codes, decimal, length};
ghost use Rattle.base_core.specs.Guid.{guid_text};
ghost use Rattle.fwu_formats.specs.{FaultText.fip_fault_text, Layout.blocks_needed};
ghost use Rattle.fwu_model.specs.Text.{format_line};
ghost use Rattle.fwu_journal.specs.Room.{Grows, HasRoom};
ghost use Rattle.flash_commands.specs.Formatting.{format_text, input_text, verdict_text};
ghost use Rattle.flash_commands.specs.declared.format_line.TheConstants.{FORMAT_ROOM};
ghost use Rattle.flash_format.specs.declared.stops.FormatStop.TheVariants.{Input as InputRefused};

use base_core::Guid;
use flash_format::{FormatStop, Formatted, InputFault};
use fwu_formats::FipFault;
use fwu_journal::{add, add_named, add_no_boot};
use fwu_model::NoBoot;
use image_check::Verdict;
use meta_layout::Layout;

/// Bytes that are enough for each line.
pub const FORMAT_ROOM: usize = 128;

/// Adds a name and an image's type.
fn add_guid(text: &mut Vec<u8>, name: &[u8], guid: &Guid)
    requires { HasRoom text.old (length name.now + 36) }
    ensures grows { Grows text.old text.new (name.now ++ guid_text guid.now) }
    ensures short { length (name.now ++ guid_text guid.now) ≤ length name.now + 36 }
{
    let mut spelled = [0; 36];
    guid.text(&mut spelled);
    add(text, name);
    add(text, &spelled)
}

/// Adds why a file is no package.
fn add_package(text: &mut Vec<u8>, fault: FipFault)
    requires { HasRoom text.old 20 }
    ensures grows { Grows text.old text.new (fip_fault_text fault) }
    ensures short { length (fip_fault_text fault) ≤ 20 }
{
    match fault {
        FipFault::ShortHeader => add(text, b"short-header"),
        FipFault::BadName => add(text, b"bad-name"),
        FipFault::ZeroSerial => add(text, b"zero-serial"),
        FipFault::NoEnd(entry) => add_named(text, b"no-end ", entry),
        FipFault::TooMany => add(text, b"too-many"),
        FipFault::Duplicate(entry) => add_named(text, b"duplicate ", entry),
        FipFault::Beyond(entry) => add_named(text, b"beyond ", entry),
    }
}

/// Adds what is wrong with the images.
fn add_verdict(text: &mut Vec<u8>, found: Verdict)
    requires { HasRoom text.old 20 }
    ensures grows { Grows text.old text.new (verdict_text found) }
    ensures short { length (verdict_text found) ≤ 20 }
{
    match found {
        Verdict::Good { .. } => add(text, b"good"),
        Verdict::BadManifest => add(text, b"bad-manifest"),
        Verdict::NotAccepted => add(text, b"not-accepted"),
        Verdict::BadImage { image } => add_named(text, b"bad-image ", image),
        Verdict::BelowCounter { .. } => add(text, b"below-counter"),
    }
}

/// Adds what is wrong with what was given.
fn add_input(text: &mut Vec<u8>, fault: &InputFault)
    requires { HasRoom text.old 60 }
    ensures grows { Grows text.old text.new (input_text fault.now) }
    ensures short { length (input_text fault.now) ≤ 60 }
{
    match fault {
        InputFault::Layout(fault) => add_no_boot(text, NoBoot::Layout(*fault)),
        InputFault::Package(fault) => {
            add(text, b"bad-package ");
            add_package(text, *fault)
        }
        InputFault::Missing(guid) => add_guid(text, b"missing ", guid),
        InputFault::TooLarge(guid) => add_guid(text, b"too-large ", guid),
        InputFault::Incomplete(found) => {
            add(text, b"incomplete ");
            add_verdict(text, *found)
        }
    }
}

/// Adds the line of what was given and refused.
fn add_refused(text: &mut Vec<u8>, fault: &InputFault)
    requires { HasRoom text.old FORMAT_ROOM }
    ensures { text.new.items ≡ text.old.items ++ format_text (Err (InputRefused fault.now)) }
{
    add(text, b"format ");
    add_input(text, fault);
    add(text, b"\n")
}

/// Adds the version, and the line's end.
fn add_version(text: &mut Vec<u8>, version: u32)
    requires { HasRoom text.old 20 }
    ensures grows { Grows text.old text.new (codes " version=" ++ decimal version ++ 10 ∷ []) }
{
    add_named(text, b" version=", version);
    add(text, b"\n")
}

/// Adds the blocks of a layout, and what stands behind them.
fn add_blocks(text: &mut Vec<u8>, done: &Formatted)
    requires { HasRoom text.old 40 }
    ensures grows { Grows text.old text.new (codes " blocks=" ++ decimal (blocks_needed done.now.layout)
        ++ (codes " version=" ++ decimal done.now.version ++ 10 ∷ [])) }
{
    add_named(text, b" blocks=", done.layout.blocks());
    add_version(text, done.version)
}

/// The number of a layout's images.
fn count_images(layout: &Layout) -> u32
    ensures { result ≡ length layout.now.rows }
{
    layout.rows().len() as u32
}

/// Adds the images of a layout, and what stands behind them.
fn add_images(text: &mut Vec<u8>, done: &Formatted)
    requires { HasRoom text.old 60 }
    ensures grows { Grows text.old text.new (codes " images=" ++ decimal (length done.now.layout.rows)
        ++ (codes " blocks=" ++ decimal (blocks_needed done.now.layout)
        ++ (codes " version=" ++ decimal done.now.version ++ 10 ∷ []))) }
{
    add_named(text, b" images=", count_images(&done.layout));
    add_blocks(text, done)
}

/// Adds the line of a flash that was formatted.
fn add_formatted(text: &mut Vec<u8>, done: &Formatted)
    requires { HasRoom text.old FORMAT_ROOM }
    ensures { text.new.items ≡ text.old.items ++ format_line done.now.layout done.now.version }
{
    add_named(text, b"format banks=", done.layout.banks());
    add_images(text, done)
}

/// Adds the line of what became of a format.
pub fn add_format_line(text: &mut Vec<u8>, ended: &Result<Formatted, FormatStop>)
    requires room { HasRoom text.old FORMAT_ROOM }
    ensures { text.new.items ≡ text.old.items ++ format_text ended.now }
{
    match ended {
        Ok(done) => add_formatted(text, done),
        Err(FormatStop::Input(fault)) => add_refused(text, fault),
        Err(FormatStop::ReadFailed) => add(text, b"read-fault\n"),
        Err(FormatStop::Flash(_)) => add(text, b"flash-fault\n"),
    }
}
