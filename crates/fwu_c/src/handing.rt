//! The steps of a device, handed over to C.
ghost use Rattle.std.specs.Prelude.{◌≡◌, ◌≢◌, ◌⊎◌, ◌*◌, All, drop, length, take, IfSome, IsFalse, IsTrue};
ghost use Rattle.base_core.specs.Block.{block_bytes};
ghost use Rattle.step_flash.specs.Device.{LieAsCounted, NotedBy};
ghost use Rattle.step_flash.specs.Flash.{device_in, image_of, package_of, room_of, steps_of, told_of};
ghost use Rattle.step_flash.specs.Guard.{start_with};
ghost use Rattle.step_flash.specs.Steps.{AreDoable, IsInsideWith, room_bytes};
ghost use Rattle.fwu_c.specs.Handed.{HandsOver, IsDeviceEnd, KeepsReport, is_idle_number, unmade_code};

use crate::report::Report;
use step_flash::{Step, StepFlash, StepParts, Unmade};

const _: () = prove!(size_of::<Step>() == 16);

/// The number where there is no device over an image.
pub fn unmade_number(why: Unmade) -> u32
    ensures { result ≡ unmade_code why }
{
    match why {
        Unmade::NoFlash => 6,
        Unmade::NoMemory => 7,
    }
}

/// Whether the number says that no step is told.
fn is_idle(number: u32) -> bool
    ensures { result ≡ is_idle_number number }
{
    number == 1 || number == 2 || number == 21
}

/// The steps of a device that are handed over: none where the number says so. There are no parts where power was on again after a
/// stop.
fn parts_of(flash: StepFlash<'_>, number: u32) -> Option<StepParts>
    requires { IsTrue (is_idle_number number) → told_of flash ≡ start_with (image_of flash) (package_of flash) }
    ensures noted { IfSome result (λ parts. NotedBy (device_in flash.entry) parts) }
    ensures inside { IfSome result (λ parts.
        All (IsInsideWith (length (package_of flash.entry)) (length parts.room.items) (length (image_of flash.entry)))
        parts.steps.items) }
    ensures doable { IfSome result (λ parts.
        AreDoable (package_of flash.entry) parts.room.items (start_with (image_of flash.entry) (package_of flash.entry))
        parts.steps.items) }
    ensures theirs { IfSome result (λ parts. length parts.room.items ≡ room_bytes parts.steps.items) }
    ensures lie { IfSome result (λ parts. LieAsCounted (device_in flash.entry) parts.steps.items) }
    ensures given { IfSome result (λ parts. IsFalse (is_idle_number number) →
        (parts.steps.items ≡ steps_of flash.entry) × (parts.room.items ≡ room_of flash.entry)) }
    ensures none { IfSome result (λ parts. IsTrue (is_idle_number number) →
        (length parts.steps.items ≡ 0) × (length parts.room.items ≡ 0)) }
{
    if !flash.is_live() {
        return None;
    }
    let mut parts = flash.into_parts();
    if is_idle(number) {
        parts.steps.clear();
        parts.room.clear();
        return Some(parts);
    }
    Some(parts)
}

/// Hands the steps of a device over, with what is told beside them, and answers the number that it is given. It answers 7, and
/// writes nothing, where there is no room for the steps or for their bytes, or where power was on again after a stop. It does so
/// too at 5, where fewer steps were noted than there is room for: the device failed for want of memory then.
pub fn hand_over(
    flash: StepFlash<'_>,
    number: u32,
    told: &Report,
    steps: &mut [Step],
    room: &mut [u8],
    report: &mut Report,
) -> u32
    requires known { IsDeviceEnd number }
    requires idle { IsTrue (is_idle_number number) → told_of flash ≡ start_with (image_of flash) (package_of flash) }
    requires kept { KeepsReport number report.old told.now }
    ensures number { (result ≡ number) ⊎ (result ≡ 7) }
    ensures hands { result ≢ 7 → HandsOver flash.entry told.now report.new steps.new room.new }
    // the steps that the device noted, and no others, in their order
    ensures given { result ≢ 7 → IsFalse (is_idle_number result) →
        (take report.new.steps steps.new ≡ steps_of flash.entry) × (take report.new.bytes room.new ≡ room_of flash.entry) }
    ensures idle { IsTrue (is_idle_number result) → (report.new.steps ≡ 0) × (report.new.bytes ≡ 0) }
    ensures kept { KeepsReport result report.old report.new }
    ensures full { result ≡ 5 → report.new.steps ≡ length steps.old }
    ensures behind { (drop report.new.steps steps.new ≡ drop report.new.steps steps.old)
        × (drop report.new.bytes room.new ≡ drop report.new.bytes room.old) }
    ensures untouched { result ≡ 7 → (report.new ≡ report.old) × (steps.new ≡ steps.old) × (room.new ≡ room.old) }
{
    let Some(parts) = parts_of(flash, number) else {
        return 7;
    };
    let count = parts.steps.len();
    let used = parts.room.len();
    let (Ok(count_told), Ok(used_told)) = (u32::try_from(count), u32::try_from(used)) else {
        return 7;
    };
    if count > steps.len() || used > room.len() {
        return 7;
    }
    if number == 5 && count < steps.len() {
        return 7;
    }
    steps[..count].copy_from_slice(&parts.steps);
    room[..used].copy_from_slice(&parts.room);
    *report = *told;
    report.steps = count_told;
    report.bytes = used_told;
    number
}
