//! What a boot reports.
ghost use Rattle.std.specs.Prelude.{◌≡◌};
ghost use Rattle.early_boot.specs.Ends.{device_of, ended};
ghost use Rattle.early_boot.specs.Started.{started};
ghost use Rattle.fwu_c.specs.Handed.{KeepsReport};
ghost use Rattle.fwu_c.specs.Reports.{ReportsEnd, ReportsStart, end_code};

use crate::layouts::fault_number;
use early_boot::{BootEnd, Booted};
use flash_core::Flash;

/// What a boot reports; which fields it writes is said by the answer.
#[repr(C)]
#[derive(Clone, Copy)]
pub struct Report {
    /// The bank that is to be started.
    pub bank: u32,
    /// The security version of its package.
    pub version: u32,
    /// How often the active bank was started on trial, and 0 where it is not on trial. Where it is the active bank that is to be
    /// started, this start is counted.
    pub trials: u32,
    /// The anti-rollback counter after the steps.
    pub counter: u32,
    /// 1 where the previous bank is started in place of the active one, else 0.
    pub fallback: u32,
    /// The active bank.
    pub active: u32,
    /// The bank that was active before.
    pub previous: u32,
    /// The number of the layout's first fault.
    pub layout_fault: u32,
    /// How many images the bank has.
    pub images: u32,
    /// The length of each image in bytes, in the order of the layout. No clause says what is behind them.
    pub lengths: [u32; 16],
    /// How many steps are told.
    pub steps: u32,
    /// How many bytes of the room are theirs.
    pub bytes: u32,
}

const _: () = prove!(size_of::<Report>() == 108);

/// Reports a bank that is to be started.
pub fn report_start<D: Flash>(booted: &Booted<D>, report: &mut Report)
    ensures reports { ReportsStart (started booted.now) report.new }
    ensures kept { report.new.layout_fault ≡ report.old.layout_fault }
{
    report.bank = booted.bank();
    report.version = booted.version();
    report.trials = booted.trials();
    report.counter = booted.counter();
    report.fallback = u32::from(booted.fallback());
    report.active = booted.active();
    report.previous = booted.previous();
    report.images = booted.layout().rows().len() as u32;
    report.lengths = booted.lengths();
}

/// Reports how a boot ended, and answers its number.
pub fn report_end<D: Flash>(end: &BootEnd<D>, report: &mut Report) -> u32
    ensures number { result ≡ end_code (ended end.now) }
    ensures reports { ReportsEnd (ended end.now) report.old report.new }
    ensures kept { KeepsReport result report.old report.new }
{
    match end {
        BootEnd::Booted(booted, _) => {
            report_start(booted, report);
            0
        }
        BootEnd::BadLayout(_, fault) => {
            report.layout_fault = fault_number(*fault);
            1
        }
        BootEnd::NoMetadata(_) => 2,
        BootEnd::NoBank {
            active,
            previous,
            ..
        } => {
            report.active = *active;
            report.previous = *previous;
            3
        }
        BootEnd::Lost(_, _) => 4,
        BootEnd::Fault(_, _) => 5,
    }
}

/// The device that a boot gives back.
pub fn into_flash<D: Flash>(end: BootEnd<D>) -> D
    ensures { result ≡ device_of end }
{
    match end {
        BootEnd::Booted(booted, _) => {
            let (flash, _, _) = booted.into_parts();
            flash
        }
        BootEnd::BadLayout(flash, _) => flash,
        BootEnd::NoMetadata(flash) => flash,
        BootEnd::NoBank { flash, .. } => flash,
        BootEnd::Lost(flash, _) => flash,
        BootEnd::Fault(flash, _) => flash,
    }
}
