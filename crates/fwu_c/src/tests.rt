//! A loader in Rattle, which does with the library what the C programs of `demo/c` do: it boots a flash in memory, does the
//! steps, and boots again. The lines that are expected are those of the rows of `fwu FLASH boot`.
use crate::{
    BankShown, FlashShown, Report, Slot, Slots, fwu_accept, fwu_boot, fwu_previous, fwu_show,
    fwu_slots, fwu_update,
};
use runs_kit::{LAYOUT, MANIFEST_2, NotMade, blank, on_trial, put, two_banks};
use std::alloc::Global;
use std::process::Abort;
use std::test::Fail;
use step_flash::{BARRIER, COPY, ERASE, PROGRAM, Step};

/// Of the flash of the tests.
const BLOCKS: u32 = 22;

const MOST_STEPS: usize = 16;

const ROOM_BYTES: usize = 1024;

/// A board: its flash, and what a boot of it told.
#[derive(Drop)]
struct Board {
    flash: Vec<u8>,
    steps: Vec<Step>,
    room: Vec<u8>,
    report: Report,
}

fn report_of_nothing() -> Report {
    Report {
        bank: 0,
        version: 0,
        trials: 0,
        counter: 0,
        fallback: 0,
        active: 0,
        previous: 0,
        layout_fault: 0,
        images: 0,
        lengths: [0; 16],
        steps: 0,
        bytes: 0,
    }
}

fn board_of(alloc: Global, flash: Vec<u8>) -> Result<Board, Fail> {
    let nothing = Step {
        kind: 0,
        at: 0,
        length: 0,
        from: 0,
    };
    Ok(Board {
        flash,
        steps: Vec::from_elem(alloc, nothing, MOST_STEPS)?,
        room: Vec::from_elem(alloc, 0u8, ROOM_BYTES)?,
        report: report_of_nothing(),
    })
}

/// The driver: what a step does to the flash. Whether it is a step of this flash.
fn is_done(flash: &mut [u8], room: &[u8], file: &[u8], step: &Step) -> bool {
    let (Some(end), Some(from_end)) = (
        step.at.checked_add(step.length),
        step.from.checked_add(step.length),
    ) else {
        return false;
    };
    let Some(place) = flash.get_mut(step.at as usize..end as usize) else {
        return false;
    };
    if step.kind == ERASE {
        place.fill(0xFF);
        return true;
    }
    if step.kind == BARRIER {
        return true;
    }
    let source = match step.kind {
        PROGRAM => room,
        COPY => file,
        _ => return false,
    };
    match source.get(step.from as usize..from_end as usize) {
        Some(bytes) if bytes.len() == place.len() => {
            place.copy_from_slice(bytes);
            true
        }
        _ => false,
    }
}

/// Does the steps that were told, in their order. Copies are taken from the bytes of a package.
fn do_steps(rt: &impl Abort, board: &mut Board, file: &[u8]) {
    for step in board
        .steps
        .as_slice()
        .iter()
        .take(board.report.steps as usize)
    {
        assert!(rt;
            is_done(
                board.flash.as_mut_slice(),
                board.room.as_slice(),
                file,
                step
            ),
            "a step of this flash"
        );
    }
}

/// The loader: boots, and does the steps.
fn boot(rt: &impl Abort, alloc: Global, board: &mut Board) -> u32 {
    let answer = fwu_boot(
        alloc,
        board.flash.as_slice(),
        board.steps.as_mut_slice(),
        board.room.as_mut_slice(),
        &mut board.report,
    );
    do_steps(rt, board, &[]);
    answer
}

/// The firmware of a bank: accepts the image of a type, and does the steps.
fn accept(rt: &impl Abort, alloc: Global, board: &mut Board, bank: u32, guid: &[u8; 16]) -> u32 {
    let answer = fwu_accept(
        alloc,
        board.flash.as_slice(),
        bank,
        guid,
        board.steps.as_mut_slice(),
        board.room.as_mut_slice(),
        &mut board.report,
    );
    do_steps(rt, board, &[]);
    answer
}

/// The firmware of a bank: selects the bank before, and does the steps.
fn previous(rt: &impl Abort, alloc: Global, board: &mut Board, bank: u32) -> u32 {
    let answer = fwu_previous(
        alloc,
        board.flash.as_slice(),
        bank,
        board.steps.as_mut_slice(),
        board.room.as_mut_slice(),
        &mut board.report,
    );
    do_steps(rt, board, &[]);
    answer
}

/// An update agent: installs a package, and does the steps.
fn update(rt: &impl Abort, alloc: Global, board: &mut Board, file: &[u8], acceptance: u32) -> u32 {
    let answer = fwu_update(
        alloc,
        board.flash.as_slice(),
        file,
        acceptance,
        board.steps.as_mut_slice(),
        board.room.as_mut_slice(),
        &mut board.report,
    );
    do_steps(rt, board, file);
    answer
}

/// A package of version 2 with the images `abc` and `hello`. It has its header, an entry each for the manifest, `abc` and `hello`,
/// and the end marker. Behind that the three stand.
fn package(alloc: Global) -> Result<Vec<u8>, NotMade> {
    let mut file = vec![in alloc; 0; 344]?;
    put(alloc, &mut file, 0, "010064aa78563412")?;
    put(
        alloc,
        &mut file,
        16,
        "4657554d414e49464553540000000001b000000000000000a000000000000000",
    )?;
    put(
        alloc,
        &mut file,
        56,
        "5ff9ec0b4d223e4da544c39d81c73f0a50010000000000000300000000000000",
    )?;
    put(
        alloc,
        &mut file,
        96,
        "d6d0eea7fcead54b97829934f234b6e453010000000000000500000000000000",
    )?;
    put(alloc, &mut file, 176, MANIFEST_2)?;
    put(alloc, &mut file, 336, "616263")?;
    put(alloc, &mut file, 339, "68656c6c6f")?;
    Ok(file)
}

/// What stood there before a flash was shown.
fn shown_before() -> FlashShown {
    let before = BankShown {
        state: 9,
        verdict: 9,
        version: 9,
        image: 9,
        accepted: [9; 16],
    };
    FlashShown {
        form: 9,
        active: 9,
        previous: 9,
        trials: 9,
        counter: 9,
        layout_fault: 9,
        banks: 9,
        images: 9,
        bank: [before; 4],
    }
}

/// A bank is shown with this state, verdict, version and image, and its three images as accepted or not.
fn shows(
    rt: &impl Abort,
    shown: &FlashShown,
    bank: usize,
    wanted: (u32, u32, u32, u32),
    bits: [u8; 3],
) {
    match shown.bank.get(bank) {
        Some(told) => {
            assert_eq!(rt;
                (told.state, told.verdict, told.version, told.image),
                wanted
            );
            let mut accepted = [0; 16];
            accepted[..3].copy_from_slice(&bits);
            assert_eq!(rt; told.accepted, accepted);
        }
        None => assert!(rt; false, "a bank"),
    }
}

/// The type of an image in the layout.
fn type_of(rt: &impl Abort, board: &Board, image: usize) -> [u8; 16] {
    let none = Slot {
        guid: [0; 16],
        offset: 0,
        size: 0,
    };
    let mut told = Slots {
        banks: 0,
        images: 0,
        slots: [none; 16],
    };
    assert_eq!(rt; fwu_slots(board.flash.as_slice(), BLOCKS, 0, &mut told), 0);
    match told.slots.get(image) {
        Some(slot) => slot.guid,
        None => [0; 16],
    }
}

/// A boot that starts this bank, of this version, with these trials, and as a fallback or not.
fn starts(rt: &impl Abort, alloc: Global, board: &mut Board, wanted: (u32, u32, u32, u32)) {
    assert_eq!(rt; boot(rt, alloc, board), 0);
    let told = &board.report;
    assert_eq!(rt;
        (told.bank, told.version, told.trials, told.fallback),
        wanted
    );
    assert_eq!(rt; (told.counter, told.images), (1, 3));
    assert_eq!(rt; told.lengths.get(1).copied(), Some(3));
}

#[test]
fn three_trials_and_a_fallback(rt: HostRuntime) -> Result<(), Fail> {
    let alloc = rt.alloc();
    let Ok(flash) = on_trial(alloc) else {
        return Err(Fail::from("a flash with bank 1 on trial"));
    };
    let mut board = board_of(alloc, flash)?;
    starts(&rt, alloc, &mut board, (1, 2, 1, 0));
    starts(&rt, alloc, &mut board, (1, 2, 2, 0));
    starts(&rt, alloc, &mut board, (1, 2, 3, 0));
    starts(&rt, alloc, &mut board, (0, 1, 3, 1));
    starts(&rt, alloc, &mut board, (0, 1, 3, 1));
    Ok(())
}

#[test]
fn each_image_of_a_trial_is_accepted(rt: HostRuntime) -> Result<(), Fail> {
    let alloc = rt.alloc();
    let Ok(flash) = on_trial(alloc) else {
        return Err(Fail::from("a flash with bank 1 on trial"));
    };
    let mut board = board_of(alloc, flash)?;
    let manifest = type_of(&rt, &board, 0);
    assert_eq!(rt; accept(&rt, alloc, &mut board, 1, &manifest), 21);
    starts(&rt, alloc, &mut board, (1, 2, 1, 0));
    assert_eq!(rt; accept(&rt, alloc, &mut board, 0, &manifest), 16);
    assert_eq!(rt; accept(&rt, alloc, &mut board, 2, &manifest), 21);
    assert_eq!(rt; accept(&rt, alloc, &mut board, 1, &[7; 16]), 20);
    for image in 0..3 {
        let guid = type_of(&rt, &board, image);
        assert_eq!(rt; accept(&rt, alloc, &mut board, 1, &guid), 0);
    }
    assert_eq!(rt; accept(&rt, alloc, &mut board, 1, &manifest), 0);
    assert_eq!(rt; board.report.steps, 0);
    assert_eq!(rt; boot(&rt, alloc, &mut board), 0);
    let told = &board.report;
    assert_eq!(rt;
        (told.bank, told.version, told.trials, told.counter),
        (1, 2, 0, 2)
    );
    Ok(())
}

#[test]
fn a_trial_goes_back(rt: HostRuntime) -> Result<(), Fail> {
    let alloc = rt.alloc();
    let Ok(flash) = on_trial(alloc) else {
        return Err(Fail::from("a flash with bank 1 on trial"));
    };
    let mut board = board_of(alloc, flash)?;
    starts(&rt, alloc, &mut board, (1, 2, 1, 0));
    assert_eq!(rt; previous(&rt, alloc, &mut board, 1), 0);
    assert_eq!(rt; previous(&rt, alloc, &mut board, 1), 21);
    starts(&rt, alloc, &mut board, (0, 1, 0, 0));
    assert_eq!(rt; previous(&rt, alloc, &mut board, 0), 16);
    Ok(())
}

#[test]
fn a_flash_on_trial_is_shown(rt: HostRuntime) -> Result<(), Fail> {
    let alloc = rt.alloc();
    let Ok(flash) = on_trial(alloc) else {
        return Err(Fail::from("a flash with bank 1 on trial"));
    };
    let mut board = board_of(alloc, flash)?;
    starts(&rt, alloc, &mut board, (1, 2, 1, 0));
    let mut shown = shown_before();
    assert_eq!(rt; fwu_show(alloc, board.flash.as_slice(), &mut shown), 0);
    assert_eq!(rt; (shown.form, shown.active, shown.previous), (2, 1, 0));
    assert_eq!(rt;
        (shown.trials, shown.counter, shown.layout_fault),
        (1, 1, 9)
    );
    assert_eq!(rt; (shown.banks, shown.images), (2, 3));
    shows(&rt, &shown, 0, (2, 0, 1, 0), [1, 1, 1]);
    shows(&rt, &shown, 1, (1, 0, 2, 0), [0, 0, 0]);
    assert_eq!(rt; shown.bank.get(2).map(|told| told.state), Some(9));
    // another byte in `abc` of bank 1, and a second mark of the counter
    let (Ok(()), Ok(())) = (
        put(alloc, &mut board.flash, 16 * 4096, "00"),
        put(alloc, &mut board.flash, 4 * 4096 + 16, "00"),
    ) else {
        return Err(Fail::from("two bytes"));
    };
    assert_eq!(rt; fwu_show(alloc, board.flash.as_slice(), &mut shown), 0);
    assert_eq!(rt; shown.counter, 2);
    shows(&rt, &shown, 0, (2, 4, 1, 0), [1, 1, 1]);
    shows(&rt, &shown, 1, (1, 3, 0, 1), [0, 0, 0]);
    Ok(())
}

#[test]
fn what_is_no_flash_is_not_shown(rt: HostRuntime) -> Result<(), Fail> {
    let alloc = rt.alloc();
    let (Ok(mut flash), Ok(short)) = (blank(alloc, BLOCKS), blank(alloc, 7)) else {
        return Err(Fail::from("blank blocks"));
    };
    let mut shown = shown_before();
    // no magic number
    assert_eq!(rt; fwu_show(alloc, flash.as_slice(), &mut shown), 1);
    assert_eq!(rt; (shown.layout_fault, shown.form, shown.banks), (2, 9, 9));
    // a layout, and no metadata
    let Ok(()) = put(alloc, &mut flash, 0, LAYOUT) else {
        return Err(Fail::from("a layout"));
    };
    assert_eq!(rt; fwu_show(alloc, flash.as_slice(), &mut shown), 2);
    // too few blocks
    assert_eq!(rt; fwu_show(alloc, short.as_slice(), &mut shown), 6);
    assert_eq!(rt; (shown.layout_fault, shown.form, shown.banks), (2, 9, 9));
    Ok(())
}

#[test]
fn an_update_is_tried(rt: HostRuntime) -> Result<(), Fail> {
    let alloc = rt.alloc();
    let (Ok(flash), Ok(file)) = (two_banks(alloc), package(alloc)) else {
        return Err(Fail::from("a flash with bank 0 accepted, and a package"));
    };
    let mut board = board_of(alloc, flash)?;
    assert_eq!(rt; update(&rt, alloc, &mut board, &[], 1), 18);
    assert_eq!(rt; update(&rt, alloc, &mut board, file.as_slice(), 1), 0);
    assert_eq!(rt; (board.report.bank, board.report.version), (0, 1));
    // the manifest, of 160 bytes, is copied from where it stands in the package
    let is_copied = |step: &Step| step.kind == COPY && (step.length, step.from) == (160, 176);
    assert!(rt;
        board.steps.as_slice().iter().any(is_copied),
        "a copy of the manifest"
    );
    starts(&rt, alloc, &mut board, (1, 2, 1, 0));
    assert_eq!(rt; update(&rt, alloc, &mut board, file.as_slice(), 1), 16);
    assert_eq!(rt; board.report.steps, 0);
    Ok(())
}
