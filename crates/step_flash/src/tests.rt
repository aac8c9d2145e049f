//! The steps of blocks that are written over, in a flash of eight blocks of 0x5A.
ghost use Rattle.std.specs.Prelude.{◌≤◌, length, IfOk, ◌≡◌, IsTrue};

use crate::{BARRIER, COPY, ERASE, PROGRAM, Step, StepFlash, StepParts};
use flash_core::{Flash, FlashStop, read_block, replace};
use std::alloc::{AllocError, Global};
use std::fmt::Debug;
use std::process::Abort;
use std::test::Fail;

fn same<T: PartialEq + Debug + Drop>(rt: &impl Abort, left: T, right: T) {
    assert_eq!(rt; left, right);
}

// So many bytes. A literal length would be computed byte by byte in each goal.
fn filled(alloc: Global, byte: u8, size: usize) -> Result<Vec<u8>, AllocError>
    ensures { IfOk result (λ bytes. length bytes.items ≡ size) }
{
    Vec::from_elem(alloc, byte, size)
}

// Blocks 5 and 6 are written over.
fn write_two<D: Flash>(flash: &mut D) -> Result<(), FlashStop>
    requires on { IsTrue (D.on flash.old) }
    requires size { 8 ≤ D.blocks flash.old }
{
    replace(flash, 5, &[0xA5; 16])?;
    replace(flash, 6, &[0xA6; 32])
}

fn is_step(rt: &impl Abort, parts: &StepParts, i: usize, wanted: (u32, u32, u32, u32)) {
    let told = parts
        .steps
        .get(i)
        .map(|s: &Step| (s.kind, s.at, s.length, s.from));
    same(rt, told, Some(wanted));
}

// Block 6 as it is after the steps.
fn reads_six(rt: &impl Abort, alloc: Global, flash: &mut StepFlash<'_>) -> Result<(), AllocError> {
    let mut block = filled(alloc, 0, 4096)?;
    assert!(rt;
        flash.is_on() && flash.blocks() == 8 && block.len() == 4096,
        "it is on"
    );
    same(rt, read_block(flash, 6, block.as_mut_slice()), Ok(()));
    same(rt, block.get(31).copied(), Some(0xA6));
    same(rt, block.get(32).copied(), Some(0xFF));
    Ok(())
}

#[test]
fn two_blocks_are_written_over(rt: HostRuntime) -> Result<(), Fail> {
    let image = filled(rt.alloc(), 0x5A, 32768)?;
    let Ok(mut flash) = StepFlash::new(rt.alloc(), &image, 6) else {
        return Err(Fail::from("a flash of eight blocks"));
    };
    assert!(&rt; flash.is_on() && flash.blocks() == 8, "it is on");
    same(&rt, write_two(&mut flash), Ok(()));
    reads_six(&rt, rt.alloc(), &mut flash)?;
    let parts = flash.into_parts();
    is_step(&rt, &parts, 0, (ERASE, 20480, 4096, 0));
    is_step(&rt, &parts, 1, (PROGRAM, 20480, 16, 0));
    is_step(&rt, &parts, 2, (BARRIER, 0, 0, 0));
    is_step(&rt, &parts, 3, (ERASE, 24576, 4096, 0));
    is_step(&rt, &parts, 4, (PROGRAM, 24576, 32, 16));
    is_step(&rt, &parts, 5, (BARRIER, 0, 0, 0));
    same(&rt, (parts.steps.len(), parts.room.len()), (6, 48));
    Ok(())
}

#[test]
fn a_fifth_step_fails(rt: HostRuntime) -> Result<(), Fail> {
    let image = filled(rt.alloc(), 0x5A, 32768)?;
    let Ok(mut flash) = StepFlash::new(rt.alloc(), &image, 4) else {
        return Err(Fail::from("a flash of eight blocks"));
    };
    assert!(&rt; flash.is_on() && flash.blocks() == 8, "it is on");
    same(&rt, write_two(&mut flash), Err(FlashStop::Failed));
    same(&rt, (flash.is_on(), flash.is_live()), (false, true));
    let parts = flash.into_parts();
    is_step(&rt, &parts, 3, (ERASE, 24576, 4096, 0));
    same(&rt, (parts.steps.len(), parts.room.len()), (4, 16));
    Ok(())
}

// Bytes of two kinds, with those of block 5 from 16 on and those of block 6 from 40 on.
fn packed(alloc: Global) -> Result<Vec<u8>, AllocError> {
    let mut file = filled(alloc, 0x11, 16)?;
    file.extend_from_slice(&[0xA5; 16])?;
    file.extend_from_slice(&[0x22; 8])?;
    file.extend_from_slice(&[0xA6; 32])?;
    Ok(file)
}

#[test]
fn what_stands_in_the_package_is_copied(rt: HostRuntime) -> Result<(), Fail> {
    let image = filled(rt.alloc(), 0x5A, 32768)?;
    let file = packed(rt.alloc())?;
    let Ok(mut flash) = StepFlash::with_package(rt.alloc(), &image, 6, &file, &[16, 40]) else {
        return Err(Fail::from("a flash of eight blocks"));
    };
    assert!(&rt; flash.is_on() && flash.blocks() == 8, "it is on");
    same(&rt, write_two(&mut flash), Ok(()));
    reads_six(&rt, rt.alloc(), &mut flash)?;
    let parts = flash.into_parts();
    is_step(&rt, &parts, 1, (COPY, 20480, 16, 16));
    is_step(&rt, &parts, 2, (BARRIER, 0, 0, 0));
    is_step(&rt, &parts, 4, (COPY, 24576, 32, 40));
    same(&rt, (parts.steps.len(), parts.room.len()), (6, 0));
    Ok(())
}

#[test]
fn what_stands_at_no_place_is_programmed(rt: HostRuntime) -> Result<(), Fail> {
    let image = filled(rt.alloc(), 0x5A, 32768)?;
    let file = packed(rt.alloc())?;
    let Ok(mut flash) = StepFlash::with_package(rt.alloc(), &image, 6, &file, &[16]) else {
        return Err(Fail::from("a flash of eight blocks"));
    };
    assert!(&rt; flash.is_on() && flash.blocks() == 8, "it is on");
    same(&rt, write_two(&mut flash), Ok(()));
    reads_six(&rt, rt.alloc(), &mut flash)?;
    let parts = flash.into_parts();
    is_step(&rt, &parts, 1, (COPY, 20480, 16, 16));
    is_step(&rt, &parts, 4, (PROGRAM, 24576, 32, 0));
    same(&rt, (parts.steps.len(), parts.room.len()), (6, 32));
    Ok(())
}
