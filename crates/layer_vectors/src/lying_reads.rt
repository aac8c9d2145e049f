//! A flash over a file of which some reads give other bytes than it has. Whatever they give, a boot leaves all but blocks 1 to 3,
//! 5 and 6 as they were.

use crate::boots_in_buffers::five_images;
use crate::fixtures::{holds, power_on, same};
use early_boot::{BootEnd, boot};
use flash_core::Flash;
use flash_devices::FileFlash;
use gen_core::Lcg;
use std::alloc::Global;
use std::fs::{Metadata, OpenFile};
use std::io::{self, Cursor, ErrorKind, Read, Seek, SeekFrom, Write};
use std::process::Abort;
use verify_core::AnyManifest;

// A file in memory that counts its writes. One read in so many gives other bytes, by draws.
#[derive(Drop)]
struct LyingFile {
    inner: Cursor<Vec<u8>>,
    register: Lcg,
    one_in: u32,
    writes: u32,
}

impl Read for LyingFile {
    // A lie is an erased range, a range of zeros, or one changed byte.
    fn read(&mut self, out: &mut [u8]) -> io::Result<usize> {
        let n = self.inner.read(out)?;
        if self.register.draw(self.one_in.clamp(1, 32_768)) > 0 {
            return Ok(n);
        }
        match self.register.draw(3) {
            0 => out.fill(0xFF),
            1 => out.fill(0),
            _ => change_one(out, self.register.draw(4096)),
        }
        Ok(n)
    }
}

// Changes the byte at this place, where there is one.
fn change_one(bytes: &mut [u8], at: u32) {
    if let Some(byte) = bytes.get_mut(at as usize) {
        *byte ^= 0x40;
    }
}

impl Write for LyingFile {
    fn write(&mut self, bytes: &[u8]) -> io::Result<usize> {
        self.writes = self.writes.saturating_add(1);
        self.inner.write(bytes)
    }

    fn flush(&mut self) -> io::Result<()> {
        Write::flush(&mut self.inner)
    }
}

impl Seek for LyingFile {
    fn seek(&mut self, to: SeekFrom) -> io::Result<u64> {
        self.inner.seek(to)
    }
}

// What no flash asks of its file.
fn unasked<T>() -> io::Result<T> {
    Err(io::Error::from(ErrorKind::Unsupported))
}

impl OpenFile for LyingFile {
    fn metadata(&self) -> io::Result<Metadata> {
        unasked()
    }

    fn set_len(&self, _size: u64) -> io::Result<()> {
        unasked()
    }

    fn sync_all(&self) -> io::Result<()> {
        unasked()
    }

    fn sync_data(&self) -> io::Result<()> {
        Ok(())
    }
}

// The device that a boot gives back.
fn device_of<D: Flash>(end: BootEnd<D>) -> D {
    match end {
        BootEnd::Booted(booted, _) => booted.into_parts().0,
        BootEnd::BadLayout(flash, _) => flash,
        BootEnd::NoMetadata(flash) => flash,
        BootEnd::NoBank { flash, .. } => flash,
        BootEnd::Lost(flash, _) => flash,
        BootEnd::Fault(flash, _) => flash,
    }
}

// What a boot over lies by these draws leaves of a flash of five images, as its file.
fn booted_over_lies(rt: &impl Abort, alloc: Global, seed: u32, one_in: u32) -> LyingFile {
    let file = LyingFile {
        inner: Cursor::new(five_images(alloc).expect(rt, "memory")),
        register: Lcg::new(seed),
        one_in,
        writes: 0,
    };
    let mut flash = FileFlash::open(file).ok().expect(rt, "a flash");
    power_on(rt, &mut flash);
    holds(rt, flash.is_on(), "power is on");
    device_of(boot(flash, &AnyManifest)).into_file()
}

// Whether a boot over these lies wrote anything, where it left all but blocks 1 to 3, 5 and 6 as they were.
fn writes_in_its_blocks(rt: &impl Abort, alloc: Global, seed: u32, one_in: u32) -> bool {
    let before = five_images(alloc).expect(rt, "memory");
    let file = booted_over_lies(rt, alloc, seed, one_in);
    let wrote = file.writes > 0;
    let after = file.inner.into_inner();
    same(rt, (seed, after.get(..4096)), (seed, before.get(..4096)));
    same(
        rt,
        (seed, after.get(16_384..20_480)),
        (seed, before.get(16_384..20_480)),
    );
    same(
        rt,
        (seed, after.get(28_672..)),
        (seed, before.get(28_672..)),
    );
    wrote
}

#[test]
fn a_boot_over_lies_writes_its_own_blocks_alone(rt: HostRuntime) {
    let alloc = rt.alloc();
    let mut wrote = 0u32;
    for seed in 1..80 {
        for one_in in [3, 6] {
            if writes_in_its_blocks(&rt, alloc, seed, one_in) {
                wrote = wrote.saturating_add(1);
            }
        }
    }
    holds(&rt, wrote > 4, "lies that make a boot write");
}
