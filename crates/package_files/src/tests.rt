//! A file of eight bytes, read through the trait.

use crate::PackageFiles;
use host_io::{Failed, Files, JoinStop, ReadStop, WriteStop, read_whole};
use std::alloc::Global;
use std::fmt::Debug;
use std::process::Abort;
use std::test::Fail;

static BYTES: [u8; 8] = [1, 2, 3, 5, 8, 13, 21, 34];

fn same<T: PartialEq + Debug + Drop>(rt: &impl Abort, left: T, right: T) {
    assert_eq!(rt; left, right);
}

fn size_of<H: Files>(files: &mut H, name: &str) -> Result<Option<u64>, Failed> {
    files.size(name)
}

fn write<H: Files>(files: &mut H, name: &str) -> Result<(), WriteStop> {
    files.write_whole(name, &[55])
}

fn join<H: Files>(alloc: Global, files: &mut H, name: &str) -> Result<(), JoinStop> {
    files.write_joined(alloc, name, &[55], &[])
}

#[test]
fn one_file_is_read(rt: HostRuntime) -> Result<(), Fail> {
    let mut files = PackageFiles::new("p.fip", &BYTES);
    same(&rt, size_of(&mut files, "p.fip"), Ok(Some(8)));
    same(&rt, size_of(&mut files, "p"), Ok(None));
    let Ok(bytes) = read_whole(rt.alloc(), &mut files, "p.fip") else {
        return Err(Fail::from("the file's bytes"));
    };
    assert!(&rt; bytes.as_slice() == BYTES.as_slice(), "the file's bytes");
    assert!(&rt;
        matches!(
            read_whole(rt.alloc(), &mut files, "q.fip"),
            Err(ReadStop::Failed)
        ),
        "no other file"
    );
    Ok(())
}

#[test]
fn a_range_is_read(rt: HostRuntime) -> Result<(), Fail> {
    let mut files = PackageFiles::new("p.fip", &BYTES);
    let mut out = [0; 3];
    same(&rt, files.read_at("p.fip", 2, &mut out), Ok(()));
    assert!(&rt; out == [3, 5, 8], "the third byte and two more");
    Ok(())
}

#[test]
fn nothing_is_written(rt: HostRuntime) -> Result<(), Fail> {
    let mut files = PackageFiles::new("p.fip", &BYTES);
    same(&rt, write(&mut files, "p.fip"), Err(WriteStop::NoMemory));
    same(
        &rt,
        join(rt.alloc(), &mut files, "q.fip"),
        Err(JoinStop::NoMemory),
    );
    same(&rt, size_of(&mut files, "q.fip"), Ok(None));
    Ok(())
}
