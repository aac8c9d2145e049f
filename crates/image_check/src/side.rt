//! The images of a bank, hashed four side by side: a lane whose image is done takes the next one.
ghost use Rattle.std.specs.Prelude.{◌≡◌, ℕ, ◌+◌, ◌*◌, ◌%◌, ◌<◌, ◌≤◌, ◌≢◌, ◌^◌, length, Some, None, IsTrue, IfOk, IfSome, OnOk, slice_range};
ghost use Rattle.std.specs.Option.{ForSome};
ghost use Rattle.base_core.specs.Block.{block_bytes};
ghost use Rattle.flash_core.specs.Calls.{Reads};
ghost use Rattle.image_check.specs.Taken.{AreReadable, HaveGoneOn, HaveStepped, IsLowestBad, IsPieceOfJobs, IsUnderWay, gone_on, job_at, lanes_bytes, left};

use crate::image::{Images, Job, is_good, new_job};
use base_core::BLOCK_BYTES;
use flash_core::{Flash, FlashStop};
use sha256_lanes::Lanes;

/// The fewest bytes of a buffer in which images are hashed side by side: a block of 4096 bytes for each of four lanes.
pub const LANES_BYTES: usize = 4 * BLOCK_BYTES as usize;

/// Four lanes, each with the image that it works on, if it has one.
#[derive(Drop)]
struct Work<'a> {
    images: Images<'a>,
    lanes: Lanes,
    jobs: [Option<Job>; 4],
    // the lowest row whose image no lane has had yet, and the block at which that image begins
    next: u32,
    block: u32,
    // the lowest row whose image was found bad, or else how many rows there are
    bad: u32,
}

/// How many bytes a lane has left to take in. A lane without an image is never the one with the fewest.
fn left(job: Option<Job>) -> u32
    ensures { result ≡ left job }
{
    match job {
        Some(job) => job.size.saturating_sub(job.done),
        None => u32::MAX,
    }
}

/// The lane with the fewest bytes left.
fn shortest(jobs: &[Option<Job>; 4]) -> usize
    ensures lane { result < 4 }
    ensures least { (j : ℕ) → j < 4 → left (job_at jobs.now result) ≤ left (job_at jobs.now j) }
{
    let mut best = 0;
    for j in 1..4 {
        if left(jobs[j]) < left(jobs[best]) {
            best = j;
        }
    }
    best
}

/// How many of the bytes that are left of an image are taken in side by side at once: whole blocks of the hash, and at most 4096
/// bytes. At least one byte is left.
fn piece_size(job: Option<Job>) -> usize
    ensures whole { result % 64 ≡ 0 }
    ensures few { result ≤ block_bytes }
    ensures within { IfSome job (λ job. 0 < result → job.done + result < job.size) }
    ensures none { job ≡ None → result ≡ 0 }
{
    if job.is_none() {
        return 0;
    }
    let most = left(job).saturating_sub(1);
    ((most - most % 64) as usize).min(4096)
}

/// The same image, of which so many bytes more are taken in.
fn gone_on(job: Option<Job>, count: u32) -> Option<Job>
    requires { ForSome job (λ job. job.done + count < 2 ^ 32) }
    ensures { result ≡ gone_on count job }
{
    match job {
        Some(job) => Some(Job {
            row: job.row,
            at: job.at,
            size: job.size,
            done: job.done + count,
        }),
        None => None,
    }
}

/// Each lane's image, of which so many bytes more are taken in.
fn all_gone_on(jobs: &[Option<Job>; 4], count: u32) -> [Option<Job>; 4]
    requires { (j : ℕ) → j < 4 → ForSome (job_at jobs.now j) (λ job. job.done + count < 2 ^ 32) }
    ensures { HaveGoneOn count jobs.now result }
{
    [
        gone_on(jobs[0], count),
        gone_on(jobs[1], count),
        gone_on(jobs[2], count),
        gone_on(jobs[3], count),
    ]
}

/// Reads what a lane takes in next. A lane without an image reads nothing.
fn read_for<D: Flash>(flash: &mut D, job: Option<Job>, out: &mut [u8]) -> Result<(), FlashStop>
    requires on { IsTrue (D.on flash.old) }
    requires inside { ForSome job (λ job. job.at + job.done + length out.old ≤ block_bytes * D.blocks flash.old) }
    ensures bytes { OnOk result (ForSome job (λ job. IsTrue D.tells →
        out.new ≡ slice_range (D.told flash.old).now (job.at + job.done) (job.at + job.done + length out.old))) }
    ensures reads { Reads D.Flash result flash.old flash.new }
{
    match job {
        Some(job) => flash.read(job.at + job.done, out),
        None => Ok(()),
    }
}

/// Reads so many bytes more of each lane's image, and hashes them side by side. Each lane has a quarter of the buffer.
fn take_piece<D: Flash>(
    flash: &mut D,
    work: &mut Work<'_>,
    size: usize,
    buf: &mut [u8],
) -> Result<(), FlashStop>
    requires room { length buf.old ≡ 4 * size }
    requires piece { IsPieceOfJobs work.old.jobs size }
    requires under_way { IsUnderWay D.Flash flash.old work.old }
    ensures step { OnOk result (HaveStepped D.Flash flash.new work.old work.new) }
    ensures jobs { OnOk result (HaveGoneOn size work.old.jobs work.new.jobs) }
    ensures reads { Reads D.Flash result flash.old flash.new }
{
    let (first, others) = buf.split_at_mut(size);
    let (second, last_two) = others.split_at_mut(size);
    let (third, fourth) = last_two.split_at_mut(size);
    read_for(flash, work.jobs[0], first)?;
    read_for(flash, work.jobs[1], second)?;
    read_for(flash, work.jobs[2], third)?;
    read_for(flash, work.jobs[3], fourth)?;
    work.lanes.absorb(&*first, &*second, &*third, &*fourth);
    let jobs = all_gone_on(&work.jobs, size as u32);
    work.jobs = jobs;
    Ok(())
}

/// Finishes the image of a lane, if it has one, and the lane is free. An image above one that was found bad is read no further: no
/// clause says so.
fn settle<D: Flash>(
    flash: &mut D,
    work: &mut Work<'_>,
    j: usize,
    buf: &mut [u8],
) -> Result<(), FlashStop>
    requires room { block_bytes ≤ length buf.old }
    requires lane { j < 4 }
    requires under_way { IsUnderWay D.Flash flash.old work.old }
    ensures step { OnOk result (HaveStepped D.Flash flash.new work.old work.new) }
    ensures free { OnOk result (job_at work.new.jobs j ≡ None) }
    ensures reads { Reads D.Flash result flash.old flash.new }
{
    if let Some(job) = work.jobs[j] {
        let message = work.lanes.message(j);
        work.jobs[j] = None;
        if job.row < work.bad && !is_good(flash, &work.images, &message, job, buf)? {
            work.bad = job.row;
        }
    }
    Ok(())
}

/// All lanes go on until the one with the fewest bytes left is at the last block of its image, and that one is finished.
/// The lane is free then.
fn finish_shortest<D: Flash>(
    flash: &mut D,
    work: &mut Work<'_>,
    buf: &mut [u8],
) -> Result<usize, FlashStop>
    requires room { lanes_bytes ≤ length buf.old }
    requires under_way { IsUnderWay D.Flash flash.old work.old }
    ensures step { OnOk result (HaveStepped D.Flash flash.new work.old work.new) }
    ensures free { IfOk result (λ j. (j < 4) × (job_at work.new.jobs j ≡ None)) }
    ensures reads { Reads D.Flash result flash.old flash.new }
{
    let mut j = shortest(&work.jobs);
    let mut size = piece_size(work.jobs[j]);
    while size > 0 {
        let pieces = &mut buf[..4 * size];
        take_piece(flash, work, size, pieces)?;
        j = shortest(&work.jobs);
        size = piece_size(work.jobs[j]);
    }
    settle(flash, work, j, buf)?;
    Ok(j)
}

/// A lane without an image, if there is one.
fn idle(jobs: &[Option<Job>; 4]) -> Option<usize>
    ensures { IfSome result (λ j. (j < 4) × (job_at jobs.now j ≡ None)) }
{
    for j in 0..4 {
        if jobs[j].is_none() {
            return Some(j);
        }
    }
    None
}

/// A lane without an image: where each has one, the first that is done with it.
fn free_lane<D: Flash>(
    flash: &mut D,
    work: &mut Work<'_>,
    buf: &mut [u8],
) -> Result<usize, FlashStop>
    requires room { lanes_bytes ≤ length buf.old }
    requires under_way { IsUnderWay D.Flash flash.old work.old }
    ensures step { OnOk result (HaveStepped D.Flash flash.new work.old work.new) }
    ensures free { IfOk result (λ j. (j < 4) × (job_at work.new.jobs j ≡ None)) }
    ensures reads { Reads D.Flash result flash.old flash.new }
{
    match idle(&work.jobs) {
        Some(j) => Ok(j),
        None => finish_shortest(flash, work, buf),
    }
}

/// A lane takes this image.
fn take(jobs: &mut [Option<Job>; 4], j: usize, job: Job)
    requires { j < 4 }
    ensures taken { job_at jobs.new j ≡ Some job }
    ensures others { (i : ℕ) → i ≢ j → job_at jobs.new i ≡ job_at jobs.old i }
{
    jobs[j] = Some(job);
}

/// Hashes the images of a bank until none is left that no lane has had, but for those above one that was found bad.
fn begin_all<'a, D: Flash>(
    flash: &mut D,
    images: &Images<'a>,
    buf: &mut [u8],
) -> Result<Work<'a>, FlashStop>
    requires room { lanes_bytes ≤ length buf.old }
    requires readable { AreReadable D.Flash flash.old images.now }
    ensures under_way { IfOk result (IsUnderWay D.Flash flash.new) }
    ensures all { IfOk result (λ work. (work.images ≡ images.now) × (work.bad ≤ work.next)) }
    ensures reads { Reads D.Flash result flash.old flash.new }
{
    let images = *images;
    let block = images.first + images.rows[0].slots;
    let bad = (images.rows.len() - 1) as u32;
    let mut work = Work {
        images,
        lanes: Lanes::new(),
        jobs: [None; 4],
        next: 0,
        block,
        bad,
    };
    // a free lane takes the next image
    while work.next < work.bad {
        let j = free_lane(flash, &mut work, buf)?;
        let job = new_job(&images, work.next, work.block);
        work.lanes.restart(j);
        take(&mut work.jobs, j, job);
        work.next += 1;
        work.block += images.rows[work.next as usize].slots;
    }
    Ok(work)
}

/// The lowest image after the manifest that has not the digest of its row.
/// Four lanes are quicker than one message after the other while three have an image. Where more images were begun, the last two
/// are finished one after the other; of three they go on side by side. All are read into the buffer: a piece for each lane beside
/// one another, or one of an image that goes on alone.
pub(crate) fn first_bad_in_lanes<D: Flash>(
    flash: &mut D,
    images: &Images<'_>,
    buf: &mut [u8],
) -> Result<Option<u32>, FlashStop>
    requires room { lanes_bytes ≤ length buf.old }
    requires readable { AreReadable D.Flash flash.old images.now }
    ensures bad { IfOk result (IsLowestBad D.Flash flash.old images.now) }
    ensures reads { Reads D.Flash result flash.old flash.new }
{
    let mut work = begin_all(flash, images, buf)?;
    finish_shortest(flash, &mut work, buf)?;
    finish_shortest(flash, &mut work, buf)?;
    for j in 0..4 {
        settle(flash, &mut work, j, buf)?;
    }
    if (work.bad as usize) < images.rows.len() - 1 {
        Ok(Some(work.bad + 1))
    } else {
        Ok(None)
    }
}
