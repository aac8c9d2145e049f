//! Whether what is staged may be installed.
ghost use Rattle.std.specs.Prelude.{◌≡◌, ◌+◌, ◌-◌, ◌*◌, ◌≤◌, ◌<◌, ◌&&◌, ◌==◌, ℕ, List, length, take, drop, nat_le, IsTrue};
ghost use Rattle.std.specs.List.{list_all};
ghost use Rattle.base_core.specs.Bytes.{num_at, same_bytes};
ghost use Rattle.fwu_formats.specs.Manifest as model;
ghost use Rattle.agent_kept.specs.Kept.{kept, part_at};
ghost use Rattle.agent_kept.specs.Judged.{is_installable, is_part_committed, is_part_of, parts_of, manifest_kept, are_rows_kept};

use agent_kept::{Part, Session};
use manifest_core::{Row, row_at, test};
use verify_core::Verifier;

fn is_same(bytes: &[u8], other: &[u8]) -> bool
    ensures { result ≡ same_bytes bytes.now other.now }
{
    bytes == other
}

/// Whether an image is committed with this length and digest.
fn is_image(part: &Part, row: &Row) -> bool
    ensures { result ≡ is_part_of (record {
      guid = row.now.guid;
      size = row.now.size;
      version = row.now.version;
      digest = row.now.digest;
    }) part.now }
{
    match part {
        Part::Committed { size, digest, .. } => {
            *size == row.size && is_same(digest, &row.digest)
        }
        Part::Nothing | Part::Open { .. } => false,
    }
}

/// Whether each image behind the manifest is what its row says.
fn are_images(session: &Session, manifest: &[u8]) -> bool
    requires some { 1 ≤ length (kept session.now).rows }
    requires size { length manifest.now ≡ model.manifest_size (length (kept session.now).rows - 1) }
    requires count { num_at 4 manifest.now 12 ≡ length (kept session.now).rows - 1 }
    ensures { result ≡ are_rows_kept (kept session.now) manifest.now }
{
    for image in 1..session.rows().len() {
        if !is_image(session.part(image), &row_at(manifest, image as u32 - 1)) {
            return false;
        }
    }
    true
}

/// Whether every image is committed.
fn all_committed(session: &Session) -> bool
    ensures { result ≡ list_all is_part_committed (parts_of (kept session.now)) }
{
    for image in 0..session.rows().len() {
        if !session.part(image).is_committed() {
            return false;
        }
    }
    true
}

fn all_three(first: bool, second: bool, third: bool) -> bool
    ensures { result ≡ (first && (second && third)) }
{
    first && second && third
}

/// Whether the committed images are a complete package whose version is not below the counter and
/// whose manifest the verifier accepts.
pub fn may_install<V: Verifier>(session: &Session, counter: u32, verifier: &V) -> bool
    requires some { 1 ≤ length (kept session.now).rows }
    ensures { result ≡ is_installable (V.passes verifier.now) counter (kept session.now) }
{
    let size = 48 + 56 * (session.rows().len() - 1);
    if !all_committed(session) {
        return false;
    }
    if session.size(0) as usize != size {
        return false;
    }
    let manifest = &session.front()[..size];
    match test(manifest, session.rows()) {
        Ok(version) => {
            let same = are_images(session, manifest);
            let passes = verifier.accepts(manifest);
            all_three(same, counter <= version, passes)
        }
        Err(_) => false,
    }
}
