//! Manifests as values, which are read, made and written.
ghost use Rattle.std.specs.Prelude.{◌≡◌, ◌↔◌, ◌+◌, ◌-◌, ◌*◌, ◌≤◌, length, map, flat_map, IsTrue, IsOk, IfOk, IfErr, OnOk, Ok, List, ℕ, ◌++◌};
ghost use Rattle.std.specs.List.{list_all};
ghost use Rattle.base_core.specs.Bytes.{le, listed};
ghost use Rattle.base_core.specs.Limits.{fewest_images, most_images};
ghost use Rattle.base_core.specs.declared.rows.ImageRow.{ImageRow as SpecRow};
ghost use Rattle.fwu_formats.specs.Manifest as model;
ghost use Rattle.manifest_core.specs.Shown.{row, IsStopOf, Suits};

use super::reading::{MAGIC, VERSION_LIMIT, test};
use super::rows::{Row, row_at};
use super::sizes::{MOST_ROWS, manifest_size};
use base_core::{ImageRow, NoMemory};
use fwu_formats::ManifestFault;
use sha2::{Digest, Sha256};
use std::alloc::{AllocError, Global};
use std::marker::Model;
use thiserror::Error;

/// Why there is no manifest.
#[derive(Clone, Copy, Debug, PartialEq, Eq, Error)]
pub enum ManifestStop {
    #[error("{0}")]
    Fault(ManifestFault),
    #[error("no memory")]
    NoMemory,
}

/// A manifest: its security version, and 1 to 15 rows, one for each image but the first.
#[derive(Drop)]
pub struct Manifest {
    security: u32,
    rows: Vec<Row>,
}

impl Model for Manifest {
    ghost use Rattle.std.specs.Prelude.{◌≤◌, length, map};
    ghost use Rattle.fwu_formats.specs.Manifest as model;
    ghost use Rattle.manifest_core.specs.Shown.{row};

    ghost Value = { model.Manifest };

    ghost view = { λ m. record { security = m.security; rows = map row m.rows.items } };

    ghost invariant = { λ m. (1 ≤ length m.rows.items) × (length m.rows.items ≤ model.most_rows) };
}

/// The first rows of a manifest.
fn read_rows(alloc: Global, bytes: &[u8], count: usize) -> Result<Vec<Row>, AllocError>
    requires few { count ≤ most_images }
    requires room { model.row_place count ≤ length bytes.now }
    ensures { IfOk result (λ rows. map row rows.items ≡ listed count (model.row_at bytes.now)) }
{
    let mut rows = Vec::new(alloc);
    for j in 0..count {
        rows.push(row_at(bytes, j as u32))?;
    }
    Ok(rows)
}

impl Manifest {
    /// The manifest at the front of the bytes, or the first fault against the images of a layout, as `test` says.
    pub fn read(alloc: Global, bytes: &[u8], rows: &[ImageRow]) -> Result<Manifest, ManifestStop>
        requires some { fewest_images ≤ length rows.now }
        requires few { length rows.now ≤ most_images }
        ensures ok { IfOk result (λ m. model.manifest_of rows.now bytes.now ≡ Ok m) }
        ensures fault { IfErr result (λ stop. IsStopOf (model.manifest_of rows.now bytes.now) stop) }
    {
        let security = match test(bytes, rows) {
            Ok(security) => security,
            Err(fault) => return Err(ManifestStop::Fault(fault)),
        };
        let size = manifest_size(rows);
        match read_rows(alloc, &bytes[..size], rows.len() - 1) {
            Ok(rows) => Ok(Manifest { security, rows }),
            Err(_) => Err(ManifestStop::NoMemory),
        }
    }

    /// A manifest of these rows. `BadCount` comes where they are not 1 to 15; no memory is taken.
    pub fn of_rows(_alloc: Global, security: u32, rows: Vec<Row>) -> Result<Manifest, ManifestStop>
        ensures ok { IfOk result (λ m. m ≡
            record { security = security; rows = map row rows.items }) }
        ensures count { IsOk result ↔ ((1 ≤ length rows.items) × (length rows.items ≤ model.most_rows)) }
        ensures fault { IfErr result (λ stop. stop ≡ ManifestStop.Fault ManifestFault.BadCount) }
    {
        if rows.len() < 1 || rows.len() > MOST_ROWS {
            return Err(ManifestStop::Fault(ManifestFault::BadCount));
        }
        Ok(Manifest { security, rows })
    }

    /// The security version.
    pub fn security(&self) -> u32
        ensures { result ≡ self.now.security }
    {
        self.security
    }

    /// The rows, of the images from the second on.
    pub fn rows(&self) -> &[Row]
        ensures rows { map row result.now ≡ self.now.rows }
        ensures some { 1 ≤ length self.now.rows }
        ensures few { length self.now.rows ≤ model.most_rows }
    {
        self.rows.as_slice()
    }

    /// The manifest's bytes.
    pub fn write(&self, alloc: Global) -> Result<Vec<u8>, NoMemory>
        ensures spelled { IfOk result (λ bytes. bytes.items ≡ model.manifest_bytes self.now) }
        // Read against images that it suits, and whatever follows, it is the same manifest.
        ensures read_again { IfOk result (λ bytes. (images : List SpecRow) (rest : List ℕ) →
            Suits images self.now → model.manifest_of images (bytes.items ++ rest) ≡ Ok self.now) }
    {
        let mut bytes = head(alloc, self.security, self.rows.len() as u32)?;
        push_rows(&mut bytes, self.rows.as_slice())?;
        let digest = Sha256::digest(bytes.as_slice());
        bytes.extend_from_slice(&digest)?;
        Ok(bytes)
    }
}

fn form_of(security: u32) -> u32
    ensures { result ≡ model.form_of security }
{
    if security <= VERSION_LIMIT { 1 } else { 2 }
}

#[tactic(auto, using(base_core::proofs::Spelled::four_spelled))]
fn push_le32(bytes: &mut Vec<u8>, value: u32) -> Result<(), AllocError>
    ensures { OnOk result (bytes.new.items ≡ bytes.old.items ++ le 4 value) }
{
    bytes.extend_from_slice(&value.to_le_bytes())
}

/// The bytes before the rows.
fn head(alloc: Global, security: u32, count: u32) -> Result<Vec<u8>, AllocError>
    ensures { IfOk result (λ bytes. bytes.items ≡
        le 4 model.manifest_magic ++ le 4 (model.form_of security) ++ le 4 security ++ le 4 count) }
{
    let mut bytes = Vec::new(alloc);
    push_le32(&mut bytes, MAGIC)?;
    push_le32(&mut bytes, form_of(security))?;
    push_le32(&mut bytes, security)?;
    push_le32(&mut bytes, count)?;
    Ok(bytes)
}

fn push_row(bytes: &mut Vec<u8>, said: &Row) -> Result<(), AllocError>
    ensures spelled { OnOk result (bytes.new.items ≡
        bytes.old.items ++ model.manifest_row_bytes (row said.now)) }
    ensures fits { OnOk result (IsTrue (model.is_manifest_row (row said.now))) }
{
    bytes.extend_from_slice(said.guid.bytes())?;
    push_le32(bytes, said.size)?;
    push_le32(bytes, said.version)?;
    bytes.extend_from_slice(&said.digest)?;
    Ok(())
}

fn push_rows(bytes: &mut Vec<u8>, rows: &[Row]) -> Result<(), AllocError>
    ensures spelled { OnOk result (bytes.new.items ≡
        bytes.old.items ++ flat_map model.manifest_row_bytes (map row rows.now)) }
    ensures fits { OnOk result (IsTrue (list_all model.is_manifest_row (map row rows.now))) }
{
    for said in rows {
        push_row(bytes, said)?;
    }
    Ok(())
}
