//! What is decided of each request.
ghost use Rattle.std.specs.Prelude.{◌≡◌, ◌+◌, ◌-◌, ◌*◌, ◌%◌, ◌<◌, ◌≤◌, ◌&&◌, ◌||◌, not, ◌==◌, ℕ, Bool, List, Some, None, length, take, slice_index_or, IsTrue};
ghost use Rattle.fwu_formats.specs.Metadata.{Meta as MetaValue, MetaRead, fits_meta};
ghost use Rattle.fwu_model.specs.State.{is_invalid, is_valid, is_accepted};
ghost use Rattle.fwu_formats.specs.Layout.{find_image, dir_guid};
ghost use Rattle.fwu_model.specs.Answer.{are_named, names_unknown};
ghost use Rattle.base_core.specs.Bytes.{same_bytes};
ghost use Rattle.std.specs.List.{list_any, position, position_or_len};
ghost use Rattle.agent_kept.specs.Sound.{is_free_kept, is_writer_kept};
ghost use Rattle.agent_kept.specs.Kept.{kept};
ghost use Rattle.agent_state.specs.Ruled.{ruled_as};
ghost use Rattle.agent_state.specs.Decides.{DecidesRequest, DecidesByMeta, IsMetaOf, DecidesBySession, next_bank, is_trial_kept, cannot_begin_kept, may_leave_kept, has_other_kept, lowest_free_kept, opened_as};
ghost use Rattle.agent_state.specs.Settles.{IsDecisionOf};
ghost use Rattle.agent_state.specs.Asked.{IsFor};

use crate::judging::may_install;
use agent_kept::{Decision, HANDLES, Handle, Part, Plan, Request, Session};
use base_core::{Guid, ImageRow};
use fwu_formats::BankState;
use fwu_model::{Op, Status};
use meta_layout::{Meta, directory_guid};
use verify_core::Verifier;

/// The bank that the next package goes to.
pub fn update_bank(meta: &Meta) -> u32
    requires active { meta.now.meta.active < length meta.now.meta.states }
    ensures value { result ≡ next_bank meta.now.meta }
    ensures below { result < length meta.now.meta.states }
{
    let banks = meta.banks();
    let next = meta.active() + 1;
    if next == banks { 0 } else { next }
}

fn is_invalid(state: BankState) -> bool
    ensures { result ≡ is_invalid state }
{
    match state {
        BankState::Invalid => true,
        BankState::Valid | BankState::Accepted => false,
    }
}

fn is_valid(state: BankState) -> bool
    ensures { result ≡ is_valid state }
{
    match state {
        BankState::Valid => true,
        BankState::Invalid | BankState::Accepted => false,
    }
}

fn is_accepted(state: BankState) -> bool
    ensures { result ≡ is_accepted state }
{
    match state {
        BankState::Accepted => true,
        BankState::Invalid | BankState::Valid => false,
    }
}

/// Whether nothing is staged and the active bank is on trial.
fn is_trial(meta: &Meta, session: &Session) -> bool
    requires active { meta.now.meta.active < length meta.now.meta.states }
    ensures { result ≡ is_trial_kept meta.now.meta (kept session.now) }
{
    !session.is_staging() && is_valid(meta.state(meta.active()))
}

fn cannot_begin(meta: &Meta, session: &Session, boot_index: u32) -> bool
    requires active { meta.now.meta.active < length meta.now.meta.states }
    ensures { result ≡ cannot_begin_kept meta.now.meta (kept session.now) boot_index }
{
    is_trial(meta, session) || boot_index != meta.active()
}

fn begin(
    meta: &Meta,
    session: &Session,
    boot_index: u32,
    vendor_flags: u32,
    partial_count: u32,
) -> Decision
    requires active { meta.now.meta.active < length meta.now.meta.states }
    ensures decides { DecidesByMeta meta.now (kept session.now) boot_index (Request.Begin vendor_flags partial_count) result }
    ensures plan { IsDecisionOf (kept session.now) result }
    ensures asked { IsFor (kept session.now) meta.now.meta (Request.Begin vendor_flags partial_count) result }
{
    if cannot_begin(meta, session, boot_index) {
        return Decision::Refused(Status::Denied);
    }
    if partial_count != 0 {
        return Decision::Refused(Status::NotAvailable);
    }
    let store = !is_invalid(meta.state(update_bank(meta)));
    Decision::Do(Plan::Begin { store })
}

/// Whether one of the types is no image's.
fn names_unknown(session: &Session, list: &[Guid]) -> bool
    ensures { result ≡ names_unknown (kept session.now).rows list.now }
{
    list.iter().any(|guid| session.find(guid).is_none())
}

/// Whether a list names the type of an image.
fn is_named(list: &[Guid], row: &ImageRow) -> bool
    ensures { result ≡ list_any (same_bytes row.now.guid) list.now }
{
    list.iter().any(|guid| row.guid.is(guid))
}

/// Of each image, whether a list names it.
fn named(session: &Session, list: &[Guid]) -> [bool; 16]
    ensures { take (length (kept session.now).rows) result ≡ are_named (kept session.now).rows list.now }
{
    let mut named = [false; 16];
    for image in 0..session.rows().len() {
        named[image] = is_named(list, &session.rows()[image]);
    }
    named
}

fn begin_partial(
    meta: &Meta,
    session: &Session,
    boot_index: u32,
    vendor_flags: u32,
    list: &[Guid],
) -> Decision
    requires active { meta.now.meta.active < length meta.now.meta.states }
    ensures decides { DecidesByMeta meta.now (kept session.now) boot_index (Request.BeginPartial vendor_flags list.entry) result }
    ensures plan { IsDecisionOf (kept session.now) result }
    ensures asked { IsFor (kept session.now) meta.now.meta (Request.BeginPartial vendor_flags list.entry) result }
{
    if cannot_begin(meta, session, boot_index) {
        return Decision::Refused(Status::Denied);
    }
    if names_unknown(session, list) {
        return Decision::Refused(Status::Unknown);
    }
    let store = !is_invalid(meta.state(update_bank(meta)));
    let named = named(session, list);
    Decision::Do(Plan::BeginPartial { store, named })
}

/// The place of the lowest free handle.
fn find_free(handles: &[Handle]) -> Option<usize>
    ensures { result ≡ position is_free_kept handles.now }
{
    handles.iter().position(|handle| handle.is_free())
}

/// The same, or the number of handles where none is free.
fn lowest_free(handles: &[Handle]) -> usize
    ensures { result ≡ position_or_len is_free_kept handles.now }
{
    match find_free(handles) {
        Some(place) => place,
        None => handles.len(),
    }
}

/// What is to be opened gets the lowest free handle.
fn opened(session: &Session, image: Option<u32>, op: Op, total: u32) -> Decision
    ensures { result ≡ opened_as (kept session.now) image op total }
{
    let place = lowest_free(session.handles());
    if place >= HANDLES {
        return Decision::Refused(Status::Busy);
    }
    Decision::Do(Plan::Open {
        handle: place as u32 + 1,
        image,
        op,
        total,
    })
}

/// An image of the staged package is opened for writing.
fn open_to_write(session: &Session, image: u32, total: u32) -> Decision
    requires within { image < length (kept session.now).rows }
    ensures decides { (guid : List ℕ) → find_image (kept session.now).rows guid ≡ Some image →
        DecidesBySession (kept session.now) (Request.Open guid Op.Write total) result }
    ensures plan { IsDecisionOf (kept session.now) result }
    ensures asked { (m : MetaValue) (guid : List ℕ) → find_image (kept session.now).rows guid ≡ Some image →
        IsFor (kept session.now) m (Request.Open guid Op.Write total) result }
{
    if !session.is_staging() {
        return Decision::Refused(Status::Denied);
    }
    match session.part(image as usize) {
        Part::Committed { .. } => Decision::Refused(Status::Denied),
        Part::Open { .. } => Decision::Refused(Status::Busy),
        Part::Nothing => opened(session, Some(image), Op::Write, total),
    }
}

fn open_image(session: &Session, image: u32, op: Op, total: u32) -> Decision
    requires within { image < length (kept session.now).rows }
    ensures decides { (guid : List ℕ) → find_image (kept session.now).rows guid ≡ Some image →
        DecidesBySession (kept session.now) (Request.Open guid op total) result }
    ensures plan { IsDecisionOf (kept session.now) result }
    ensures asked { (m : MetaValue) (guid : List ℕ) → find_image (kept session.now).rows guid ≡ Some image →
        IsFor (kept session.now) m (Request.Open guid op total) result }
{
    match op {
        Op::Read => opened(session, Some(image), Op::Read, total),
        Op::Write => open_to_write(session, image, total),
    }
}

fn open_directory(session: &Session, op: Op, total: u32) -> Decision
    ensures decides { (guid : List ℕ) → find_image (kept session.now).rows guid ≡ None → IsTrue (same_bytes guid dir_guid) →
        DecidesBySession (kept session.now) (Request.Open guid op total) result }
    ensures plan { IsDecisionOf (kept session.now) result }
    ensures asked { (m : MetaValue) (guid : List ℕ) → find_image (kept session.now).rows guid ≡ None →
        IsFor (kept session.now) m (Request.Open guid op total) result }
{
    match op {
        Op::Read => opened(session, None, Op::Read, total),
        Op::Write => Decision::Refused(Status::Denied),
    }
}

fn open(session: &Session, guid: &Guid, op: Op, total: u32) -> Decision
    ensures decides { DecidesBySession (kept session.now) (Request.Open guid.now op total) result }
    ensures plan { IsDecisionOf (kept session.now) result }
    ensures asked { (m : MetaValue) → IsFor (kept session.now) m (Request.Open guid.now op total) result }
{
    match session.find(guid) {
        Some(image) => open_image(session, image as u32, op, total),
        None => {
            if !guid.is(&directory_guid()) {
                return Decision::Refused(Status::Unknown);
            }
            open_directory(session, op, total)
        }
    }
}

fn write(session: &Session, handle: u32, length: u64) -> Decision
    ensures decides { DecidesBySession (kept session.now) (Request.Write handle length) result }
    ensures plan { IsDecisionOf (kept session.now) result }
    ensures asked { (m : MetaValue) → IsFor (kept session.now) m (Request.Write handle length) result }
{
    match session.handle(handle) {
        Handle::Free => Decision::Refused(Status::Unknown),
        Handle::Reads { .. } => Decision::Refused(Status::Denied),
        Handle::Writes { image } => {
            let at = session.size(image as usize);
            let room = session.slot(image as usize) - at;
            if u64::from(room) < length {
                return Decision::Refused(Status::OutOfBounds);
            }
            Decision::Do(Plan::Write {
                handle,
                image,
                at,
                length: length as u32,
            })
        }
    }
}

fn read(session: &Session, handle: u32, room: u64) -> Decision
    ensures decides { DecidesBySession (kept session.now) (Request.Read handle room) result }
    ensures plan { IsDecisionOf (kept session.now) result }
    ensures asked { (m : MetaValue) → IsFor (kept session.now) m (Request.Read handle room) result }
{
    match session.handle(handle) {
        Handle::Free => Decision::Refused(Status::Unknown),
        Handle::Writes { .. } => Decision::Refused(Status::Denied),
        Handle::Reads { image, at, total } => Decision::Do(Plan::Read {
            handle,
            image,
            at,
            length: room.min(u64::from(total - at)) as u32,
            total,
        }),
    }
}

fn commit(session: &Session, handle: u32, acceptance_req: u32, max_atomic_len: u32) -> Decision
    ensures decides { DecidesBySession (kept session.now) (Request.Commit handle acceptance_req max_atomic_len) result }
    ensures plan { IsDecisionOf (kept session.now) result }
    ensures asked { (m : MetaValue) → IsFor (kept session.now) m (Request.Commit handle acceptance_req max_atomic_len) result }
{
    let bit = acceptance_req == 0;
    match session.handle(handle) {
        Handle::Free => Decision::Refused(Status::Unknown),
        Handle::Reads { .. } => Decision::Do(Plan::Commit {
            handle,
            written: None,
            bit,
        }),
        Handle::Writes { image } => Decision::Do(Plan::Commit {
            handle,
            written: Some(image),
            bit,
        }),
    }
}

/// Whether an image is open for writing.
fn is_writing(handles: &[Handle]) -> bool
    ensures { result ≡ list_any is_writer_kept handles.now }
{
    handles.iter().any(|handle| handle.is_writer())
}

fn end<V: Verifier>(session: &Session, counter: u32, verifier: &V) -> Decision
    requires some { 1 ≤ length (kept session.now).rows }
    ensures decides { (m : MetaRead) (boot : ℕ) →
        DecidesRequest (V.passes verifier.now) m counter (kept session.now) boot Request.End result }
    ensures plan { IsDecisionOf (kept session.now) result }
    ensures asked { (m : MetaValue) → IsFor (kept session.now) m Request.End result }
{
    if !session.is_staging() {
        return Decision::Refused(Status::Denied);
    }
    if is_writing(session.handles()) {
        return Decision::Refused(Status::Busy);
    }
    if !may_install(session, counter, verifier) {
        return Decision::Refused(Status::AuthFail);
    }
    Decision::Do(Plan::End)
}

fn cancel(session: &Session) -> Decision
    ensures decides { DecidesBySession (kept session.now) Request.Cancel result }
    ensures plan { IsDecisionOf (kept session.now) result }
    ensures asked { (m : MetaValue) → IsFor (kept session.now) m Request.Cancel result }
{
    if !session.is_staging() {
        return Decision::Refused(Status::Denied);
    }
    Decision::Do(Plan::Cancel)
}

/// Whether nothing is staged and the agent runs from the active bank.
fn may_accept(meta: &Meta, session: &Session, boot_index: u32) -> bool
    ensures { result ≡ (not (kept session.now).staging && (boot_index == meta.now.meta.active)) }
{
    !session.is_staging() && boot_index == meta.active()
}

fn accept(meta: &Meta, session: &Session, boot_index: u32, guid: &Guid) -> Decision
    requires fits { IsMetaOf (kept session.now) meta.now.meta }
    ensures decides { DecidesByMeta meta.now (kept session.now) boot_index (Request.Accept guid.now) result }
    ensures plan { IsDecisionOf (kept session.now) result }
    ensures asked { IsFor (kept session.now) meta.now.meta (Request.Accept guid.now) result }
{
    if !may_accept(meta, session, boot_index) {
        return Decision::Refused(Status::Denied);
    }
    match session.find(guid) {
        None => Decision::Refused(Status::Unknown),
        Some(image) => Decision::Do(Plan::Accept {
            image: image as u32,
            store: !meta.bit(meta.active(), image as u32),
        }),
    }
}

/// Whether nothing is staged and there is something to go back from.
fn may_leave(meta: &Meta, session: &Session, boot_index: u32) -> bool
    requires active { meta.now.meta.active < length meta.now.meta.states }
    ensures { result ≡ may_leave_kept meta.now.meta (kept session.now) boot_index }
{
    !session.is_staging() && (is_valid(meta.state(meta.active())) || boot_index != meta.active())
}

/// Whether there is another bank to go back to.
fn has_other(meta: &Meta) -> bool
    requires previous { meta.now.meta.previous < length meta.now.meta.states }
    ensures { result ≡ has_other_kept meta.now.meta }
{
    meta.previous() != meta.active() && is_accepted(meta.state(meta.previous()))
}

fn previous(meta: &Meta, session: &Session, boot_index: u32) -> Decision
    requires active { meta.now.meta.active < length meta.now.meta.states }
    requires previous { meta.now.meta.previous < length meta.now.meta.states }
    ensures decides { DecidesByMeta meta.now (kept session.now) boot_index Request.Previous result }
    ensures plan { IsDecisionOf (kept session.now) result }
    ensures asked { IsFor (kept session.now) meta.now.meta Request.Previous result }
{
    if !may_leave(meta, session, boot_index) {
        return Decision::Refused(Status::Denied);
    }
    if !has_other(meta) {
        return Decision::Refused(Status::Denied);
    }
    Decision::ByVerdict {
        bank: meta.previous(),
    }
}

/// What is decided of a request, by the metadata, what is kept of the session, the booted bank and
/// the counter. It is a refusal by the first condition that fails, or a plan. Only `previous` waits
/// for the verdict on a bank. The verifier is asked of the manifest of a package that `end` would
/// install. No flash is read.
pub fn decide<V: Verifier>(
    meta: &Meta,
    session: &Session,
    boot_index: u32,
    request: &Request,
    counter: u32,
    verifier: &V,
) -> Decision
    requires some { 1 ≤ length (kept session.now).rows }
    requires fits { IsMetaOf (kept session.now) meta.now.meta }
    ensures decides { DecidesRequest (V.passes verifier.now) meta.now counter (kept session.now) boot_index request.now result }
    ensures plan { IsDecisionOf (kept session.now) result }
    // a plan of the request's own kind, with the numbers that the request and what is kept give
    ensures asked { IsFor (kept session.now) meta.now.meta request.now result }
{
    match request {
        Request::Discover => Decision::Do(Plan::Tell),
        Request::Begin {
            vendor_flags,
            partial_count,
        } => begin(meta, session, boot_index, *vendor_flags, *partial_count),
        Request::BeginPartial { vendor_flags, list } => {
            begin_partial(meta, session, boot_index, *vendor_flags, list)
        }
        Request::Open { guid, op, total } => open(session, guid, *op, *total),
        Request::Write { handle, length } => write(session, *handle, *length),
        Request::Read { handle, room } => read(session, *handle, *room),
        Request::Commit {
            handle,
            acceptance_req,
            max_atomic_len,
        } => commit(session, *handle, *acceptance_req, *max_atomic_len),
        Request::End => end(session, counter, verifier),
        Request::Cancel => cancel(session),
        Request::Accept { guid } => accept(meta, session, boot_index, guid),
        Request::Previous => previous(meta, session, boot_index),
    }
}

/// What the verdict on a bank makes of a decision that waits for it: the plan where the bank is good,
/// else DENIED. Any other decision stays.
pub fn ruled(decision: &Decision, good: bool) -> Decision
    ensures { result ≡ ruled_as decision.now good }
{
    match decision {
        Decision::ByVerdict { .. } => {
            if good {
                Decision::Do(Plan::Back)
            } else {
                Decision::Refused(Status::Denied)
            }
        }
        other => *other,
    }
}
