//! What a decision leaves of the metadata and of the session.
ghost use Rattle.std.specs.Prelude.{◌≡◌, ◌<◌, ◌≤◌, IsTrue, Bool, List, if◌then◌else◌, [], ◌-◌, length, map, slice_index_or};
ghost use Rattle.fwu_formats.specs.Layout.{Layout as LayoutValue};
ghost use Rattle.fwu_formats.specs.Metadata.{fits_meta};
ghost use Rattle.fwu_model.specs.State.{Free, Switch, Accept, Back, all_set, state_by};
ghost use Rattle.agent_kept.specs.Kept.{kept};
ghost use Rattle.fwu_model.specs.MoveMetas.{meta_after};
ghost use Rattle.agent_state.specs.Decides.{next_bank, IsMetaOf};
ghost use Rattle.agent_state.specs.Settles.{IsPlanOf, IsDecisionOf, HasBytes, Changes, ChangesBy, bit_kept, bits_kept, meta_planned, meta_settled, SettlesBy, IsNumber};

use crate::deciding::update_bank;
use agent_kept::{Decision, Part, Plan, Session};
use fwu_formats::BankState;
use fwu_model::Op;
use meta_layout::{Bits, Meta};

/// Whether an image is committed as accepted.
fn bit_of(part: &Part) -> bool
    ensures { result ≡ bit_kept part.now }
{
    match part {
        Part::Committed { bit, .. } => *bit,
        Part::Nothing | Part::Open { .. } => false,
    }
}

/// The bits of the committed images.
fn committed_bits(session: &Session) -> Bits
    ensures { result ≡ bits_kept (kept session.now) }
{
    let mut bits = Bits::new();
    for image in 0..session.rows().len() {
        bits.push(bit_of(session.part(image)));
    }
    bits
}

/// A bank is invalid, and its bits are clear.
fn free(meta: &mut Meta, bank: u32)
    requires state { bank < length meta.old.meta.states }
    requires bits { bank < length meta.old.meta.bits }
    ensures set { meta.new ≡ record meta.old { meta = meta_after meta.old.meta (Free bank) } }
{
    let cleared = meta.bits().get(bank as usize).cleared();
    meta.set_state(bank, BankState::Invalid);
    meta.set_bits(bank, cleared);
}

/// The update bank is invalid, its bits clear, where it is to be stored so.
fn free_if(meta: &mut Meta, store: bool)
    requires active { meta.old.meta.active < length meta.old.meta.states }
    requires bits { length meta.old.meta.states ≤ length meta.old.meta.bits }
    ensures set { meta.new ≡ record meta.old {
      meta = if store then meta_after meta.old.meta (Free (next_bank meta.old.meta)) else meta.old.meta;
    } }
{
    if store {
        free(meta, update_bank(meta));
    }
}

/// The state of a bank that is switched to with these bits.
fn state_by(bits: &Bits) -> BankState
    ensures { result ≡ state_by bits.now }
{
    if bits.are_all_set() {
        BankState::Accepted
    } else {
        BankState::Valid
    }
}

/// A bank is active, with these bits, and the one that was active is the previous one.
fn switch(meta: &mut Meta, bank: u32, bits: Bits)
    requires state { bank < length meta.old.meta.states }
    requires bits { bank < length meta.old.meta.bits }
    ensures set { meta.new ≡ record meta.old { meta = meta_after meta.old.meta (Switch bank [] bits) } }
{
    let previous = meta.active();
    meta.set_previous(previous);
    meta.set_active(bank);
    meta.set_state(bank, state_by(&bits));
    meta.set_bits(bank, bits);
}

/// The state of a bank with these bits whose state was this.
fn accepted_state(bits: &Bits, state: BankState) -> BankState
    ensures { result ≡ (if all_set bits.now then BankState.Accepted else state) }
{
    if bits.are_all_set() {
        BankState::Accepted
    } else {
        state
    }
}

/// An image of the active bank is accepted, and with the last one the bank.
fn accept_image(meta: &mut Meta, image: u32)
    requires state { meta.old.meta.active < length meta.old.meta.states }
    requires bits { meta.old.meta.active < length meta.old.meta.bits }
    requires within { image < length (slice_index_or meta.old.meta.bits meta.old.meta.active []) }
    ensures set { meta.new ≡ record meta.old { meta = meta_after meta.old.meta (Accept image) } }
{
    let active = meta.active();
    let mut bits = *meta.bits().get(active as usize);
    bits.set(image as usize, true);
    let state = accepted_state(&bits, meta.state(active));
    meta.set_state(active, state);
    meta.set_bits(active, bits);
}

/// The active and the previous bank change places.
fn go_back(meta: &mut Meta)
    ensures set { meta.new ≡ record meta.old { meta = meta_after meta.old.meta Back } }
{
    let active = meta.active();
    meta.set_active(meta.previous());
    meta.set_previous(active);
}

/// What a plan makes of the metadata.
fn change_meta(meta: &mut Meta, session: &Session, plan: &Plan)
    requires fits { IsMetaOf (kept session.now) meta.old.meta }
    requires plan { IsPlanOf (kept session.now) plan.now }
    ensures set { meta.new ≡ record meta.old { meta = meta_planned (kept session.now) meta.old.meta plan.now } }
{
    match *plan {
        Plan::Begin { store } | Plan::BeginPartial { store, .. } => free_if(meta, store),
        Plan::End => switch(meta, update_bank(meta), committed_bits(session)),
        Plan::Accept { image, store } => {
            if store {
                accept_image(meta, image);
            }
        }
        Plan::Back => go_back(meta),
        Plan::Tell
        | Plan::Open { .. }
        | Plan::Write { .. }
        | Plan::Read { .. }
        | Plan::Commit { .. }
        | Plan::Cancel => {}
    }
}

fn open(session: &mut Session, handle: u32, image: Option<u32>, op: Op, total: u32)
    requires plan { IsPlanOf (kept session.old) (Plan.Open handle image op total) }
    ensures changes { Changes (kept session.old) [] (Plan.Open handle image op total) (kept session.new) }
{
    match op {
        Op::Read => session.set_reader(handle, image, 0, total),
        Op::Write => {
            if let Some(image) = image {
                session.open_part(handle, image);
            }
        }
    }
}

fn commit(session: &mut Session, handle: u32, written: Option<u32>, bit: bool)
    requires plan { IsPlanOf (kept session.old) (Plan.Commit handle written bit) }
    ensures changes { Changes (kept session.old) [] (Plan.Commit handle written bit) (kept session.new) }
{
    match written {
        Some(image) => session.commit_part(handle, image, bit),
        None => session.close(handle),
    }
}

/// What a plan makes of what is kept. The bytes are those of a write.
fn change_session(session: &mut Session, plan: &Plan, bytes: &[u8])
    requires plan { IsPlanOf (kept session.old) plan.now }
    requires bytes { HasBytes plan.now bytes.now }
    ensures changes { Changes (kept session.old) bytes.now plan.now (kept session.new) }
{
    match *plan {
        Plan::Tell | Plan::Accept { .. } | Plan::Back => {}
        Plan::Begin { .. } | Plan::BeginPartial { .. } => session.restart(true),
        Plan::Open {
            handle,
            image,
            op,
            total,
        } => open(session, handle, image, op, total),
        Plan::Write { image, .. } => session.append(image as usize, bytes),
        Plan::Read {
            handle,
            image,
            at,
            length,
            total,
        } => session.set_reader(handle, image, at + length, total),
        Plan::Commit {
            handle,
            written,
            bit,
        } => commit(session, handle, written, bit),
        Plan::End | Plan::Cancel => session.restart(false),
    }
}

/// Makes of the metadata and of what is kept of the session what a decision says that `decide` or
/// `ruled` gave for them. The bytes are those of a write, else none. A refusal, and a decision that
/// waits for a verdict, change nothing. Of a plan to begin with a part of the images it is what a begin
/// leaves. Each image that isn't named is then opened, written and committed by plans of their own.
pub fn settle(meta: &mut Meta, session: &mut Session, decision: &Decision, bytes: &[u8])
    requires fits { IsMetaOf (kept session.old) meta.old.meta }
    requires decided { IsDecisionOf (kept session.old) decision.now }
    requires bytes { (p : Plan) → decision.now ≡ Decision.Do p → HasBytes p bytes.now }

    ensures meta { meta.new ≡ record meta.old { meta = meta_settled (kept session.old) meta.old.meta decision.now } }
    ensures session { ChangesBy (kept session.old) bytes.now decision.now (kept session.new) }
    ensures fits { IsMetaOf (kept session.new) meta.new.meta }
    // the machine that was spoken of before is spoken of after its moves, with its next session
    ensures settles { SettlesBy (kept session.old) meta.old bytes.now decision.now meta.new (kept session.new) }
{
    if let Decision::Do(plan) = decision {
        change_meta(meta, session, plan);
        change_session(session, plan, bytes);
    }
}
