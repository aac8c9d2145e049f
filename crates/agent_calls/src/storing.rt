//! Carrying out a plan that may store metadata.
ghost use Rattle.base_core.specs.Block.{block_bytes};
ghost use Rattle.flash_core.specs.Calls.{Goes};
ghost use Rattle.flash_core.specs.Touches.{TouchesOnly};
ghost use Rattle.std.specs.Prelude.{◌≡◌, ◌*◌, ◌<◌, false, [], length, IsTrue, IsFalse, OnOk};
ghost use Rattle.fwu_formats.specs.Metadata.{fits_meta};
ghost use Rattle.agent_machine.specs.Meets.{flash_result};
ghost use Rattle.agent_machine.specs.Stored.{StoresIf, TakesIf, is_stored, trials_planned};

use crate::agent::{Agent, stopped};
use agent_machine::Stop;
use agent_state::{Decision, Plan, settle};
use base_core::BLOCK_BYTES;
use flash_core::{Flash, FlashStop};
use meta_layout::{Layout, Meta};
use replicas::store;

/// Stores metadata over both replicas, where it is to be stored.
// kept apart, so that its block stands on the stack for this call alone
#[inline(never)]
fn store_if<D: Flash>(
    flash: &mut D,
    layout: &Layout,
    meta: &Meta,
    stored: bool,
) -> Result<(), FlashStop>
    requires on { IsTrue (D.on flash.old) }
    requires fits { IsTrue (fits_meta layout.now meta.now.meta) }
    ensures stores { IsTrue D.tells → StoresIf stored result layout.now meta.now.meta
        (D.told flash.old) (D.told flash.new) }
    ensures touches { TouchesOnly (block_bytes * 1) (block_bytes * 3) (D.writes flash.old) (D.writes flash.new) }
    ensures goes { Goes D.Flash result flash.old flash.new }
    ensures spent { OnOk result (TakesIf stored (D.arming flash.old) (D.arming flash.new)) }
    ensures still { stored ≡ false → flash.new ≡ flash.old }
{
    if !stored {
        return Ok(());
    }
    let mut buf = [0; BLOCK_BYTES as usize];
    store(flash, layout, meta, &mut buf)
}

/// Whether a plan stores metadata.
fn is_stored(plan: &Plan) -> bool
    ensures { result ≡ is_stored plan.now }
{
    match *plan {
        Plan::Begin { store } | Plan::BeginPartial { store, .. } | Plan::Accept { store, .. } =>
            store,
        Plan::Back => true,
        _ => false,
    }
}

/// The trials after a plan, by the metadata that it left: none where the active bank is accepted with
/// its last image, or where another bank is active.
fn trials_after(plan: &Plan, meta: &Meta, trials: u32) -> u32
    requires active { meta.now.meta.active < length meta.now.meta.bits }
    ensures { result ≡ trials_planned plan.now meta.now.meta trials }
{
    match *plan {
        Plan::Accept { store, .. } => {
            if store && meta.bits().get(meta.active() as usize).are_all_set() {
                0
            } else {
                trials
            }
        }
        Plan::Back => 0,
        _ => trials,
    }
}

impl<D: Flash> Agent<D> {
    ghost use Rattle.agent_calls.specs.Shown.{AgentGoes, SpendsStore, device, fields, gone, moment};
    ghost use Rattle.agent_machine.specs.Meets.{IsRefused};
    ghost use Rattle.agent_machine.specs.Stored.{MayCarryOut, CarriesOut};
    ghost use Rattle.agent_state.specs.Settles.{Changes, meta_planned};

    /// Makes of the metadata and of the session what a plan says, and stores the metadata where the plan
    /// does. A stop of the flash leaves the agent gone.
    pub(crate) fn carry_out(&mut self, plan: Plan) -> Result<(), Stop>
        requires here { IsFalse (gone self.old) }
        requires plan { MayCarryOut (fields self.old) plan }
        ensures carries { CarriesOut (flash_result result) plan (moment self.old) (moment self.new) }
        ensures answered { IsRefused result → ⊥ }
        // On any device: the metadata and the session are what the plan makes of them.
        ensures planned { let f = fields self.old in
            (fields self.new).meta ≡ record f.meta { meta = meta_planned f.session f.meta.meta plan } }
        ensures changed { Changes (fields self.old).session [] plan (fields self.new).session }
        ensures trials { let f = fields self.old in (fields self.new).trials
            ≡ trials_planned plan (meta_planned f.session f.meta.meta plan) f.trials }
        // On any flash that tells its content, sound or not: that metadata is stored, and nothing else.
        ensures stores { IsTrue D.tells → let f = fields self.old in
            StoresIf (is_stored plan) (flash_result result) f.layout
            (meta_planned f.session f.meta.meta plan)
            (D.told (device self.old)) (D.told (device self.new)) }
        // On every device: no block is erased or programmed but the replicas.
        ensures touches { TouchesOnly (block_bytes * 1) (block_bytes * 3)
            (D.writes (device self.old)) (D.writes (device self.new)) }
        ensures still { is_stored plan ≡ false → device self.new ≡ device self.old }
        ensures goes { AgentGoes result self.old self.new }
        ensures spent { SpendsStore result self.old self.new }
    {
        // where the store is stopped, what is kept counts no more: the agent is gone
        settle(&mut self.meta, &mut self.session, &Decision::Do(plan), &[]);
        self.trials = trials_after(&plan, &self.meta, self.trials);
        let stored = is_stored(&plan);
        match store_if(&mut self.flash, &self.layout, &self.meta, stored) {
            Ok(()) => Ok(()),
            Err(stop) => {
                self.gone = true;
                Err(stopped(stop))
            }
        }
    }
}
