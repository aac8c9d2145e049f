//! Going back to the previous bank.
ghost use Rattle.flash_core.specs.Calls.{Reads};
ghost use Rattle.std.specs.Prelude.{◌≡◌, ◌<◌, ◌≤◌, ◌&&◌, ℕ, Bool, List, length, IfOk, IsTrue, IsFalse};
ghost use Rattle.fwu_model.specs.State.{is_valid, is_accepted};
ghost use Rattle.image_check.specs.Verdict.{verdict_on};
ghost use Rattle.image_check.specs.Law.{verdict_may_start};
ghost use Rattle.agent_kept.specs.declared.kinds.Request.TheVariants as request;
ghost use Rattle.agent_kept.specs.Kept.{kept};
ghost use Rattle.agent_state.specs.Asked.{IsFor};
ghost use Rattle.agent_state.specs.Ruled.{ruled_as};
ghost use Rattle.agent_machine.specs.Meets.{MeetsPrevious};
ghost use Rattle.agent_machine.specs.Stored.{is_to_do, may_try_kept};
ghost use Rattle.agent_calls.specs.GoneBack.{ChangesBanks, SomePassed};
ghost use Rattle.agent_calls.specs.Readable.{HoldsBank};

use crate::agent::{Agent, stopped};
use agent_machine::Stop;
use agent_state::{Decision, Plan, Request, Session, decide, ruled};
use base_core::BLOCK_BYTES;
use flash_core::{Flash, FlashStop};
use fwu_formats::BankState;
use fwu_model::Status;
use image_check::{Verdict, check};
use meta_layout::{Layout, Meta};
use verify_core::Verifier;

fn is_valid(state: BankState) -> bool
    ensures { result ≡ is_valid state }
{
    match state {
        BankState::Valid => true,
        BankState::Invalid | BankState::Accepted => false,
    }
}

fn is_accepted(state: BankState) -> bool
    ensures { result ≡ is_accepted state }
{
    match state {
        BankState::Accepted => true,
        BankState::Invalid | BankState::Valid => false,
    }
}

/// Whether the session and the numbers of the banks allow to go back, whatever any bank holds.
fn may_try(meta: &Meta, session: &Session, boot: u32) -> bool
    requires active { meta.now.meta.active < length meta.now.meta.states }
    requires previous { meta.now.meta.previous < length meta.now.meta.states }
    ensures { result ≡ may_try_kept meta.now.meta (kept session.now) boot }
{
    let on_trial = is_valid(meta.state(meta.active()));
    let accepted = is_accepted(meta.state(meta.previous()));
    !session.is_staging()
        && (on_trial || boot != meta.active())
        && (meta.previous() != meta.active() && accepted)
}

fn is_good(verdict: Verdict) -> bool
    ensures { result ≡ verdict_may_start verdict }
{
    match verdict {
        Verdict::Good { .. } => true,
        Verdict::BadManifest
        | Verdict::NotAccepted
        | Verdict::BadImage { .. }
        | Verdict::BelowCounter { .. } => false,
    }
}

/// Whether the verdict on a bank is good. The flash is read alone, and the images are hashed one after another, in a block.
// kept apart, so that its block stands on the stack for this call alone
#[inline(never)]
fn is_bank_good<D: Flash, V: Verifier>(
    flash: &mut D,
    layout: &Layout,
    bank: u32,
    counter: u32,
    verifier: &V,
) -> Result<bool, FlashStop>
    requires { HoldsBank D.Flash flash.old layout.now bank }
    ensures good { IfOk result (λ good. IsTrue D.tells → good ≡ verdict_may_start
        (verdict_on (V.passes verifier.now) counter layout.now (D.told flash.old).now bank)) }
    ensures passed { IfOk result (λ good. IsTrue good →
        SomePassed (V.passes verifier.now) layout.now.rows counter) }
    ensures reads { Reads D.Flash result flash.old flash.new }
{
    let mut buf = [0; BLOCK_BYTES as usize];
    let verdict = check(flash, layout, bank, counter, &mut buf, verifier)?;
    Ok(is_good(verdict))
}

/// Whether a decision on going back is to do it, by the verdict on the bank.
fn goes_back(decision: &Decision, good: bool) -> bool
    ensures { result ≡ is_to_do (ruled_as decision.now good) }
{
    match ruled(decision, good) {
        Decision::Do(_) => true,
        Decision::Refused(_) | Decision::ByVerdict { .. } => false,
    }
}

impl<D: Flash> Agent<D> {
    ghost use Rattle.agent_calls.specs.Shown.{AgentDecides, AgentGoes, gone, moment, snapshot};

    /// Goes back by a decision, where the session and the numbers of the banks allow it and the verdict on
    /// the previous bank is good.
    fn go_back<V: Verifier>(&mut self, decision: &Decision, verifier: &V) -> Result<(), Stop>
        requires here { IsFalse (gone self.old) }
        requires decided { AgentDecides (V.passes verifier.now) request.Previous decision.now
            self.old }
        requires asked { IsFor (kept self.old.session) self.old.meta.meta request.Previous
            decision.now }
        ensures meets { MeetsPrevious result (V.passes verifier.now)
            (moment self.old) (moment self.new) }
        ensures goes { AgentGoes result self.old self.new }
        ensures changes { ChangesBanks D.Flash (V.passes verifier.now) result
            (snapshot self.old) (snapshot self.new) }
    {
        // the decision that waits for a verdict doesn't say so by itself
        if !may_try(&self.meta, &self.session, self.boot) {
            return Err(Stop::Status(Status::Denied));
        }
        let bank = self.meta.previous();
        match is_bank_good(&mut self.flash, &self.layout, bank, self.counter, verifier) {
            Ok(good) => {
                if !goes_back(decision, good) {
                    return Err(Stop::Status(Status::Denied));
                }
                self.carry_out(Plan::Back)
            }
            Err(stop) => {
                self.gone = true;
                Err(stopped(stop))
            }
        }
    }

    /// Goes back to the previous bank (DEN0118, fwu_select_previous): the active and the previous bank
    /// change places, and the trials are over. Metadata is stored for that.
    ///
    /// DENIED: a package is staged; the active bank isn't on trial and was started; the previous bank is
    /// the active one or isn't accepted. Or it holds no complete package that the verifier accepts and
    /// whose security version isn't below the counter. For the last of these the bank is read, so a
    /// refusal may have read the flash. Lost, Fault: the flash stopped the reading or the store. Gone: it
    /// stopped an earlier call of this agent.
    pub fn previous<V: Verifier>(&mut self, verifier: &V) -> Result<(), Stop>
        // Where the device tells its content, the answer is the machine's. On any device a refusal by the
        // session and by the numbers of the banks is, and an answer goes back.
        ensures meets { IsFalse (gone self.old) → (passes : List ℕ → Bool) →
            passes ≡ V.passes verifier.now →
            MeetsPrevious result passes (moment self.old) (moment self.new) }
        ensures goes { AgentGoes result self.old self.new }
        ensures changes { ChangesBanks D.Flash (V.passes verifier.now) result
            (snapshot self.old) (snapshot self.new) }
    {
        if self.gone {
            return Err(Stop::Gone);
        }
        let decision = decide(
            &self.meta,
            &self.session,
            self.boot,
            &Request::Previous,
            self.counter,
            verifier,
        );
        if let Decision::Refused(status) = decision {
            return Err(Stop::Status(status));
        }
        self.go_back(&decision, verifier)
    }
}
