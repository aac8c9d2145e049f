//! What the line of a soak tells of its turns.
ghost use Rattle.std.specs.Prelude.{◌≡◌, ◌<◌, ◌++◌, ◌∷◌, [], List};
ghost use Rattle.fwu_journal.specs.Shown.{reply, turns};
ghost use Rattle.fwu_model.specs.Reply.{Turn};
ghost use Rattle.gen_core.specs.Line.{totals_of};
ghost use Rattle.flash_commands.specs.Soaking.{AreWithin};

use fwu_journal::{Journal, Reply};
use gen_core::Totals;

// Nothing was done.
const NONE: Totals = Totals {
    turns: 0,
    boots: 0,
    losses: 0,
    fallbacks: 0,
    sends: 0,
    bank: 0,
    version: 0,
    counter: 0,
};

/// The totals with one turn more, of this reply.
fn count(totals: &mut Totals, answer: &Reply)
    requires few { totals.old.turns < 18446744073709551615 }
    requires within { AreWithin totals.old }
    ensures { (journal : List Turn) (t : Turn) → totals.old ≡ totals_of journal → t.reply ≡ reply answer.now
        → totals.new ≡ totals_of (journal ++ t ∷ []) }
{
    totals.turns += 1;
    match answer {
        Reply::Booted {
            bank,
            version,
            counter,
            fallback,
            ..
        } => {
            totals.boots += 1;
            if *fallback {
                totals.fallbacks += 1;
            }
            totals.bank = *bank;
            totals.version = *version;
            totals.counter = *counter;
        }
        Reply::Lost => totals.losses += 1,
        Reply::Sent { .. } | Reply::SentPartial { .. } => totals.sends += 1,
        _ => {}
    }
}

/// The totals of the turns of a journal.
pub fn totals(journal: &Journal) -> Totals
    ensures { result ≡ totals_of (turns journal.now) }
{
    let mut totals = NONE;
    let turns = journal.turns();
    for index in 0..turns.len() {
        count(&mut totals, &turns[index].reply);
    }
    totals
}
