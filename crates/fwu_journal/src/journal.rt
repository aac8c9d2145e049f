//! What a run did: its turns.
ghost use Rattle.std.specs.Prelude.{◌≡◌, ◌∷◌, [], ◌++◌, IfOk, OnOk, length, map};
ghost use Rattle.fwu_journal.specs.Shown.{turns, turn, HasRoomFor, OneMore};

use base_core::Guid;
use early_boot::Numbers;
use fwu_formats::{CapsuleFault, FipFault};
use fwu_model::{AgentState, NoBoot, Status};
use script_text::Call;
use std::alloc::{AllocError, Global};

/// What a call was answered.
#[derive(Drop)]
pub enum Reply {
    /// No bank is on: none was booted since power came, or power is off.
    Off,
    /// Power was lost.
    Lost,
    /// The flash failed.
    Fault,
    /// The file of a `send` could not be read.
    ReadFault,
    /// The agent refused the call.
    Refused(Status),
    Success,
    Discovered(AgentState),
    /// The number of the handle that was opened.
    Opened(u32),
    Got {
        /// How many bytes there are in all.
        total: u32,
        /// Those that were read.
        bytes: Vec<u8>,
    },
    Sent {
        /// How many images were installed.
        images: u32,
        /// How many entries of the package are no image of the layout.
        skipped: u32,
    },
    SentPartial {
        /// How many images of the package were installed.
        images: u32,
        /// How many of its entries are no image of the layout.
        skipped: u32,
        /// How many images it lacks, which were copied from the active bank.
        copied: u32,
    },
    /// The package lacks the image of this type.
    Missing(Guid),
    /// The package's image of this type passes its slot.
    TooLarge(Guid),
    BadPackage(FipFault),
    BadCapsule(CapsuleFault),
    /// The agent refused the `begin` of a `send`.
    BeginRefused(Status),
    /// The agent refused the `end` of a `send`.
    EndRefused(Status),
    Booted {
        bank: u32,
        /// The security version of the bank's manifest.
        version: u32,
        /// How often the active bank was started on trial.
        trials: u32,
        /// The anti-rollback counter.
        counter: u32,
        /// Whether the bank isn't the active one.
        fallback: bool,
    },
    NotBooted(NoBoot),
    /// A loss of power was armed.
    CutOk,
    Shown(Numbers),
    /// What was asked is no call of the agent.
    NotUnderstood,
}

/// A call, its reply, and of a boot the numbers that the flash held as the turn began, where the boot told them.
#[derive(Drop)]
pub struct Turn {
    pub call: Call,
    pub reply: Reply,
    pub numbers: Option<Numbers>,
}

/// The turns of a run, in their order.
#[derive(Drop)]
pub struct Journal {
    turns: Vec<Turn>,
}

impl Journal {
    /// A journal without turns, which takes no memory.
    pub fn new(alloc: Global) -> Journal
        ensures { turns result ≡ [] }
    {
        Journal {
            turns: Vec::new(alloc),
        }
    }

    /// A journal without turns, with room for so many. The error comes where memory is wanting.
    pub fn with_room(alloc: Global, count: usize) -> Result<Journal, AllocError>
        ensures empty { IfOk result (λ journal. turns journal ≡ []) }
        ensures room { IfOk result (λ journal. HasRoomFor journal count) }
    {
        Ok(Journal {
            turns: Vec::with_capacity(alloc, count)?,
        })
    }

    /// Makes room for so many turns more. The error comes where memory is wanting.
    pub fn make_room(&mut self, count: usize) -> Result<(), AllocError>
        ensures stays { turns self.new ≡ turns self.old }
        ensures room { OnOk result (HasRoomFor self.new count) }
    {
        self.turns.reserve(count)
    }

    /// Adds a turn, in room that was made before.
    pub fn add(&mut self, next: Turn)
        requires { HasRoomFor self.old 1 }
        ensures adds { turns self.new ≡ turns self.old ++ turn next ∷ [] }
        ensures room { OneMore self.old self.new }
    {
        // It is named here, so that the proof is told the type of the numbers.
        let _numbers = &next.numbers;
        self.turns.push(next).unwrap()
    }

    /// The turns, in their order.
    pub fn turns(&self) -> &[Turn]
        ensures { map turn result.now ≡ turns self.now }
    {
        self.turns.as_slice()
    }

    /// How many turns there are.
    pub fn len(&self) -> usize
        ensures { result ≡ length (turns self.now) }
    {
        self.turns.len()
    }
}
