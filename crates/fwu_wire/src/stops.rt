//! What became of a request.
use thiserror::Error;

/// What became of a request that a server took.
#[derive(Clone, Copy, Debug, PartialEq, Eq)]
pub enum Taken {
    /// The frame of its reply was given, of so many bytes. It acted, or it acted before and the frame is the one that was kept.
    Reply { length: u32, acted: bool },
    /// It is neither the next number nor that of a request that acted last.
    Ignored,
}

/// Why a server gave no reply.
#[derive(Clone, Copy, Debug, PartialEq, Eq, Error)]
pub enum Stop {
    #[error("power was lost")]
    Lost,
    #[error("the flash failed")]
    Fault,
    /// The flash stopped an earlier call of this agent.
    #[error("an earlier call of this agent was stopped by the flash")]
    Gone,
}
