//! What a call of the agent answers in place of a value.
use fwu_model::Status;
use thiserror::Error;

/// What a call of the agent answers in place of a value.
#[derive(Clone, Copy, Debug, PartialEq, Eq, Error)]
pub enum Stop {
    /// The call was refused, and changed nothing.
    #[error("refused: {0:?}")]
    Status(Status),
    /// Power was lost.
    #[error("power was lost")]
    Lost,
    /// The flash failed.
    #[error("the flash failed")]
    Fault,
    /// An earlier call of this agent was stopped by the flash.
    #[error("an earlier call of this agent was stopped by the flash")]
    Gone,
}
