ghost use Rattle.std.specs.Prelude.{◌≡◌};
ghost use Rattle.replicas.specs.declared.which.ReplicaStop.TheVariants.{Flash as FlashStopped};

use flash_core::FlashStop;
use thiserror::Error;

/// What loading found. Same: both replicas hold the metadata in version 2. Repair: replica 0 is no metadata, or replica 0 decides
/// and replica 1 isn't metadata of the same version and value. Migrate: replica 0, or replica 1, decides and is version 1.
#[derive(Clone, Copy, Debug, PartialEq, Eq)]
pub enum Which {
    Same,
    RepairZero,
    RepairOne,
    MigrateZero,
    MigrateOne,
}

/// Neither replica is metadata of the layout, or the flash stopped.
#[derive(Clone, Copy, Debug, PartialEq, Eq, Error)]
pub enum ReplicaStop {
    #[error("neither replica is metadata of the layout")]
    NoMetadata,
    #[error("{0}")]
    Flash(FlashStop),
}

impl From<FlashStop> for ReplicaStop {
    ghost from_gives = { λ stop e. e ≡ FlashStopped stop };

    fn from(stop: FlashStop) -> Self {
        ReplicaStop::Flash(stop)
    }
}
