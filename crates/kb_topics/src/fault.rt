//! Why a call of the catalog was refused.
ghost use Rattle.std.specs.Prelude.{◌≡◌};

use kb_log::LogFault;
use kb_wire::ErrorCode;
use std::alloc::{AllocError, AllocFailed};
use thiserror::Error;

/// Why a call of the catalog was refused, in the order in which they are tested.
#[derive(Clone, Copy, Debug, PartialEq, Eq, Error)]
pub enum CatalogFault {
    /// The name is not legal.
    #[error("the name is not legal")]
    Name,
    /// A topic of that name is there.
    #[error("a topic of that name is there")]
    Exists,
    /// There are fewer than 1 or more than 64 partitions.
    #[error("the number of partitions is out of range")]
    Partitions,
    /// A limit is below -1.
    #[error("a limit is out of range")]
    Limit,
    /// 1,000 topics are there.
    #[error("there are too many topics")]
    TooMany,
    /// No topic of that name or instance is there, or it has no such partition; or the group committed nothing.
    #[error("the topic, partition or group is unknown")]
    Unknown,
    /// The metadata has more than 4,096 bytes.
    #[error("the metadata is too large")]
    Metadata,
    /// The start would go back.
    #[error("the start would go back")]
    Back,
    /// Every producer id was given out.
    #[error("no producer id is left")]
    UsedUp,
    /// The meta log is full, or every instance was given out.
    #[error("the meta log is full")]
    Full,
    /// The store refused.
    #[error("the store refused")]
    Store,
    /// Memory ran out.
    #[error("out of memory")]
    Memory,
}

impl CatalogFault {
    ghost use Rattle.kb_topics.specs.CatalogFault.{code_of};

    /// The number of the fault's error code.
    pub fn code(&self) -> i16
        ensures { result ≡ code_of self.now }
    {
        match self {
            CatalogFault::Name => ErrorCode::InvalidTopic.code(),
            CatalogFault::Exists => ErrorCode::TopicAlreadyExists.code(),
            CatalogFault::Partitions => ErrorCode::InvalidPartitions.code(),
            CatalogFault::Limit => ErrorCode::InvalidConfig.code(),
            CatalogFault::TooMany => ErrorCode::PolicyViolation.code(),
            CatalogFault::Unknown => ErrorCode::UnknownTopicOrPartition.code(),
            CatalogFault::Metadata => ErrorCode::OffsetMetadataTooLarge.code(),
            CatalogFault::Back => ErrorCode::OffsetOutOfRange.code(),
            CatalogFault::Full | CatalogFault::Store => ErrorCode::KafkaStorageError.code(),
            CatalogFault::UsedUp | CatalogFault::Memory => ErrorCode::UnknownServerError.code(),
        }
    }
}

impl From<AllocError> for CatalogFault {
    ghost use Rattle.kb_topics.specs.declared.fault.CatalogFault.TheVariants.{Memory};

    ghost from_gives = { λ _ e. e ≡ Memory };

    fn from(_: AllocError) -> Self {
        CatalogFault::Memory
    }
}

impl<T: Drop> From<AllocFailed<T>> for CatalogFault {
    ghost use Rattle.kb_topics.specs.declared.fault.CatalogFault.TheVariants.{Memory};

    ghost from_gives = { λ _ e. e ≡ Memory };

    fn from(_: AllocFailed<T>) -> Self {
        CatalogFault::Memory
    }
}

impl From<LogFault> for CatalogFault {
    ghost use Rattle.kb_topics.specs.CatalogFault.{of_log};

    ghost from_gives = { λ f e. e ≡ of_log f };

    fn from(fault: LogFault) -> Self {
        match fault {
            LogFault::Full => CatalogFault::Full,
            LogFault::Store => CatalogFault::Store,
            LogFault::Memory | LogFault::Range => CatalogFault::Memory,
        }
    }
}
