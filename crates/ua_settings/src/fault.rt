//! Why settings are refused.

ghost use Rattle.std.specs.Prelude.{◌≡◌};
ghost use Rattle.ua_settings.specs.declared.fault.SettingsFault.TheVariants.{OutOfMemory};

use std::alloc::{AllocError, AllocFailed};
use thiserror::Error;
use ua_space::BuildFault;

/// Why settings are refused.
#[derive(Clone, Copy, Debug, PartialEq, Eq, Error)]
pub enum SettingsFault {
    /// The text isn't TOML.
    #[error("it isn't TOML")]
    NotToml,
    /// A table lacks a key.
    #[error("a key is missing")]
    MissingKey,
    /// A key doesn't hold what it must.
    #[error("a value can't be used")]
    BadValue,
    /// A table has a key that it may not have.
    #[error("a key isn't known")]
    UnknownKey,
    /// Folders and variables make no address space.
    #[error("no address space: {0}")]
    Space(BuildFault),
    /// Memory ran out.
    #[error("memory ran out")]
    OutOfMemory,
}

impl SettingsFault {
    ghost use Rattle.ua_settings.specs.Fault.{settings_fault_number};

    /// The number that the program prints, from 1 to 6 in the order of the variants.
    pub fn number(self) -> u8
        ensures { result ≡ settings_fault_number self }
    {
        match self {
            SettingsFault::NotToml => 1,
            SettingsFault::MissingKey => 2,
            SettingsFault::BadValue => 3,
            SettingsFault::UnknownKey => 4,
            SettingsFault::Space(_) => 5,
            SettingsFault::OutOfMemory => 6,
        }
    }
}

impl From<AllocError> for SettingsFault {
    ghost from_gives = { λ _ fault. fault ≡ OutOfMemory };

    fn from(_cause: AllocError) -> SettingsFault {
        SettingsFault::OutOfMemory
    }
}

impl<T: Drop> From<AllocFailed<T>> for SettingsFault {
    ghost from_gives = { λ _ fault. fault ≡ OutOfMemory };

    fn from(_cause: AllocFailed<T>) -> SettingsFault {
        SettingsFault::OutOfMemory
    }
}
