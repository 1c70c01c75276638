//! Why a text is refused as settings.

ghost use Rattle.std.specs.Prelude.{◌≡◌};
ghost use Rattle.sci_settings.specs.declared.refusals.SettingsRefusal.TheVariants.{OutOfMemory};

use std::alloc::{AllocError, AllocFailed};
use thiserror::Error;

/// Why a text is refused as settings.
#[derive(Clone, Copy, Debug, PartialEq, Eq, Drop, Error)]
pub enum SettingsRefusal {
    /// Refusal 7: a growth of memory was refused.
    #[error("refused 7")]
    OutOfMemory,
    /// Refusal 22: the text is no TOML, or its keys and values aren't those of a work.
    #[error("refused 22")]
    BadSettings,
}

impl SettingsRefusal {
    ghost use Rattle.sci_settings.specs.Settings.{settings_refusal_number};

    /// The refusal's number.
    pub fn number(self) -> u8
        ensures { result ≡ settings_refusal_number self }
    {
        match self {
            SettingsRefusal::OutOfMemory => 7,
            SettingsRefusal::BadSettings => 22,
        }
    }
}

impl From<AllocError> for SettingsRefusal {
    ghost from_gives = { λ _ e. e ≡ OutOfMemory };

    fn from(_e: AllocError) -> SettingsRefusal {
        SettingsRefusal::OutOfMemory
    }
}

impl<T: Drop> From<AllocFailed<T>> for SettingsRefusal {
    ghost from_gives = { λ _ e. e ≡ OutOfMemory };

    fn from(_e: AllocFailed<T>) -> SettingsRefusal {
        SettingsRefusal::OutOfMemory
    }
}
