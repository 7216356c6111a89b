//! What a shelf and a sink answer when they can't do as asked.

use std::alloc::{AllocError, AllocFailed};
use std::io;
use thiserror::Error;

/// Why a file was not loaded.
#[derive(Debug, Drop, Error)]
pub enum LoadError {
    /// The file could not be opened or read, or there is none of that name.
    #[error("the file could not be read")]
    Failed,
    /// The file has more bytes than the limit.
    #[error("the file is too long")]
    TooLong,
    /// There was no memory for its bytes.
    #[error("out of memory")]
    Memory,
}

/// Why a file was not created, or a piece not written whole.
#[derive(Debug, Drop, Error)]
pub enum WriteError {
    /// The file or the output did not take it.
    #[error("the bytes could not be written")]
    Failed,
    /// There was no memory for it.
    #[error("out of memory")]
    Memory,
}

impl From<AllocError> for LoadError {
    ghost use Rattle.std.specs.Prelude.{◌≡◌};
    ghost use Rattle.uz_shelf.specs.declared.errors.LoadError.TheVariants.{Memory};

    ghost from_gives = { λ _ e. e ≡ Memory };

    fn from(_e: AllocError) -> LoadError {
        LoadError::Memory
    }
}

impl From<io::Error> for LoadError {
    ghost use Rattle.std.specs.Prelude.{◌≡◌};
    ghost use Rattle.uz_shelf.specs.declared.errors.LoadError.TheVariants.{Failed};

    ghost from_gives = { λ _ e. e ≡ Failed };

    fn from(_e: io::Error) -> LoadError {
        LoadError::Failed
    }
}

impl From<io::Error> for WriteError {
    ghost use Rattle.std.specs.Prelude.{◌≡◌};
    ghost use Rattle.uz_shelf.specs.declared.errors.WriteError.TheVariants.{Failed};

    ghost from_gives = { λ _ e. e ≡ Failed };

    fn from(_e: io::Error) -> WriteError {
        WriteError::Failed
    }
}

impl From<AllocError> for WriteError {
    ghost use Rattle.std.specs.Prelude.{◌≡◌};
    ghost use Rattle.uz_shelf.specs.declared.errors.WriteError.TheVariants.{Memory};

    ghost from_gives = { λ _ e. e ≡ Memory };

    fn from(_e: AllocError) -> WriteError {
        WriteError::Memory
    }
}

impl<T: Drop> From<AllocFailed<T>> for WriteError {
    ghost use Rattle.std.specs.Prelude.{◌≡◌};
    ghost use Rattle.uz_shelf.specs.declared.errors.WriteError.TheVariants.{Memory};

    ghost from_gives = { λ _ e. e ≡ Memory };

    fn from(_e: AllocFailed<T>) -> WriteError {
        WriteError::Memory
    }
}
