//! Why a part or a line wasn't read.
ghost use Rattle.std.specs.Prelude.{◌≡◌, ◌≤◌};
ghost use Rattle.ir_parse_parts.specs.Answers.{StopsWithin, answer};

use std::alloc::AllocError;
use thiserror::Error;

/// Why a part wasn't read.
#[derive(Clone, Copy)]
pub enum Stop {
    /// So many tokens are left from the first one on that can't stand there.
    Unfit(usize),
    /// Memory was refused.
    NoMemory,
}

impl From<AllocError> for Stop {
    ghost use Rattle.std.specs.Prelude.{◌≡◌};
    ghost use Rattle.ir_parse_parts.specs.declared.stops.Stop.TheVariants.{NoMemory};

    ghost from_gives = { λ _ e. e ≡ NoMemory };

    fn from(_: AllocError) -> Stop {
        Stop::NoMemory
    }
}

/// Why the tokens of a line stand for nothing.
#[derive(Clone, Copy, Debug, Error)]
pub enum LineError {
    /// The token with this number, counted from 0, is the first that can't stand there; it is the number of
    /// tokens where they end too early.
    #[error("unfit token {0}")]
    Unfit(usize),
    /// Memory was refused.
    #[error("no memory")]
    NoMemory,
}

impl From<AllocError> for LineError {
    ghost use Rattle.std.specs.Prelude.{◌≡◌};
    ghost use Rattle.ir_parse_parts.specs.declared.stops.LineError.TheVariants.{NoMemory};

    ghost from_gives = { λ _ e. e ≡ NoMemory };

    fn from(_: AllocError) -> LineError {
        LineError::NoMemory
    }
}

/// What a line stands for or its unfit place, by what was read of those of its tokens that stand before the first
/// bracket too many. Where such a bracket follows what was read, it is the unfit one.
pub fn answered<T: Drop>(
    read: Result<T, Stop>,
    fitting: usize,
    tokens: usize,
) -> Result<T, LineError>
    requires { StopsWithin read fitting }
    ensures { result ≡ answer read fitting tokens }
{
    match read {
        Ok(value) if fitting == tokens => Ok(value),
        Ok(_) => Err(LineError::Unfit(fitting)),
        Err(Stop::Unfit(left)) => Err(LineError::Unfit(fitting - left)),
        Err(Stop::NoMemory) => Err(LineError::NoMemory),
    }
}
