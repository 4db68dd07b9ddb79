// The refusals that a message's errors are told as.
ghost use Rattle.std.specs.Prelude.{◌≡◌};
ghost use Rattle.kmip.specs.Refusals.{read_refusal, write_refusal};

use crate::{ReadError, WriteError};
use rules::Refusal;

impl From<ReadError> for Refusal {
    ghost from_gives = { λ error refusal. refusal ≡ read_refusal error };

    fn from(error: ReadError) -> Refusal {
        match error {
            ReadError::NoRoom | ReadError::NoLoad => Refusal::InvalidMessage,
            ReadError::BadKeyUid => Refusal::InvalidMessageKeyUid,
        }
    }
}

impl From<WriteError> for Refusal {
    ghost from_gives = { λ error refusal. refusal ≡ write_refusal error };

    fn from(error: WriteError) -> Refusal {
        match error {
            WriteError::NoRoom => Refusal::OutputTooShort,
            WriteError::NoKey => Refusal::InvalidMessage,
            WriteError::BadKeyUid => Refusal::InvalidMessageKeyUid,
        }
    }
}
