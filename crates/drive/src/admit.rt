// The three checks of every call, in their order: 07 0F, 07 0D, 07 0E.
ghost use Rattle.std.specs.Prelude.{◌≡◌};
ghost use Rattle.drive.specs.Acting.{state, admitted};

use rules::{Refusal, Registers, STORE_SIZE};

// `short` says that the output has too little room.
pub(crate) fn admit(
    short: bool,
    registers: Registers,
    keys: &[u8],
    marks: &[u8],
) -> Result<(), Refusal>
    ensures { result ≡ admitted short (state registers keys.now marks.now) }
{
    if short {
        return Err(Refusal::OutputTooShort);
    }
    if marks.len() != STORE_SIZE {
        return Err(Refusal::WrongStore);
    }
    if sound::unsound(registers, keys) {
        return Err(Refusal::UnsoundState);
    }
    Ok(())
}
