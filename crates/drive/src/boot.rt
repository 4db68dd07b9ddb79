// Boot locks and resets.
ghost use Rattle.std.specs.Prelude.{◌≡◌, ℕ, List};
ghost use Rattle.rules.specs.Order.{obeys, set_features, get_features, boot_write, reset as resetRule};
ghost use Rattle.drive.specs.Acting.{state, after, Sound};

use rules::{Answer, Granted, Refusal, Registers};

// The pair is lent where it lies, to the routine that changes it there.
pub(crate) fn set_features(registers: &mut Registers, dword11: u32) -> Answer
    ensures { (keys marks : List ℕ) → after result registers.new keys marks
        ≡ obeys (state registers.old keys marks) (λ v. set_features v dword11) }
{
    locks::set_locks(&mut registers.locks, dword11)
}

pub(crate) fn get_features(registers: &Registers) -> Answer
    ensures { (keys marks : List ℕ) → after result registers.now keys marks
        ≡ obeys (state registers.now keys marks) get_features }
{
    Ok(Granted::LockStates(locks::shown(registers.locks)))
}

pub(crate) fn boot_write(registers: &Registers, partition: u8) -> Answer
    ensures { (keys marks : List ℕ) → after result registers.now keys marks
        ≡ obeys (state registers.now keys marks) (λ v. boot_write v partition) }
{
    locks::boot_write(registers.locks, partition)
}

// 00 controller level, which changes nothing; 01 power cycle, after which the pair is the same whatever it was.
pub(crate) fn reset(registers: &mut Registers, keys: &mut [u8], level: u8) -> Answer
    requires { Sound registers.old keys.old }
    ensures { (marks : List ℕ) → after result registers.new keys.new marks
        ≡ obeys (state registers.old keys.old marks) (λ v. resetRule v level) }
{
    if level > 1 {
        return Err(Refusal::InvalidField);
    }
    if level == 1 {
        slots::clear_allocated(registers.counts, keys);
        registers.locks = locks::both_locked();
    }
    Ok(Granted::Done)
}
