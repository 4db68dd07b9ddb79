// What refusals and locks are told as, and made of: their numbers in a line and an image; of a bad line its refusal.
ghost use Rattle.std.specs.Prelude.{◌≡◌, ◌≢◌, MatchResult};
ghost use Rattle.rules.specs.declared.Lock.{Lock};
ghost use Rattle.rules.specs.declared.Refusal.TheVariants.{NotAFrameLine};
ghost use Rattle.rules.specs.Answers.{refusal_number};
ghost use Rattle.rules.specs.Locks.{lock_value};

use crate::{BadLine, Lock, Refusal};

// A number that is no lock's.
#[derive(Clone, Copy, Debug, PartialEq, Eq)]
pub struct NoLock;

impl From<Refusal> for u16 {
    ghost from_gives = { λ refusal n. n ≡ refusal_number refusal };

    fn from(refusal: Refusal) -> u16 {
        match refusal {
            Refusal::InvalidOpcode => 0x0001,
            Refusal::InvalidField => 0x0002,
            Refusal::InvalidNamespace => 0x000B,
            Refusal::InvalidKeyTag => 0x0025,
            Refusal::IncorrectKey => 0x0028,
            Refusal::BlocksOutOfRange => 0x0080,
            Refusal::LockNotChangeable => 0x010E,
            Refusal::BootWriteProhibited => 0x011E,
            Refusal::NotAFrameLine(_) => 0x0701,
            Refusal::UnknownKind => 0x0702,
            Refusal::WrongLength => 0x0703,
            Refusal::BadKeyUidLength => 0x0704,
            Refusal::AlreadyManaged => 0x0705,
            Refusal::NotManaged => 0x0706,
            Refusal::BadTagCount => 0x0707,
            Refusal::PoolTooSmall => 0x0708,
            Refusal::SlotOccupied => 0x0709,
            Refusal::SlotEmpty => 0x070A,
            Refusal::OtherOldKeyUid => 0x070B,
            Refusal::OtherKey => 0x070C,
            Refusal::WrongStore => 0x070D,
            Refusal::UnsoundState => 0x070E,
            Refusal::OutputTooShort => 0x070F,
            Refusal::IntegrityFailed => 0x0710,
            Refusal::NotAResponse => 0x0716,
            Refusal::InvalidMessage => 0x0717,
            Refusal::InvalidMessageKeyUid => 0x0718,
        }
    }
}

impl From<BadLine> for Refusal {
    ghost from_gives = { λ why refusal. refusal ≡ NotAFrameLine why };

    fn from(why: BadLine) -> Refusal {
        Refusal::NotAFrameLine(why)
    }
}

impl From<Lock> for u8 {
    ghost from_gives = { λ lock n. n ≡ lock_value lock };

    fn from(lock: Lock) -> u8 {
        match lock {
            Lock::WriteUnlocked => 1,
            Lock::WriteLocked => 2,
            Lock::WriteLockedUntilPowerCycle => 3,
        }
    }
}

impl TryFrom<u8> for Lock {
    type Error = NoLock;

    ghost try_from_gives = { λ n r. MatchResult r (λ lock. lock_value lock ≡ n) (λ _. (lock : Lock) → lock_value lock ≢ n) };

    fn try_from(n: u8) -> Result<Lock, NoLock> {
        match n {
            1 => Ok(Lock::WriteUnlocked),
            2 => Ok(Lock::WriteLocked),
            3 => Ok(Lock::WriteLockedUntilPowerCycle),
            _ => Err(NoLock),
        }
    }
}
