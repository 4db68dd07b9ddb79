// The two boot partitions' locks: judged and changed by value, and changed where they lie.
#![tactic(auto)]

ghost use Rattle.std.specs.Prelude.{◌≡◌, ◌<◌, ◌≤◌, true, false, MatchResult, unwrap_or};
ghost use Rattle.std.specs.Result.{result_unwrap_or};
ghost use Rattle.rules.specs.declared.Lock.{Lock};
ghost use Rattle.rules.specs.Answers.{00·02, 01·0E};
ghost use Rattle.rules.specs.Locks.{lock_value, asked, shown as shownIn, both_locked};
ghost use Rattle.locks.specs.Deciding.{held, decided, told, boot_written};

use rules::{Answer, BootLocks, Granted, Lock, Refusal};

// The bits of a field of Dword 11.
const FIELD: u32 = 7;

// Both partitions are judged before either changes.
#[tactic(auto, using(crate::proofs::DecidingLaws::fields), unfolding(crate::specs::Deciding::decided))]
pub fn decide(locks: BootLocks, dword11: u32) -> Result<BootLocks, Refusal>
    ensures { result ≡ decided locks dword11 }
{
    if dword11 >> 6 != 0 {
        return Err(Refusal::InvalidField);
    }
    let asked0 = asked((dword11 & FIELD) as u8)?;
    let asked1 = asked((dword11 >> 3) as u8)?;
    Ok(BootLocks {
        partition0: next(locks.partition0, asked0)?,
        partition1: next(locks.partition1, asked1)?,
    })
}

// The state that a field asks for; none for no change.
#[tactic(auto, using(crate::proofs::DecidingLaws::no_state))]
fn asked(field: u8) -> Result<Option<Lock>, Refusal>
    ensures { MatchResult result
        (λ wanted. (field ≤ 3) × ((lock : Lock) → unwrap_or wanted lock ≡ asked field lock))
        (λ refusal. (3 < field) × (refusal ≡ 00·02)) }
{
    if field == 0 {
        return Ok(None);
    }
    Lock::try_from(field)
        .map(Some)
        .map_err(|_| Refusal::InvalidField)
}

// A partition's state once it is asked; one in Until Power Cycle is held.
fn next(lock: Lock, asked: Option<Lock>) -> Result<Lock, Refusal>
    ensures { MatchResult result
        (λ next. (next ≡ unwrap_or asked lock) × (held lock next ≡ false))
        (λ refusal. (held lock (unwrap_or asked lock) ≡ true) × (refusal ≡ 01·0E)) }
{
    let next = asked.unwrap_or(lock);
    if lock == Lock::WriteLockedUntilPowerCycle && next != lock {
        return Err(Refusal::LockNotChangeable);
    }
    Ok(next)
}

// The pair in Dword 11's layout, for Get Features.
pub fn shown(locks: BootLocks) -> u32
    ensures { result ≡ shownIn locks }
{
    u32::from(lock_value(locks.partition0)) + 8 * u32::from(lock_value(locks.partition1))
}

// A state's value in its field.
pub fn lock_value(lock: Lock) -> u8
    ensures { result ≡ lock_value lock }
{
    u8::from(lock)
}

// A boot write passes where the partition is Write Unlocked.
#[tactic(auto, unfolding(crate::specs::Deciding::boot_written))]
pub fn boot_write(locks: BootLocks, partition: u8) -> Answer
    ensures { result ≡ boot_written locks partition }
{
    let lock = match partition {
        0 => locks.partition0,
        1 => locks.partition1,
        _ => return Err(Refusal::InvalidField),
    };
    match lock {
        Lock::WriteUnlocked => Ok(Granted::Done),
        Lock::WriteLocked | Lock::WriteLockedUntilPowerCycle => Err(Refusal::BootWriteProhibited),
    }
}

// The pair after a power cycle, and of a fresh drive.
pub fn both_locked() -> BootLocks
    ensures { result ≡ both_locked }
{
    BootLocks {
        partition0: Lock::WriteLocked,
        partition1: Lock::WriteLocked,
    }
}

// Changes the pair where it lies; on a refusal it stays.
pub fn set_locks(locks: &mut BootLocks, dword11: u32) -> Answer
    ensures { (result ≡ told (decided locks.old dword11)) × (locks.new ≡ result_unwrap_or (decided locks.old dword11) locks.old) }
{
    *locks = decide(*locks, dword11)?;
    Ok(Granted::Done)
}

// Lends a pair to `set_locks`; who has the pair by value calls this and needs no walk. (a) As `decide` for its callers, but `promises` has
// `Tight-locks-set-features` and `Tight-locks-decide`.
pub fn set_features(locks: BootLocks, dword11: u32) -> Result<BootLocks, Refusal>
    ensures { result ≡ decided locks dword11 }
{
    let mut pair = locks;
    set_locks(&mut pair, dword11)?;
    Ok(pair)
}
