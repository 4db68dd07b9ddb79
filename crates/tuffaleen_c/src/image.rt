// The image: tag counts, boot locks, key cache. The cache is lent where it lies, behind the registers.
ghost use Rattle.std.specs.Prelude.{◌≡◌, true, false, ◌++◌, length, drop, MatchOption};
ghost use Rattle.rules.specs.Start.{fresh_registers};
ghost use Rattle.tuffaleen_c.specs.Image.{registers_size, image_size, lock_of, no_lock, no_image, registers_in, registers_bytes};
ghost use Rattle.tuffaleen_c.specs.Lending.{Lent};

use rules::{BootLocks, CACHE_SIZE, Lock, NAMESPACES, Registers};

const PARTITIONS: usize = 2;

pub(crate) const REGISTERS_SIZE: usize = NAMESPACES + PARTITIONS;

pub(crate) const IMAGE_SIZE: usize = REGISTERS_SIZE + CACHE_SIZE;

// What the drive is asked with where there is no image: it has no cache then, and refuses.
#[tactic(auto, unfolding(rules::specs::Start::fresh_registers, cells::specs::Cells::zeros))]
fn no_registers() -> Registers
    ensures { result ≡ fresh_registers }
{
    Registers {
        counts: [0; NAMESPACES],
        locks: locks::both_locked(),
    }
}

#[tactic(auto, using(crate::proofs::ImageLaws::lock_told))]
fn lock_in(byte: u8) -> Option<Lock>
    ensures { MatchOption result (no_lock byte ≡ true) (λ lock. (no_lock byte ≡ false) × (lock ≡ lock_of byte)) }
{
    Lock::try_from(byte).ok()
}

// None in what is no image: another length, or a byte that is no lock's.
fn registers_in(image: &[u8]) -> Option<Registers>
    ensures { MatchOption result
        (no_image image.now ≡ true)
        (λ registers. (no_image image.now ≡ false) × (registers ≡ registers_in false image.now)) }
{
    if image.len() != IMAGE_SIZE {
        return None;
    }
    let counts = image.first_chunk()?;
    let partition0 = lock_in(image[NAMESPACES])?;
    let partition1 = lock_in(image[NAMESPACES + 1])?;
    Some(Registers {
        counts: *counts,
        locks: BootLocks {
            partition0,
            partition1,
        },
    })
}

// The registers go to the front of an image.
pub(crate) fn save(image: &mut [u8], registers: Registers)
    requires { length image.old ≡ image_size }
    ensures { image.new ≡ registers_bytes registers ++ drop registers_size image.old }
{
    image[..NAMESPACES].copy_from_slice(&registers.counts);
    image[NAMESPACES] = u8::from(registers.locks.partition0);
    image[NAMESPACES + 1] = u8::from(registers.locks.partition1);
}

// Makes a call with an image's registers, and with its cache lent where it lies, and saves the registers that it hands back. What is no image
// stays: the call has no cache then, which the drive refuses in its place.
pub(crate) fn lend<R, F: FnMut(Registers, &mut [u8]) -> (Registers, R)>(
    image: &mut [u8],
    call: &mut F,
) -> R
    requires { F.IsAlwaysCallable call.old }
    ensures { Lent F.step call.old image.old result image.new call.new }
{
    match registers_in(image) {
        Some(registers) => {
            let (registers, reply) = call(registers, &mut image[REGISTERS_SIZE..]);
            save(image, registers);
            reply
        }
        None => call(no_registers(), &mut []).1,
    }
}
