// Drives made for one call, sound or not.
use crate::text::NUMBERS;
use crate::{Cache, MOST, Marks, ROOM, Setting};
use rules::{
    BootLocks, CACHE_SIZE, Lock, NAMESPACES, Registers, SLOT_PLACES, SLOT_WIDTH, STORE_SIZE,
};

// These tag counts, and both partitions Write Locked.
fn counted(counts: [u8; NAMESPACES]) -> Registers {
    let locks = BootLocks {
        partition0: Lock::WriteLocked,
        partition1: Lock::WriteLocked,
    };
    Registers { counts, locks }
}

pub(crate) fn fresh() -> Registers {
    counted([0; NAMESPACES])
}

// The number, or the greatest byte.
fn byte(n: usize) -> u8 {
    u8::try_from(n).unwrap_or(u8::MAX)
}

// Sets two bytes of a slot: another one, then the first.
fn fill_slot(keys: &mut Cache, place: usize, first: u8, other: usize) {
    if place >= SLOT_PLACES {
        return;
    }
    if other >= SLOT_WIDTH {
        return;
    }
    let at = place * SLOT_WIDTH;
    keys[at + other] = 1;
    keys[at] = first;
}

// The drive as it is, with a store and an output that it takes.
pub(crate) fn usual(registers: Registers) -> Setting {
    Setting {
        registers,
        cache: CACHE_SIZE,
        store: STORE_SIZE,
        room: ROOM,
    }
}

// The drive that an input line's numbers ask for; their order is in main.rt.
pub(crate) fn setting(keys: &mut Cache, marks: &mut Marks, n: [usize; NUMBERS]) -> Setting {
    *keys = [0u8; CACHE_SIZE];
    *marks = [7u8; MOST];
    fill_slot(keys, n[6], byte(n[7]), n[8]);
    let registers = counted([byte(n[2]), byte(n[3]), byte(n[4]), byte(n[5])]);
    Setting {
        registers,
        cache: CACHE_SIZE.saturating_sub(n[9]),
        store: n[0],
        room: n[1],
    }
}
