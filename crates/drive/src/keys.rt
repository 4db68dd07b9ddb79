// The frames on keys: manage, release, load, replace, clear one, clear all.
ghost use Rattle.std.specs.Prelude.{◌≡◌, ℕ, ◌<◌, ◌≤◌, List, [], length};
ghost use Rattle.rules.specs.Numbers.{slot_places, cache_size};
ghost use Rattle.rules.specs.View.{view_of, other_key};
ghost use Rattle.rules.specs.State.{total as total_of};
ghost use Rattle.rules.specs.Order.{obeys, manage as manageRule, release as releaseRule, load as loadRule, replace as replaceRule, clear_one as clearOneRule};
ghost use Rattle.rules.specs.Order.{clear_all as clearAllRule};
ghost use Rattle.drive.specs.Contents.{contents};
ghost use Rattle.drive.specs.Acting.{state, after, Ready, Sound, put_at, load_at, replace_at, clear_at};

use crate::answers::{count, locate, managed, no_namespace, set_count};
use crate::contents::Contents;
use rules::{
    Answer, Granted, NAMESPACES, Namespace, POOL_SLOTS, Refusal, Registers, TAGS_MOST, Tag,
};

fn total(counts: &[u8; NAMESPACES]) -> usize
    ensures { (result ≡ total_of counts.now) × (result ≤ 1020) }
{
    let mut sum = 0;
    for n in counts {
        sum += usize::from(*n);
    }
    sum
}

pub(crate) fn manage(registers: &mut Registers, ns: Namespace, tags: u8) -> Answer
    ensures { (keys marks : List ℕ) → after result registers.new keys marks
        ≡ obeys (state registers.old keys marks) (λ v. manageRule v ns tags) }
{
    if no_namespace(ns) {
        return Err(Refusal::InvalidNamespace);
    }
    if count(registers, ns) != 0 {
        return Err(Refusal::AlreadyManaged);
    }
    let n = usize::from(tags);
    if n == 0 || n > TAGS_MOST {
        return Err(Refusal::BadTagCount);
    }
    if total(&registers.counts) + n > POOL_SLOTS {
        return Err(Refusal::PoolTooSmall);
    }
    set_count(registers, ns, tags);
    Ok(Granted::Done)
}

pub(crate) fn release(
    registers: &mut Registers,
    keys: &mut [u8],
    marks: &mut [u8],
    ns: Namespace,
) -> Answer
    requires { Ready registers.old keys.old marks.old }
    ensures { after result registers.new keys.new marks.new
        ≡ obeys (state registers.old keys.old marks.old) (λ v. releaseRule v ns) }
{
    let tags = managed(registers, ns)?;
    slots::clear_up_to(keys, ns, tags);
    marks::zero_namespace(marks, ns);
    set_count(registers, ns, 0);
    Ok(Granted::Done)
}

pub(crate) fn clear_all(registers: &Registers, keys: &mut [u8], ns: Namespace) -> Answer
    requires { Sound registers.now keys.old }
    ensures { (marks : List ℕ) → after result registers.now keys.new marks
        ≡ obeys (state registers.now keys.old marks) (λ v. clearAllRule v ns) }
{
    let tags = managed(registers, ns)?;
    slots::clear_up_to(keys, ns, tags);
    Ok(Granted::Done)
}

// 07 0C. In a sound state only allocated tags have a loaded slot, so that no other is looked at.
fn other_key(registers: &Registers, keys: &[u8], x: Contents) -> bool
    requires { Sound registers.now keys.now }
    ensures { result ≡ other_key (view_of (state registers.now keys.now [])).slots (contents x.entry.uid.now x.entry.key.now) }
{
    slots::other_key_allocated(registers.counts, keys, x.uid, x.key)
}

// The last check of load and replace, and what both then do.
fn put(registers: &Registers, keys: &mut [u8], place: usize, x: Contents) -> Answer
    requires { (place < slot_places) × Sound registers.now keys.old }
    ensures { (marks : List ℕ) → after result registers.now keys.new marks
        ≡ put_at (state registers.now keys.old marks) place (contents x.entry.uid.now x.entry.key.now) }
{
    if other_key(registers, keys, x) {
        return Err(Refusal::OtherKey);
    }
    slots::store(keys, place, x.uid, x.key);
    Ok(Granted::Done)
}

fn load_at(registers: &Registers, keys: &mut [u8], place: usize, x: Contents) -> Answer
    requires { (place < slot_places) × Sound registers.now keys.old }
    ensures { (marks : List ℕ) → after result registers.now keys.new marks
        ≡ load_at (state registers.now keys.old marks) place (contents x.entry.uid.now x.entry.key.now) }
{
    if slots::loaded(keys, place) {
        return Err(Refusal::SlotOccupied);
    }
    put(registers, keys, place, x)
}

pub(crate) fn load(
    registers: &Registers,
    keys: &mut [u8],
    ns: Namespace,
    tag: Tag,
    x: Contents,
) -> Answer
    requires { Sound registers.now keys.old }
    ensures { (marks : List ℕ) → after result registers.now keys.new marks
        ≡ obeys (state registers.now keys.old marks)
        (λ v. loadRule v ns tag (contents x.entry.uid.now x.entry.key.now)) }
{
    let place = locate(registers, ns, tag)?;
    load_at(registers, keys, place, x)
}

fn replace_at(
    registers: &Registers,
    keys: &mut [u8],
    place: usize,
    old: &[u8],
    x: Contents,
) -> Answer
    requires { (place < slot_places) × Sound registers.now keys.old }
    ensures { (marks : List ℕ) → after result registers.now keys.new marks
        ≡ replace_at (state registers.now keys.old marks) place old.now (contents x.entry.uid.now x.entry.key.now) }
{
    if !slots::loaded(keys, place) {
        return Err(Refusal::SlotEmpty);
    }
    if !slots::holds_uid(keys, place, old) {
        return Err(Refusal::OtherOldKeyUid);
    }
    put(registers, keys, place, x)
}

pub(crate) fn replace(
    registers: &Registers,
    keys: &mut [u8],
    ns: Namespace,
    tag: Tag,
    old: &[u8],
    x: Contents,
) -> Answer
    requires { Sound registers.now keys.old }
    ensures { (marks : List ℕ) → after result registers.now keys.new marks
        ≡ obeys (state registers.now keys.old marks)
        (λ v. replaceRule v ns tag old.now (contents x.entry.uid.now x.entry.key.now)) }
{
    let place = locate(registers, ns, tag)?;
    replace_at(registers, keys, place, old, x)
}

fn clear_at(registers: &Registers, keys: &mut [u8], place: usize) -> Answer
    requires { (place < slot_places) × (length keys.old ≡ cache_size) }
    ensures { (marks : List ℕ) → after result registers.now keys.new marks ≡ clear_at (state registers.now keys.old marks) place }
{
    if !slots::loaded(keys, place) {
        return Err(Refusal::SlotEmpty);
    }
    slots::clear(keys, place);
    Ok(Granted::Done)
}

pub(crate) fn clear_one(registers: &Registers, keys: &mut [u8], ns: Namespace, tag: Tag) -> Answer
    requires { Sound registers.now keys.old }
    ensures { (marks : List ℕ) → after result registers.now keys.new marks
        ≡ obeys (state registers.now keys.old marks) (λ v. clearOneRule v ns tag) }
{
    let place = locate(registers, ns, tag)?;
    clear_at(registers, keys, place)
}
