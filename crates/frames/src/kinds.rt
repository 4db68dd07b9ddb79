// A frame's bytes by its kind: the length, then the fields.
ghost use Rattle.std.specs.Prelude.{◌≡◌, ◌≤◌, ◌<◌, ◌+◌, ◌≢◌, length, take, drop, Ok, Err, MatchResult};
ghost use Rattle.rules.specs.Answers.{07·03};
ghost use Rattle.cells.specs.Cells.{write};
ghost use Rattle.rules.specs.Numbers.{uid_most, key_size};
ghost use Rattle.rules.specs.Fields.{byte, bytes};
ghost use Rattle.rules.specs.State.{namespace, key_tag};
ghost use Rattle.rules.specs.Checks.{judged};
ghost use Rattle.rules.specs.Frames.{manage as Manage, release as Release, clear_one as ClearOne, clear_all as ClearAll, io as Io, set_features as SetFeatures};
ghost use Rattle.rules.specs.Frames.{get_features as GetFeatures, boot_write as BootWrite, reset as Reset, discovery as Discovery};
ghost use Rattle.rules.specs.Frames.{exactly, load_checks, read_load, read_wrapped, read_replace, read_message, read_frame, command_of};
ghost use Rattle.frames.specs.Reading.{numbered, read_as, uid_length};

use crate::fields::{COMMAND, command, namespace_of, tag_of};
use crate::{BROUGHT_MOST, FrameRead, ToSlot};
use rules::{FRAME_MOST, KEY_SIZE, Refusal, Tag, UID_MOST, WRAPPED_SIZE};

// A command's frame: the kind, then the command.
const FRAME_OF_COMMAND: usize = 1 + COMMAND;

// The bytes of a frame that has to have N.
fn exactly<const N: usize>(f: &[u8]) -> Result<&[u8; N], Refusal>
    ensures { MatchResult result (λ bytes. (bytes.now ≡ f.now) × (length f.now ≡ N)) (λ r. (r ≡ 07·03) × (length f.now ≢ N)) }
{
    f.as_array().ok_or(Refusal::WrongLength)
}

fn manage(f: &[u8]) -> Result<FrameRead, Refusal>
    ensures { result ≡ numbered (exactly 3 f.now (Manage (namespace (byte 1 f.now)) (byte 2 f.now))) }
{
    let [_, ns, tags] = *exactly::<3>(f)?;
    Ok(FrameRead::Manage(namespace_of(ns), tags))
}

fn release(f: &[u8]) -> Result<FrameRead, Refusal>
    ensures { result ≡ numbered (exactly 2 f.now (Release (namespace (byte 1 f.now)))) }
{
    let [_, ns] = *exactly::<2>(f)?;
    Ok(FrameRead::Release(namespace_of(ns)))
}

// A KeyUID's length.
fn uid_length(l: u8) -> Result<usize, Refusal>
    ensures { result ≡ uid_length l }
{
    match usize::from(l) {
        l @ 1..=UID_MOST => Ok(l),
        _ => Err(Refusal::BadKeyUidLength),
    }
}

// A load whose key, clear or wrapped, has N bytes: which slot it names, and its KeyUID's length.
fn to_slot<const N: usize>(f: &[u8]) -> Result<ToSlot, Refusal>
    requires { N ≤ 256 }
    ensures { result ≡ judged (load_checks N f.now) Err
        (Ok (record { ns = namespace (byte 1 f.now); tag = key_tag (bytes 2 3 f.now); l = byte 4 f.now })) }
{
    let [_, ns, low, high, l, ..] = f else {
        return Err(Refusal::WrongLength);
    };
    let l = uid_length(*l)?;
    if f.len() != 5 + l + N {
        return Err(Refusal::WrongLength);
    }
    Ok(ToSlot {
        ns: namespace_of(*ns),
        tag: tag_of(*low, *high),
        l,
    })
}

fn load(f: &[u8]) -> Result<FrameRead, Refusal>
    ensures { result ≡ numbered (read_load f.now) }
{
    let ToSlot { ns, tag, l } = to_slot::<KEY_SIZE>(f)?;
    Ok(FrameRead::Load(ns, tag, l))
}

fn load_wrapped(f: &[u8]) -> Result<FrameRead, Refusal>
    ensures { result ≡ numbered (read_wrapped f.now) }
{
    let ToSlot { ns, tag, l } = to_slot::<WRAPPED_SIZE>(f)?;
    Ok(FrameRead::LoadWrapped(ns, tag, l))
}

fn replace(f: &[u8]) -> Result<FrameRead, Refusal>
    ensures { result ≡ numbered (read_replace f.now) }
{
    let [_, ns, low, high, o, ..] = f else {
        return Err(Refusal::WrongLength);
    };
    let o = uid_length(*o)?;
    if f.len() < 6 + o {
        return Err(Refusal::WrongLength);
    }
    let l = uid_length(f[5 + o])?;
    if f.len() != 6 + o + l + KEY_SIZE {
        return Err(Refusal::WrongLength);
    }
    Ok(FrameRead::Replace(namespace_of(*ns), tag_of(*low, *high), o, l))
}

fn clear_one(f: &[u8]) -> Result<FrameRead, Refusal>
    ensures { result ≡ numbered (exactly 4 f.now (ClearOne (namespace (byte 1 f.now)) (key_tag (bytes 2 3 f.now)))) }
{
    let [_, ns, low, high] = *exactly::<4>(f)?;
    Ok(FrameRead::ClearOne(namespace_of(ns), tag_of(low, high)))
}

fn clear_all(f: &[u8]) -> Result<FrameRead, Refusal>
    ensures { result ≡ numbered (exactly 2 f.now (ClearAll (namespace (byte 1 f.now)))) }
{
    let [_, ns] = *exactly::<2>(f)?;
    Ok(FrameRead::ClearAll(namespace_of(ns)))
}

fn io(f: &[u8]) -> Result<FrameRead, Refusal>
    ensures { result ≡ numbered (exactly 65 f.now (Io (command_of (drop 1 f.now)))) }
{
    exactly::<FRAME_OF_COMMAND>(f)?;
    Ok(FrameRead::Io(command(&f[1..])))
}

fn set_features(f: &[u8]) -> Result<FrameRead, Refusal>
    ensures { result ≡ numbered (exactly 5 f.now (SetFeatures (bytes 1 4 f.now))) }
{
    let [_, a, b, c, d] = *exactly::<5>(f)?;
    Ok(FrameRead::SetFeatures(u32::from_le_bytes([a, b, c, d])))
}

fn get_features(f: &[u8]) -> Result<FrameRead, Refusal>
    ensures { result ≡ numbered (exactly 1 f.now GetFeatures) }
{
    exactly::<1>(f)?;
    Ok(FrameRead::GetFeatures)
}

fn boot_write(f: &[u8]) -> Result<FrameRead, Refusal>
    ensures { result ≡ numbered (exactly 2 f.now (BootWrite (byte 1 f.now))) }
{
    let [_, partition] = *exactly::<2>(f)?;
    Ok(FrameRead::BootWrite(partition))
}

fn reset(f: &[u8]) -> Result<FrameRead, Refusal>
    ensures { result ≡ numbered (exactly 2 f.now (Reset (byte 1 f.now))) }
{
    let [_, level] = *exactly::<2>(f)?;
    Ok(FrameRead::Reset(level))
}

fn discovery(f: &[u8]) -> Result<FrameRead, Refusal>
    ensures { result ≡ numbered (exactly 1 f.now Discovery) }
{
    exactly::<1>(f)?;
    Ok(FrameRead::Discovery)
}

// A KeyUID of l bytes and the key behind it, to where a load has them. They change places with what lay there (`read` wipes `brought`): a
// copy of a length that is not known is a call of memmove, and the archive for C needs none.
fn place(frame: &mut [u8; FRAME_MOST], brought: &mut [u8; BROUGHT_MOST], l: usize)
    requires { l ≤ uid_most }
    ensures { frame.new ≡ write 5 (l + key_size) (take (l + key_size) brought.old) frame.old }
{
    let size = l + KEY_SIZE;
    let end = 5 + size;
    frame[5..end].swap_with_slice(&mut brought[..size]);
}

// The message from byte 4 on, by way of bytes that are lent: the KeyUID and the key that it brings go to where a load has them.
fn message(
    frame: &mut [u8; FRAME_MOST],
    n: usize,
    brought: &mut [u8; BROUGHT_MOST],
) -> Result<FrameRead, Refusal>
    requires { n ≤ length frame.old }
    ensures { record { read = result; frame = frame.new } ≡ read_as (read_message (take n frame.old)) frame.old }
{
    let [_, ns, low, high, message @ ..] = &frame[..n] else {
        return Err(Refusal::WrongLength);
    };
    let ns = *ns;
    let tag = u16::from_le_bytes([*low, *high]);
    let l = kmip::read(message, usize::from(ns), usize::from(tag), brought)?;
    place(frame, brought, l);
    Ok(FrameRead::Load(namespace_of(ns), Tag(tag), l))
}

// The first byte says which of the thirteen kinds that stay as they lie a frame is.
fn by_kind(f: &[u8]) -> Result<FrameRead, Refusal>
    requires { (0 < length f.now) × (byte 0 f.now ≡ 13 → ⊥) }
    ensures { result ≡ numbered (read_frame f.now) }
{
    match f[0] {
        0x01 => manage(f),
        0x02 => release(f),
        0x03 => load(f),
        0x04 => replace(f),
        0x05 => clear_one(f),
        0x06 => clear_all(f),
        0x07 => io(f),
        0x08 => set_features(f),
        0x09 => get_features(f),
        0x0A => boot_write(f),
        0x0B => reset(f),
        0x0C => discovery(f),
        0x0D => Err(Refusal::UnknownKind),
        0x0E => load_wrapped(f),
        0x00 => Err(Refusal::UnknownKind),
        0x0F..=0xFF => Err(Refusal::UnknownKind),
    }
}

// The frame in the first n bytes. (d) The array goes with n, and no slice of it: what a message brings is longer than some messages.
pub(crate) fn front(
    frame: &mut [u8; FRAME_MOST],
    n: usize,
    brought: &mut [u8; BROUGHT_MOST],
) -> Result<FrameRead, Refusal>
    requires { (0 < n) × (n ≤ length frame.old) }
    ensures { record { read = result; frame = frame.new } ≡ read_as (read_frame (take n frame.old)) frame.old }
{
    if frame[0] == 0x0D {
        return message(frame, n, brought);
    }
    by_kind(&frame[..n])
}
