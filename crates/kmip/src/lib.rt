// The profile of a media key's import: what a KMIP message brings to a slot. The rules are in `rules` specs/Kmip.antt.
#![tactic(auto)]

ghost use Rattle.std.specs.Prelude.{◌≡◌};
ghost use Rattle.kmip.specs.Reading.{read_message};
ghost use Rattle.kmip.specs.Writing.{write_message};

mod attributes;
mod keys;
mod members;
mod message;
mod refusals;
mod rows;
mod run;
mod writing;

use message::{Load, request};
use rules::{KEY_SIZE, UID_MOST};
use writing::lay;

// Room for the message of a load with a KeyUID of 16 bytes.
pub const MESSAGE_ROOM: usize = 408;

// A slot, as a message names it: by numbers of any size.
#[derive(Clone, Copy)]
pub(crate) struct Slot {
    pub namespace: usize,
    pub tag: usize,
}

// Why reading a message gave nothing: no room for what it may bring, 07 17, 07 18.
#[derive(Clone, Copy, Debug, PartialEq, Eq)]
pub enum ReadError {
    NoRoom,
    NoLoad,
    BadKeyUid,
}

// Why no message was written: no room, a key of other than 32 bytes, a KeyUID that is empty or too long.
#[derive(Clone, Copy, Debug, PartialEq, Eq)]
pub enum WriteError {
    NoRoom,
    NoKey,
    BadKeyUid,
}

// The KeyUID and behind it the key that a message brings to a namespace and a tag, at the front of the output, and the length of the KeyUID.
// Where it brings none the output stays.
pub fn read(bytes: &[u8], ns: usize, tag: usize, out: &mut [u8]) -> Result<usize, ReadError>
    ensures { record { result = result; out = out.new } ≡ read_message ns tag bytes.now out.old }
{
    if out.len() < UID_MOST + KEY_SIZE {
        return Err(ReadError::NoRoom);
    }
    let slot = Slot { namespace: ns, tag };
    let Load { uid, key } = request(bytes, slot).ok_or(ReadError::NoLoad)?;
    let n = uid.len();
    if n == 0 || n > UID_MOST {
        return Err(ReadError::BadKeyUid);
    }
    cells::copy(&mut out[..n], uid);
    out[n..n + KEY_SIZE].copy_from_slice(key);
    Ok(n)
}

// The message of a load of this KeyUID and key to a namespace and a tag, at the front of the output, and its size. What is refused leaves
// the output as it was.
pub fn write(ns: u8, tag: u16, uid: &[u8], key: &[u8], out: &mut [u8]) -> Result<usize, WriteError>
    ensures { record { result = result; out = out.new } ≡ write_message ns tag uid.now key.now out.old }
{
    if out.len() < MESSAGE_ROOM {
        return Err(WriteError::NoRoom);
    }
    let Ok(key) = <&[u8; KEY_SIZE]>::try_from(key) else {
        return Err(WriteError::NoKey);
    };
    let n = uid.len();
    if n == 0 || n > UID_MOST {
        return Err(WriteError::BadKeyUid);
    }
    Ok(lay(ns, tag, uid, key, out))
}
