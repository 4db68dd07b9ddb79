// The message of a load: the worked message of docs/KMIP.md with a namespace, a tag, a KeyUID and a key in their places. What stands before
// the KeyUID has four lengths that go with it; what stands between its padding and the key has the two numbers.
ghost use Rattle.std.specs.Prelude.{◌≡◌, ◌++◌, ◌≤◌, ◌<◌, length, drop};
ghost use Rattle.rules.specs.Numbers.{uid_most};
ghost use Rattle.kmip.specs.Writing.{message_room, message_bytes};
ghost use Rattle.kmip.specs.Pieces.{before_uid, between_uid_and_key};

use rules::KEY_SIZE;

const BEFORE: usize = 112;

const BETWEEN: usize = 248;

// Where the four lengths have the byte that goes with the KeyUID.
const MESSAGE_LENGTH: usize = 7;

const BATCH_ITEM_LENGTH: usize = 79;

const PAYLOAD_LENGTH: usize = 103;

const KEY_UID_LENGTH: usize = 111;

// Where the namespace and the tag have the bytes that are not always zero, in what stands between KeyUID and key.
const NAMESPACE: usize = 139;

const TAG: usize = 194;

// Up to the KeyUID of l bytes, which takes `room` with its padding, 8 or 16.
fn up_to_uid(l: usize, room: usize) -> [u8; BEFORE]
    requires { (l ≤ uid_most) × (room ≤ uid_most) }
    ensures { result ≡ before_uid l room }
{
    let mut part = *b"\
        \x42\x00\x78\x01\x00\x00\x01\x00\x42\x00\x77\x01\x00\x00\x00\x38\
        \x42\x00\x69\x01\x00\x00\x00\x20\x42\x00\x6A\x02\x00\x00\x00\x04\
        \x00\x00\x00\x02\x00\x00\x00\x00\x42\x00\x6B\x02\x00\x00\x00\x04\
        \x00\x00\x00\x00\x00\x00\x00\x00\x42\x00\x0D\x02\x00\x00\x00\x04\
        \x00\x00\x00\x01\x00\x00\x00\x00\x42\x00\x0F\x01\x00\x00\x01\x00\
        \x42\x00\x5C\x05\x00\x00\x00\x04\x00\x00\x00\x2A\x00\x00\x00\x00\
        \x42\x00\x79\x01\x00\x00\x01\x00\x42\x00\x94\x07\x00\x00\x00\x00";
    part[MESSAGE_LENGTH] = (0x80 + room) as u8;
    part[BATCH_ITEM_LENGTH] = (0x38 + room) as u8;
    part[PAYLOAD_LENGTH] = (0x20 + room) as u8;
    part[KEY_UID_LENGTH] = l as u8;
    part
}

// From there to the key.
fn up_to_key(ns: u8, tag: u16) -> [u8; BETWEEN]
    ensures { result ≡ between_uid_and_key ns tag }
{
    let mut part = *b"\
        \x42\x00\x57\x05\x00\x00\x00\x04\x00\x00\x00\x02\x00\x00\x00\x00\
        \x42\x01\x25\x01\x00\x00\x00\xB0\x42\x00\x2B\x01\x00\x00\x00\x30\
        \x42\x00\x83\x05\x00\x00\x00\x04\x00\x00\x00\x03\x00\x00\x00\x00\
        \x42\x00\x28\x05\x00\x00\x00\x04\x00\x00\x00\x03\x00\x00\x00\x00\
        \x42\x00\x2A\x02\x00\x00\x00\x04\x00\x00\x01\x00\x00\x00\x00\x00\
        \x42\x00\x08\x01\x00\x00\x00\x38\x42\x00\x9D\x07\x00\x00\x00\x07\
        \x54\x43\x47\x2D\x53\x57\x47\x00\x42\x00\x0A\x07\x00\x00\x00\x0B\
        \x4E\x61\x6D\x65\x73\x70\x61\x63\x65\x49\x44\x00\x00\x00\x00\x00\
        \x42\x00\x0B\x02\x00\x00\x00\x04\x00\x00\x00\x00\x00\x00\x00\x00\
        \x42\x00\x08\x01\x00\x00\x00\x30\x42\x00\x9D\x07\x00\x00\x00\x07\
        \x54\x43\x47\x2D\x53\x57\x47\x00\x42\x00\x0A\x07\x00\x00\x00\x06\
        \x4B\x65\x79\x54\x61\x67\x00\x00\x42\x00\x0B\x02\x00\x00\x00\x04\
        \x00\x00\x00\x00\x00\x00\x00\x00\x42\x00\x8F\x01\x00\x00\x00\x48\
        \x42\x00\x40\x01\x00\x00\x00\x40\x42\x00\x42\x05\x00\x00\x00\x04\
        \x00\x00\x00\x01\x00\x00\x00\x00\x42\x00\x45\x01\x00\x00\x00\x28\
        \x42\x00\x43\x08\x00\x00\x00\x20";
    part[NAMESPACE] = ns;
    [part[TAG], part[TAG + 1]] = tag.to_be_bytes();
    part
}

// The message at the front of the output, and its size.
pub(crate) fn lay(ns: u8, tag: u16, uid: &[u8], key: &[u8; KEY_SIZE], out: &mut [u8]) -> usize
    requires { (message_room ≤ length out.old) × (0 < length uid.now) × (length uid.now ≤ uid_most) }
    ensures { (result ≡ length (message_bytes ns tag uid.now key.now))
        × (out.new ≡ message_bytes ns tag uid.now key.now ++ drop result out.old) }
{
    let l = uid.len();
    let room = l.next_multiple_of(8);
    let uid_end = BEFORE + l;
    let at = BEFORE + room;
    let key_at = at + BETWEEN;
    let end = key_at + KEY_SIZE;
    out[..BEFORE].copy_from_slice(&up_to_uid(l, room));
    cells::copy(&mut out[BEFORE..uid_end], uid);
    out[uid_end..at].fill(0);
    out[at..key_at].copy_from_slice(&up_to_key(ns, tag));
    out[key_at..end].copy_from_slice(key);
    end
}
