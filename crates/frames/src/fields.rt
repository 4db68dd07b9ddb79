// Numbers in a frame's bytes, the lowest byte first, and the fields of an I/O command.
ghost use Rattle.std.specs.Prelude.{◌≡◌, [], ◌∷◌, length};
ghost use Rattle.rules.specs.State.{namespace, key_tag};
ghost use Rattle.rules.specs.Fields.{little};
ghost use Rattle.rules.specs.Frames.{command_of};

use rules::{Command, Namespace, Tag};

// A command's bytes.
pub(crate) const COMMAND: usize = 64;

// A namespace of one byte, as every kind but I/O has it.
pub(crate) fn namespace_of(b: u8) -> Namespace
    ensures { result ≡ namespace b }
{
    Namespace(u32::from(b))
}

// A tag of two bytes.
pub(crate) fn tag_of(low: u8, high: u8) -> Tag
    ensures { result ≡ key_tag (little (low ∷ high ∷ [])) }
{
    Tag(u16::from_le_bytes([low, high]))
}

// The fields of a command. CETYPE is bits 19:16 of Dword 12.
pub(crate) fn command(c: &[u8]) -> Command
    requires { length c.now ≡ 64 }
    ensures { result ≡ command_of c.now }
{
    let dword12 = u32::from_le_bytes([c[48], c[49], c[50], c[51]]);
    Command {
        opcode: c[0],
        ns: Namespace(u32::from_le_bytes([c[4], c[5], c[6], c[7]])),
        first: u64::from_le_bytes([c[40], c[41], c[42], c[43], c[44], c[45], c[46], c[47]]),
        more: u16::from_le_bytes([c[48], c[49]]),
        cetype: (dword12 >> 16) & 15,
        tag: tag_of(c[52], c[53]),
    }
}
