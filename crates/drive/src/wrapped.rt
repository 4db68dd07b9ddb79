// A load whose key comes wrapped: the key is opened where it lies in the frame, and then loaded as one that came in the clear.
ghost use Rattle.std.specs.Prelude.{◌≡◌, ℕ, ◌+◌, ◌≤◌, List, [], length, drop};
ghost use Rattle.cells.specs.Cells.{part, write, zeros};
ghost use Rattle.rules.specs.Numbers.{uid_most, wrapped_size, slots_size, cache_size};
ghost use Rattle.rules.specs.View.{view_of};
ghost use Rattle.rules.specs.Checks.{AllPass};
ghost use Rattle.rules.specs.Aes.{schedule_words};
ghost use Rattle.rules.specs.KeyWrap.{unwrap};
ghost use Rattle.rules.specs.Slots.{FitKey, FitWrapped};
ghost use Rattle.rules.specs.Frames.{contents_at};
ghost use Rattle.rules.specs.Order.{obeys, slot_checks, load as loadRule, load_wrapped as wrapped_rule};
ghost use Rattle.wrap.specs.Wrapping.{told};
ghost use Rattle.drive.specs.Acting.{state, after, Sound, replace_most, opened_at};

use crate::answers::locate;
use crate::contents::Contents;
use crate::keys;
use aes::SCHEDULE;
use rules::{Answer, KEY_SIZE, Namespace, Refusal, Registers, SLOTS_SIZE, Tag, WRAPPED_SIZE};
use wrap::VALUE_SIZE;

// Opens the wrapped key behind a KeyUID of l bytes.
fn open(keys: &[u8], f: &mut [u8], l: usize, words: &mut [u32; SCHEDULE]) -> bool
    requires { (length keys.now ≡ cache_size) × (l ≤ uid_most) × (5 + l + wrapped_size ≤ length f.old) }
    ensures { (result ≡ (told (unwrap (drop slots_size keys.now) (part (5 + l) wrapped_size f.old))).opened)
        × (f.new ≡ write (5 + l) wrapped_size
        (told (unwrap (drop slots_size keys.now) (part (5 + l) wrapped_size f.old))).bytes f.old)
        × (words.new ≡ zeros schedule_words) }
{
    let u = 5 + l;
    let e = u + WRAPPED_SIZE;
    wrap::unwrap(&keys[SLOTS_SIZE..], &mut f[u..e], words)
}

// Loads a key that was opened.
fn clear(
    registers: &Registers,
    keys: &mut [u8],
    f: &[u8],
    ns: Namespace,
    tag: Tag,
    l: usize,
) -> Answer
    requires { Sound registers.now keys.old × (FitKey (opened_at l f.now) × (l ≤ uid_most) × (5 + l + wrapped_size ≤ length f.now)) }
    ensures { (marks : List ℕ) → after result registers.now keys.new marks
        ≡ obeys (state registers.now keys.old marks)
        (λ v. loadRule v ns tag (opened_at l f.now)) }
{
    let u = 5 + l;
    let k = u + VALUE_SIZE;
    let e = k + KEY_SIZE;
    let x = Contents {
        uid: &f[5..u],
        key: &f[k..e],
    };
    keys::load(registers, keys, ns, tag, x)
}

// With the slot's checks passed: 07 10, then a load.
fn opened(
    registers: &Registers,
    keys: &mut [u8],
    f: &mut [u8],
    ns: Namespace,
    tag: Tag,
    l: usize,
    words: &mut [u32; SCHEDULE],
) -> Answer
    requires { Sound registers.now keys.old × (FitWrapped (contents_at wrapped_size 5 l f.old) × (5 + l + wrapped_size ≤ length f.old))
        × AllPass (slot_checks (view_of (state registers.now [] [])) ns tag) }
    ensures { ((marks : List ℕ) → after result registers.now keys.new marks
        ≡ obeys (state registers.now keys.old marks)
        (λ v. wrapped_rule v ns tag (contents_at wrapped_size 5 l f.old)))
        × (drop replace_most f.new ≡ drop replace_most f.old)
        × (words.new ≡ zeros schedule_words) }
{
    if !open(keys, f, l, words) {
        return Err(Refusal::IntegrityFailed);
    }
    clear(registers, keys, f, ns, tag, l)
}

// What is behind a frame's bytes stays, and the round keys are wiped.
pub(crate) fn load(
    registers: &Registers,
    keys: &mut [u8],
    f: &mut [u8],
    ns: Namespace,
    tag: Tag,
    l: usize,
    words: &mut [u32; SCHEDULE],
) -> Answer
    requires { Sound registers.now keys.old × (FitWrapped (contents_at wrapped_size 5 l f.old) × (5 + l + wrapped_size ≤ length f.old)) }
    ensures { ((marks : List ℕ) → after result registers.now keys.new marks
        ≡ obeys (state registers.now keys.old marks)
        (λ v. wrapped_rule v ns tag (contents_at wrapped_size 5 l f.old)))
        × (drop replace_most f.new ≡ drop replace_most f.old)
        × (words.old ≡ zeros schedule_words → words.new ≡ zeros schedule_words) }
{
    locate(registers, ns, tag)?;
    opened(registers, keys, f, ns, tag, l, words)
}
