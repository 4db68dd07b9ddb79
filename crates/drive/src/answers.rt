// What several kinds begin with: the namespace, its tag count, the place of a tag.
ghost use Rattle.std.specs.Prelude.{◌≡◌, ◌-◌, [], slice_set};
ghost use Rattle.rules.specs.State.{IsNamespace, no_namespace, count as count_of};
ghost use Rattle.drive.specs.Acting.{state, counted, placed, located};

use rules::{NAMESPACES, Namespace, Refusal, Registers, TAGS_MOST, Tag};

pub(crate) fn no_namespace(ns: Namespace) -> bool
    ensures { result ≡ no_namespace ns }
{
    let n = ns.0 as usize;
    n < 1 || n > NAMESPACES
}

pub(crate) fn count(registers: &Registers, ns: Namespace) -> u8
    requires { IsNamespace ns }
    ensures { result ≡ count_of (state registers.now [] []) ns }
{
    registers.counts[ns.0 as usize - 1]
}

pub(crate) fn set_count(registers: &mut Registers, ns: Namespace, tags: u8)
    requires { IsNamespace ns }
    ensures { registers.new ≡ record { counts = slice_set registers.old.counts (ns.0 - 1) tags; locks = registers.old.locks } }
{
    registers.counts[ns.0 as usize - 1] = tags;
}

// The tag count of a namespace that is managed: 00 0B, 07 06.
pub(crate) fn managed(registers: &Registers, ns: Namespace) -> Result<u8, Refusal>
    ensures { result ≡ counted (state registers.now [] []) ns }
{
    if no_namespace(ns) {
        return Err(Refusal::InvalidNamespace);
    }
    match count(registers, ns) {
        0 => Err(Refusal::NotManaged),
        n => Ok(n),
    }
}

// The place of a tag in a namespace with n tags: the one place where it is computed.
pub(crate) fn place(n: u8, ns: Namespace, tag: Tag) -> Result<usize, Refusal>
    requires { IsNamespace ns }
    ensures { result ≡ placed n ns tag }
{
    let t = usize::from(tag.0);
    if t >= usize::from(n) {
        return Err(Refusal::InvalidKeyTag);
    }
    Ok((ns.0 as usize - 1) * TAGS_MOST + t)
}

pub(crate) fn locate(registers: &Registers, ns: Namespace, tag: Tag) -> Result<usize, Refusal>
    ensures { result ≡ located (state registers.now [] []) ns tag }
{
    let n = managed(registers, ns)?;
    place(n, ns, tag)
}
