// A run of bytes that is items. That it is so is part of the type, so that each function here speaks of the items alone.
ghost use Rattle.std.specs.Prelude.{◌≡◌, true, false, MatchOption};
ghost use Rattle.rules.specs.Ttlv.{read_items};
ghost use Rattle.ttlv.specs.ItemList.{is_some};

#[derive(Clone, Copy)]
pub(crate) struct Run<'a> {
    pub bytes: &'a [u8],
    ghost sound: { is_some (read_items bytes.now) ≡ true },
}

// These bytes, if they are items.
pub(crate) fn run_of(bytes: &[u8]) -> Option<Run<'_>>
    ensures { MatchOption result (is_some (read_items bytes.now) ≡ false) (λ run. run.bytes.now ≡ bytes.now) }
{
    if ttlv::sound(bytes) {
        Some(Run { bytes })
    } else {
        None
    }
}
