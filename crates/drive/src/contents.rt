// A KeyUID and a key that fit a slot.
ghost use Rattle.rules.specs.Slots.{FitKey};
ghost use Rattle.drive.specs.Contents.{contents};

#[derive(Clone, Copy)]
pub(crate) struct Contents<'a> {
    pub uid: &'a [u8],
    pub key: &'a [u8],
    ghost fits: { FitKey (contents uid.now key.now) },
}
