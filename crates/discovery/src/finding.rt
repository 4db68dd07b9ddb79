// The walk over the features behind the header.
ghost use Rattle.std.specs.Prelude.{◌≡◌, ◌+◌, ◌<◌, ◌++◌, true, false, length, MatchResult};
ghost use Rattle.rules.specs.Numbers.{head_size};
ghost use Rattle.rules.specs.Answers.{07·16};
ghost use Rattle.rules.specs.Fields.{byte};
ghost use Rattle.rules.specs.Discovery.{tper_code, key_per_io_code};
ghost use Rattle.rules.specs.Discovering.{features as features_of, runs_past};
ghost use Rattle.discovery.specs.Walking.{First};

use crate::Found;
use crate::reading::word;
use rules::{HEAD_SIZE, Refusal};

pub(crate) const TPER_CODE: u16 = 0x0001;

pub(crate) const KEY_PER_IO_CODE: u16 = 0x0305;

// The first of some features, and those behind it; 07 16 where its head or its length runs past the end.
fn split_first(features: &[u8]) -> Result<(&[u8], &[u8]), Refusal>
    ensures { MatchResult result
        (λ parts. (features.now ≡ parts.0.now ++ parts.1.now) × (length parts.0.now ≡ head_size + byte 3 parts.0.now))
        (λ refusal. (refusal ≡ 07·16) × (0 < length features.now → runs_past (features_of 0 features.now) ≡ true)) }
{
    let Some([_, _, _, length]) = features.first_chunk::<HEAD_SIZE>() else {
        return Err(Refusal::NotAResponse);
    };
    features
        .split_at_checked(HEAD_SIZE + usize::from(*length))
        .ok_or(Refusal::NotAResponse)
}

// The first feature of each of our two codes. Each feature takes 4 bytes or more, so that the walk ends.
pub(crate) fn find(features: &[u8]) -> Result<Found<'_>, Refusal>
    ensures { MatchResult result
        (λ found. (runs_past (features_of 0 features.now) ≡ false)
        × (First found.tper tper_code features.now × First found.key_per_io key_per_io_code features.now))
        (λ refusal. (refusal ≡ 07·16) × (runs_past (features_of 0 features.now) ≡ true)) }
{
    let mut tper = None;
    let mut key_per_io = None;
    let mut rest = features;
    while !rest.is_empty() {
        let (feature, behind) = split_first(rest)?;
        match word(feature, 0) {
            TPER_CODE => tper = tper.or(Some(feature)),
            KEY_PER_IO_CODE => key_per_io = key_per_io.or(Some(feature)),
            _ => {}
        }
        rest = behind;
    }
    Ok(Found { tper, key_per_io })
}
