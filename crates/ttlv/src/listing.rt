// Items as numbers in lent places, in the order of their bytes.
ghost use Rattle.ttlv.specs.Places.{Listable, Laid};

use crate::walk::Walk;
use crate::{ITEM_PLACES, ReadError};

// Lays the items of sound bytes, and returns how many they are.
pub(crate) fn list(bytes: &[u8], places: &mut [u32]) -> Result<usize, ReadError>
    requires { Listable bytes.now places.old }
    ensures { Laid bytes.now places.old result places.new }
{
    let mut walk = Walk::new(bytes);
    // (d) The count is what is returned, and a `for` over the places would need a way out behind them.
    let mut count = 0;
    while let Some(found) = walk.next_item()? {
        let from = ITEM_PLACES * count;
        places[from..from + ITEM_PLACES].copy_from_slice(&found.numbers());
        count += 1;
    }
    Ok(count)
}
