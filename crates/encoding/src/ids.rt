// Ids as bytes: a list of any length, read where it lies.
ghost use Rattle.request.specs.Removal.{IdsOf};
ghost use Rattle.wire.specs.Entries.{entries16};

use live::WORDS;
use request::removal::{Ids, add};
use wire::Entry;

// The ids of a list.
pub fn ids_at(ids: &[u8]) -> Ids
    ensures { IdsOf result (entries16 ids.now) }
{
    let n = ids.len() / 2;
    let mut words = [0u64; WORDS];
    let mut bound = 0;
    for i in 0..n {
        bound = add(&mut words, bound, u16::at(ids, i));
    }
    Ids { words, bound }
}
