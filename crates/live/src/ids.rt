// The live ids of a list of words, one after the other.
ghost use Rattle.std.specs.Prelude.{◌≡◌, ◌-◌, ◌*◌, ◌≤◌, length};
ghost use Rattle.std.specs.Iterator.{at_most};
ghost use Rattle.live.specs.Ids.{InWords, TakesLive};

use super::next;

// The live ids of the words from `at` on and below `end`, in their order.
#[derive(Clone, Copy)]
pub struct LiveIds<'a> {
    pub words: &'a [u64],
    pub at: u16,
    pub end: u16,
    ghost inside: { InWords words.now at end },
}

impl<'a> Iterator for LiveIds<'a> {
    type Item = u16;

    ghost next_gives = { λ s o t. TakesLive s.words.now s.at s.end o t.words.now t.at t.end };

    ghost remaining = { λ s. at_most (s.end - s.at) };

    fn next(&mut self) -> Option<u16> {
        let g = next(self.words, self.at, self.end);
        if g == self.end {
            return None;
        }
        self.at = g + 1;
        Some(g)
    }
}

// The live ids from start on and below end.
pub fn live_ids(words: &[u64], start: u16, end: u16) -> LiveIds
    requires { (start ≤ end) × (end ≤ 64 * length words.now) × (end ≤ 4096) }
    ensures words { result.words.now ≡ words.now }
    ensures start { result.at ≡ start }
    ensures end { result.end ≡ end }
{
    LiveIds {
        words,
        at: start,
        end,
    }
}
