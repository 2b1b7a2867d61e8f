// The queue (document 01: the waiting list): the pairs of combination and member that wait for a visit, each at most once.
ghost use Rattle.std.specs.Prelude.{◌≡◌, cond, ℕ, ◌+◌, ◌≤◌, ◌<◌, ltb, length};
ghost use Rattle.model.specs.Limits.{max_pairs};
ghost use Rattle.model.specs.LiveWords.{is_live, next_live, cleared, raised};
ghost use Rattle.layout.specs.Setting.{Whole};
ghost use Rattle.worklist.specs.Pairs.{WaitToo, others, queues};

use model::MAX_PAIRS;

// How many words 1,024 pairs take, a bit each.
pub const QUEUE_WORDS: usize = 16;

// A bit for each pair: 1 if it waits.
#[derive(Clone, Copy)]
pub struct Queue {
    pub words: [u64; QUEUE_WORDS],
}

// The lowest pair that waits, or 1,024 if there is none, and the queue without that pair.
#[derive(Clone, Copy)]
pub struct Taken {
    pub pair: u16,
    pub rest: Queue,
}

impl Queue {
    // The queue in which every pair below the given number waits.
    pub fn full(pairs: u16) -> Queue
        requires { pairs ≤ max_pairs }
        ensures { (q : ℕ) → q < max_pairs → is_live result.words q ≡ ltb q pairs }
    {
        let mut words = [0u64; QUEUE_WORDS];
        for pair in 0..pairs {
            live::set(&mut words, pair);
        }
        Queue { words }
    }

    // Adds pair p.
    pub fn put(self, p: u16) -> Queue
        requires { p < max_pairs }
        ensures { result.words ≡ raised p self.words }
    {
        let mut words = self.words;
        live::set(&mut words, p);
        Queue { words }
    }

    // Takes the lowest pair out.
    pub fn take(self) -> Taken
        ensures pair { result.pair ≡ next_live self.words 0 max_pairs }
        ensures rest { result.rest.words ≡ cond (ltb result.pair max_pairs) (cleared result.pair self.words) self.words }
    {
        let mut words = self.words;
        let pair = live::next(&words, 0, MAX_PAIRS);
        if pair < MAX_PAIRS {
            live::clear(&mut words, pair);
        }
        Taken {
            pair,
            rest: Queue { words },
        }
    }
}

// Of the m pairs from `base` on, adds each one whose member is another relation than r.
fn put_others(queue: Queue, members: &[u16], base: usize, m: usize, r: u16) -> Queue
    requires { (base + m ≤ length members.now) × (length members.now ≤ max_pairs) }
    ensures { WaitToo queue.words (others base (base + m) members.now r) result.words }
{
    let mut queue = queue;
    for q in base..base + m {
        if members[q] != r {
            queue = queue.put(q as u16);
        }
    }
    queue
}

// Relation members[p] has lost a tuple in pair p's combination. In every other combination that holds the relation, the pairs of the
// other members must be visited again, and are added.
pub fn requeue(queue: Queue, members: &[u16], m: u16, p: u16) -> Queue
    requires whole { Whole m members.now }
    requires p_in_bounds { p < length members.now }
    ensures { WaitToo queue.words (queues m members.now p) result.words }
{
    let m = m as usize;
    let p = p as usize;
    let r = members[p];
    let own = p / m * m;
    let mut queue = queue;
    for base in (0..members.len()).step_by(m) {
        if base != own && members[base..base + m].contains(&r) {
            queue = put_others(queue, members, base, m, r);
        }
    }
    queue
}
