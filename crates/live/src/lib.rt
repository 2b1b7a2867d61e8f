// Live words: sixty-four ids to a word, id g at bit g mod 64 of word g / 64, and live where the bit is 1.
#![tactic(auto)]

ghost use Rattle.std.specs.Prelude.{◌≡◌, ◌++◌, ◌-◌, ◌*◌, ◌/◌, ◌%◌, ◌≤◌, ◌<◌, length, take, drop};
ghost use Rattle.model.specs.TupleSet.{count};
ghost use Rattle.model.specs.LiveWords.{words_for, is_live, living_from, next_live, cleared, raised};
ghost use Rattle.live.specs.Words.{Copied};

pub mod ids; // the live ids, one after the other

// The words of 4,096 ids.
pub const WORDS: usize = 64;

pub type Words = [u64; WORDS];

// Is id g live.
pub fn is_live(words: &[u64], g: u16) -> bool
    requires { g < 64 * length words.now }
    ensures { result ≡ is_live words.now g }
{
    let w = words[(g / 64) as usize];
    (w >> (g % 64)) % 2 == 1
}

// Id g is dead, and every other bit of every word stays.
pub fn clear(words: &mut [u64], g: u16)
    requires { g < 64 * length words.old }
    ensures { words.new ≡ cleared g words.old }
{
    let i = (g / 64) as usize;
    words[i] = words[i] & !(1u64 << (g % 64));
}

// Id g is live, and every other bit of every word stays.
pub fn set(words: &mut [u64], g: u16)
    requires { g < 64 * length words.old }
    ensures { words.new ≡ raised g words.old }
{
    let i = (g / 64) as usize;
    words[i] = words[i] | (1u64 << (g % 64));
}

// How many ids below end are live in end's own word.
fn count_below(words: &[u64], end: u16) -> u16
    requires { end ≤ 64 * length words.now }
    ensures { result ≡ count (living_from (64 * (end / 64)) (end % 64) words.now) }
{
    let k = end % 64;
    if k == 0 {
        return 0;
    }
    u64::count_ones(words[(end / 64) as usize] % (1u64 << k)) as u16
}

// How many ids from start on and below end are live.
pub fn count(words: &[u64], start: u16, end: u16) -> u16
    requires { (start ≤ end) × (end ≤ 64 * length words.now) × (end ≤ 4096) }
    ensures { result ≡ count (living_from start (end - start) words.now) }
{
    let mut n: u16 = 0;
    for i in (start / 64) as usize..(end / 64) as usize {
        n += words[i].count_ones() as u16;
    }
    n + count_below(words, end) - count_below(words, start)
}

// The first live id from start on and below end; end if there is none.
pub fn next(words: &[u64], start: u16, end: u16) -> u16
    requires { (start ≤ end) × (end ≤ 64 * length words.now) × (end ≤ 4096) }
    ensures { result ≡ next_live words.now start end }
{
    let mut at = start;
    // stays a while: it goes on by whole words
    while at < end {
        let w = words[(at / 64) as usize] >> (at % 64);
        if w != 0 {
            let g = at + u64::trailing_zeros(w) as u16;
            return if g < end { g } else { end };
        }
        at = (at / 64 + 1) * 64;
    }
    end
}

// How many words the bits of n ids take.
pub fn words_for(n: u16) -> usize
    ensures { result ≡ words_for n }
{
    (n / 64) as usize + ((n % 64 + 63) / 64) as usize
}

// The first n words, and noughts behind them.
pub fn copied(words: &[u64], n: usize) -> Words
    requires { (n ≤ 64) × (n ≤ length words.now) }
    ensures { Copied n words.now result }
{
    let mut copy = [0; WORDS];
    copy[..n].copy_from_slice(&words[..n]);
    copy
}

// The first n words are those of the copy, and all others stay. By a loop of its own: a slice's method would be a call of memmove in support,
// and the archive for C needs memcpy and memset alone.
pub fn put_back(copy: &Words, words: &mut [u64], n: usize)
    requires { (length copy.now ≡ 64) × ((n ≤ 64) × (n ≤ length words.old)) }
    ensures { words.new ≡ take n copy.now ++ drop n words.old }
{
    for i in 0..n {
        words[i] = copy[i];
    }
}
