// Lists of 16-bit, 32-bit and 64-bit numbers as little-endian bytes.
#![tactic(auto)]

ghost use Rattle.std.specs.Prelude.{◌≡◌, ℕ, ◌+◌, ◌*◌, ◌≤◌, ◌<◌, min, List, [], ◌∷◌, ◌++◌, length, take, drop, refl};
ghost use Rattle.std.proofs.Common.{lit<};
ghost use Rattle.wire.specs.Entries.{entry_at, entries, bytes, bytes_of, Filled};
ghost use Rattle.wire.specs.Laws.{entries_next};

// A number that a list of bytes holds as an entry of WIDTH bytes, the lowest byte first.
pub trait Entry: Copy {
    // How many bytes an entry has.
    const WIDTH: usize;

    ghost WIDTH: { ℕ };

    // Entry number i of a list of bytes, and its first n entries.
    ghost entry: { List ℕ → ℕ → Self };

    ghost front: { ℕ → List ℕ → List Self };

    // The bytes of an entry, and of a list of entries.
    ghost own_bytes: { Self → List ℕ };

    ghost list_bytes: { List Self → List ℕ };

    // Entry i of a list of entries.
    fn at(s: &[u8], i: usize) -> Self
        requires { WIDTH * i + WIDTH ≤ length s.now }
        ensures { result ≡ entry s.now i };

    // Writes the number as entry i of a list of entries.
    fn put(self, d: &mut [u8], i: usize)
        requires { WIDTH * i + WIDTH ≤ length d.old }
        ensures { d.new ≡ take (WIDTH * i) d.old ++ own_bytes self ++ drop (WIDTH * i + WIDTH) d.old };

    ghost has_bytes: { 0 < WIDTH };

    // The first entries are those before the last of them, and it.
    ghost front_none: { (s : List ℕ) → front 0 s ≡ [] };

    ghost front_next: { (n : ℕ) (s : List ℕ) → front (n + 1) s ≡ front n s ++ (entry s n ∷ []) };

    // The bytes of a list are those of its entries, one behind the other.
    ghost bytes_none: { list_bytes [] ≡ [] };

    ghost bytes_more: { (x : Self) (xs : List Self) → list_bytes (x ∷ xs) ≡ own_bytes x ++ list_bytes xs };

    ghost bytes_count: { (x : Self) → length (own_bytes x) ≡ WIDTH };
}

impl Entry for u16 {
    const WIDTH: usize = 2;

    ghost WIDTH = { 2 };

    ghost entry = { entry_at 2 };

    ghost front = { entries 2 };

    ghost own_bytes = { bytes_of 2 };

    ghost list_bytes = { bytes 2 };

    fn at(s: &[u8], i: usize) -> u16 {
        let a0 = 2 * i;
        let a1 = a0 + 1;
        u16::from(s[a0]) + 256 * u16::from(s[a1])
    }

    fn put(self, d: &mut [u8], i: usize) {
        let a0 = 2 * i;
        let a1 = a0 + 1;
        d[a0] = (self % 256) as u8;
        d[a1] = (self / 256 % 256) as u8;
    }

    ghost has_bytes = { lit< tt };

    ghost front_none = { λ s. refl };

    ghost front_next = { entries_next 2 };

    ghost bytes_none = { refl };

    ghost bytes_more = { λ x xs. refl };

    ghost bytes_count = { λ x. refl };
}

impl Entry for u32 {
    const WIDTH: usize = 4;

    ghost WIDTH = { 4 };

    ghost entry = { entry_at 4 };

    ghost front = { entries 4 };

    ghost own_bytes = { bytes_of 4 };

    ghost list_bytes = { bytes 4 };

    fn at(s: &[u8], i: usize) -> u32 {
        u32::from(u16::at(s, 2 * i)) + 65536 * u32::from(u16::at(s, 2 * i + 1))
    }

    fn put(self, d: &mut [u8], i: usize) {
        ((self % 65536) as u16).put(d, 2 * i);
        ((self / 65536) as u16).put(d, 2 * i + 1);
    }

    ghost has_bytes = { lit< tt };

    ghost front_none = { λ s. refl };

    ghost front_next = { entries_next 4 };

    ghost bytes_none = { refl };

    ghost bytes_more = { λ x xs. refl };

    ghost bytes_count = { λ x. refl };
}

impl Entry for u64 {
    const WIDTH: usize = 8;

    ghost WIDTH = { 8 };

    ghost entry = { entry_at 8 };

    ghost front = { entries 8 };

    ghost own_bytes = { bytes_of 8 };

    ghost list_bytes = { bytes 8 };

    fn at(s: &[u8], i: usize) -> u64 {
        u64::from(u32::at(s, 2 * i)) + 4294967296 * u64::from(u32::at(s, 2 * i + 1))
    }

    fn put(self, d: &mut [u8], i: usize) {
        ((self % 4294967296) as u32).put(d, 2 * i);
        ((self / 4294967296) as u32).put(d, 2 * i + 1);
    }

    ghost has_bytes = { lit< tt };

    ghost front_none = { λ s. refl };

    ghost front_next = { entries_next 8 };

    ghost bytes_none = { refl };

    ghost bytes_more = { λ x xs. refl };

    ghost bytes_count = { λ x. refl };
}

// The lesser of two numbers.
pub fn least(a: usize, b: usize) -> usize
    ensures { (result ≤ a) × (result ≤ b) × (result ≡ min a b) }
{
    if a < b { a } else { b }
}

// Decodes the entries of s to the front of d, as many as there is room for, and gives their number.
pub fn load<T: Entry>(s: &[u8], d: &mut [T]) -> usize
    ensures { Filled T.WIDTH T.front result s.now d.old d.new }
{
    let n = least(s.len() / T::WIDTH, d.len());
    for (i, x) in d[..n].iter_mut().enumerate() {
        *x = T::at(s, i);
    }
    n
}

// Writes the entries of s as the first bytes of d.
pub fn store<T: Entry>(s: &[T], d: &mut [u8])
    requires { T.WIDTH * length s.now ≤ length d.old }
    ensures { d.new ≡ T.list_bytes s.now ++ drop (T.WIDTH * length s.now) d.old }
{
    for (i, x) in s.iter().enumerate() {
        x.put(d, i);
    }
}
