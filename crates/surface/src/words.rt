//! Words: those of a fixed array, those that count, and words of the caller's own. The functions
//! over `W: Words` work on each of them.

ghost use Rattle.std.specs.Prelude.{◌≡◌, ◌+◌, ◌%◌, ◌^◌, ◌<◌, ◌≤◌, ◌==◌, length};
ghost use Rattle.std.specs.Prelude.{slice_index, slice_set, replicate, false};

use lk_words::{CountingWords, WordArray, Words};

/// Words of a caller's own: they pass each operation on, and remember whether one of them could
/// change a word.
#[derive(Drop)]
pub struct Watched<W: Words> {
    inner: W,
    written: bool,
}

impl<W: Words> Watched<W> {
    /// Wraps these words. None is written yet.
    pub fn new(inner: W) -> Watched<W>
        ensures { result ≡ record { inner = inner; written = false } }
    {
        Watched {
            inner,
            written: false,
        }
    }

    /// Whether an operation other than `read` was made.
    pub fn written(&self) -> bool
        ensures { result ≡ self.now.written }
    {
        self.written
    }
}

impl<W: Words> Words for Watched<W> {
    ghost list = { λ w. W.list w.inner };

    ghost width = { λ w. W.width w.inner };

    fn size(&self) -> usize {
        self.inner.size()
    }

    fn bits(&self) -> u8 {
        self.inner.bits()
    }

    fn read(&mut self, i: usize) -> u64 {
        self.inner.read(i)
    }

    fn write(&mut self, i: usize, v: u64) {
        self.written = true;
        self.inner.write(i, v);
    }

    fn swap(&mut self, i: usize, v: u64) -> u64 {
        self.written = true;
        self.inner.swap(i, v)
    }

    fn compare_and_swap(&mut self, i: usize, old: u64, new: u64) -> bool {
        self.written = true;
        self.inner.compare_and_swap(i, old, new)
    }

    fn fetch_and_add(&mut self, i: usize, d: u64) -> u64 {
        self.written = true;
        self.inner.fetch_and_add(i, d)
    }
}

/// Copies word `from` to word `to`, by a load and a store.
pub fn copy<W: Words>(words: &mut W, from: usize, to: usize)
    requires { (from < length (W.list words.old)) × (to < length (W.list words.old)) }
    ensures { W.list words.new
        ≡ slice_set (W.list words.old) to (slice_index (W.list words.old) from) }
{
    let found: u64 = words.read(from);
    words.write(to, found);
}

/// Claims a word for `owner`, and returns whether it was free, which is 0.
pub fn claim<W: Words>(words: &mut W, place: usize, owner: u64) -> bool
    requires place { place < length (W.list words.old) }
    requires fits { owner < 2 ^ W.width words.old }
    ensures { result ≡ (slice_index (W.list words.old) place == 0) }
{
    words.compare_and_swap(place, 0, owner)
}

/// Adds to a word, which wraps at its width, and returns what it was.
pub fn advance<W: Words>(words: &mut W, place: usize, by: u64) -> u64
    requires place { place < length (W.list words.old) }
    requires fits { by < 2 ^ W.width words.old }
    ensures changed { W.list words.new ≡ slice_set (W.list words.old) place
        ((slice_index (W.list words.old) place + by) % 2 ^ W.width words.old) }
    ensures width { W.width words.new ≡ W.width words.old }
{
    words.fetch_and_add(place, by)
}

/// Returns words of `bits` bits, all 0.
pub fn narrow(size: usize, bits: u8) -> WordArray
    requires { (size ≤ 129) × (2 ≤ bits) × (bits ≤ 64) }
    ensures { result ≡ (replicate size 0, bits) }
{
    WordArray::with_bits(size, bits)
}

/// Looks at a word, which is no operation of a thread.
pub fn look_at(words: &WordArray, place: usize) -> u64
    requires { place < length words.now.0 }
    ensures { result ≡ slice_index words.now.0 place }
{
    words.get(place)
}

/// Adds 3 to a word of two bits, in which sums wrap at 4, and then 2. It is 1 then.
pub fn wraps_at_four() -> u64
    ensures { result ≡ 1 }
{
    let mut words = narrow(1, 2);
    advance(&mut words, 0, 3);
    advance(&mut words, 0, 2);
    look_at(&words, 0)
}

/// Counts the operations of a copy, which are a load and a store.
pub fn operations_of_a_copy() -> u64
    ensures { result ≡ 2 }
{
    let mut words: CountingWords<WordArray> = CountingWords::new(WordArray::new(2));
    words.read(0);
    words.write(1, 0);
    words.count()
}
