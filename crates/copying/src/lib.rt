// Bytes and the numbers that they make, put into and read from lent slices.
#![tactic(auto)]

ghost use Rattle.std.specs.Prelude.{◌≡◌, ◌+◌, ◌*◌, ◌%◌, ◌≤◌, ◌<◌, length, take, get_or};
ghost use Rattle.lists.specs.Words.{put};
ghost use Rattle.copying.specs.Words.{word, words, word_bytes, from_bytes};

// The byte at place i, 0 past the end.
pub fn byte_at(s: &[u8], i: usize) -> usize
    ensures { (result ≡ get_or s.now i 0) × (result < 256) }
{
    usize::from(s.get(i).copied().unwrap_or(0))
}

// The number of two bytes at place i, highest byte first.
pub fn word_at(s: &[u8], i: usize) -> usize
    requires { i + 1 < length s.now }
    ensures { (result ≡ word s.now i) × (result < 65536) }
{
    usize::from(s[i]) * 256 + usize::from(s[i + 1])
}

// The number that bytes make, highest byte first: its lowest 32 bits, which are all of it for four bytes or fewer.
pub fn from_bytes(c: &[u8]) -> u32
    ensures { result ≡ from_bytes c.now % 4294967296 }
{
    let mut x = 0;
    for &b in c {
        x = x % 16777216 * 256 + u32::from(b);
    }
    x
}

// The numbers of two bytes of c, at the start of out, whose further words stay; answers how many.
pub fn words_into(c: &[u8], out: &mut [u16]) -> usize
    requires { length (words c.now) ≤ length out.old }
    ensures { (take result out.new ≡ words c.now) × (result ≤ length out.new) × (result ≡ length (take result out.new)) × (out.new ≡ put 0 (words c.now) out.old) }
{
    let n = c.len() / 2;
    for i in 0..n {
        out[i] = word_at(c, 2 * i) as u16;
    }
    n
}

// The bytes, from place at on; answers the place after them.
pub fn put_bytes(bytes: &[u8], at: usize, out: &mut [u8]) -> usize
    requires { at + length bytes.now ≤ length out.old }
    ensures { (out.new ≡ put at bytes.now out.old) × (result ≡ at + length bytes.now) }
{
    // A loop, as `copy_from_slice` would make the library for C need memmove.
    for (i, &b) in bytes.iter().enumerate() {
        out[at + i] = b;
    }
    at + bytes.len()
}

// Each word as two bytes, highest byte first, from place at on; answers the place after them.
pub fn put_words(words: &[u16], at: usize, out: &mut [u8]) -> usize
    requires { at + 2 * length words.now ≤ length out.old }
    ensures { (out.new ≡ put at (word_bytes words.now) out.old) × (result ≡ at + 2 * length words.now) }
{
    for (i, x) in words.iter().enumerate() {
        let [high, low] = x.to_be_bytes();
        let k = at + 2 * i;
        out[k] = high;
        out[k + 1] = low;
    }
    at + 2 * words.len()
}
