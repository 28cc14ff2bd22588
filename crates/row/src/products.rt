// The products of a row's factors for every column, in place: each prefix of digits is multiplied once.
ghost use Rattle.std.specs.Prelude.{◌≡◌, not, ℕ, ◌+◌, ◌*◌, ◌^◌, ◌<◌, ◌≤◌, length, get_or};
ghost use Rattle.field.specs.Binary.{bit};
ghost use Rattle.field.specs.Level.{level_at, K};
ghost use Rattle.field.specs.Word.{odd, Words};
ghost use Rattle.field.specs.Packed.{Holds, Multiplies};
ghost use Rattle.row.specs.Elements.{el, Fits, Bits, value_of, Held, Tabled};
ghost use Rattle.row.specs.Polynomial.{digit, z, value, raise};
ghost use Rattle.row.specs.Step.{Step, PutTwo, Factored, Doubled, Twofold};

use crate::elements;
use field::{Element, Multiples};

// Writes x plus the complement of w times y as element a, and x plus w times y as element b.
fn put_both(buf: &mut [u16], a: usize, b: usize, x: Element, y: Element, w: u64, level: usize)
    requires { Words (level_at level) buf.old × Held (level_at level) x.words × Held (level_at level) y.words × (w < 2) × (a < b) × Fits (level_at level) (b + 1) (length buf.old) }
    ensures { (u v : (K (level_at level)).Carrier) → Holds (level_at level) x.words u → Holds (level_at level) y.words v → Step (level_at level) buf.old buf.new (λ f g. PutTwo f g a ((K (level_at level)).add u ((K (level_at level)).mul (bit (K (level_at level)) (not (odd w))) v)) b ((K (level_at level)).add u ((K (level_at level)).mul (bit (K (level_at level)) (odd w)) v))) }
{
    let complement = 1 - w;
    let low = x.plus(y.masked(complement, level), level);
    let high = x.plus(y.masked(w, level), level);
    elements::put_two(buf, a, low, b, high, level);
}

// The polynomial of s coefficients at element a becomes its product with the complement of w times X plus v, at a,
// and with w times X plus v, at b, for the table of v's multiples. One product with v serves both.
fn split(buf: &mut [u16], a: usize, b: usize, s: usize, w: u64, multiples: Multiples, level: usize)
    requires { Words (level_at level) buf.old × Tabled (level_at level) multiples × (w < 2) × (a + s < b) × Fits (level_at level) (b + s + 1) (length buf.old) }
    ensures { (y : (K (level_at level)).Carrier) → Multiplies (level_at level) multiples y → Step (level_at level) buf.old buf.new (λ f g. Factored (K (level_at level)) f g a b s (odd w) y (s + 1)) }
{
    let mut carry = Element::zero(level);
    for e in 0..s {
        let old = elements::get(buf, a + e, level);
        put_both(
            buf,
            a + e,
            b + e,
            multiples.times(old, level),
            carry,
            w,
            level,
        );
        carry = old;
    }
    put_both(buf, a + s, b + s, Element::zero(level), carry, w, level);
}

// The first h rows of n elements, polynomials of s coefficients, become the first 2 h: each product of its row with either factor.
fn double(buf: &mut [u16], n: usize, h: usize, s: usize, w: u64, multiples: Multiples, level: usize)
    requires { Words (level_at level) buf.old × Tabled (level_at level) multiples × (w < 2) × (s < n) × Fits (level_at level) (n * h + n * h) (length buf.old) }
    ensures { (y : (K (level_at level)).Carrier) → Multiplies (level_at level) multiples y → Step (level_at level) buf.old buf.new (λ f g. Doubled (K (level_at level)) f g n h s (odd w) y h) }
{
    let half = n * h;
    for p in 0..h {
        let a = n * p;
        split(buf, a, a + half, s, w, multiples, level);
    }
}

// z of a row for every column, d + 1 coefficients each. The row's offsets stand from element at on.
pub fn tree(buf: &mut [u16], position: u64, offsets: &[u16], at: usize, d: usize, level: usize)
    requires { Words (level_at level) buf.old × Words (level_at level) offsets.now × (d < 64) × Fits (level_at level) ((d + 1) * 2 ^ d) (length buf.old) × Fits (level_at level) (at + d) (length offsets.now) }
    ensures { Step (level_at level) buf.old buf.new (λ f g. (j : ℕ) → j < 2 ^ d → (k : ℕ) → k < d + 1 → g ((d + 1) * j + k) ≡ z (K (level_at level)) d (digit d position) (λ i. el (level_at level) offsets.now (at + i)) j k) }
{
    elements::put(buf, 0, Element::one(level), level);
    let mut h: usize = 1;
    for t in 0..d {
        let w = (position >> t) % 2;
        let v = elements::get(offsets, at + (d - 1 - t), level);
        let multiples = Multiples::of(v, level);
        double(buf, d + 1, h, t + 1, w, multiples, level);
        h += h;
    }
}

// The first h elements become the first 2 h: each product with a, and then each product with b.
fn twin(buf: &mut [u16], h: usize, a: Element, b: Element, level: usize)
    requires { Words (level_at level) buf.old × Held (level_at level) a.words × Held (level_at level) b.words × Fits (level_at level) (h + h) (length buf.old) }
    ensures { Step (level_at level) buf.old buf.new (λ f g. Twofold (K (level_at level)) f g h (value_of (level_at level) a.words) (value_of (level_at level) b.words) h) }
{
    let low = Multiples::of(a, level);
    let high = Multiples::of(b, level);
    for p in 0..h {
        let old = elements::get(buf, p, level);
        elements::put_two(
            buf,
            p,
            low.times(old, level),
            p + h,
            high.times(old, level),
            level,
        );
    }
}

// The verifier's values of a row for every column. The row's bits and numbers stand from at on.
pub fn value_tree(
    buf: &mut [u16],
    bits: &[u8],
    numbers: &[u16],
    at: usize,
    d: usize,
    delta: Element,
    level: usize,
)
    requires { Words (level_at level) buf.old × Words (level_at level) numbers.now × Bits bits.now × Held (level_at level) delta.words × Fits (level_at level) (2 ^ d) (length buf.old) × Fits (level_at level) (at + d) (length numbers.now) × (at + d ≤ length bits.now) }
    ensures { Step (level_at level) buf.old buf.new (λ f g. (j : ℕ) → j < 2 ^ d → g j ≡ value (K (level_at level)) d (λ i. odd (get_or bits.now (at + i) 0)) (λ i. el (level_at level) numbers.now (at + i)) (value_of (level_at level) delta.words) j) }
{
    elements::put(buf, 0, Element::one(level), level);
    let mut h: usize = 1;
    for k in (at..at + d).rev() {
        let w = bits[k] as u64;
        let q = elements::get(numbers, k, level);
        let complement = 1 - w;
        let low = q.plus(delta.masked(complement, level), level);
        let high = q.plus(delta.masked(w, level), level);
        twin(buf, h, low, high, level);
        h += h;
    }
}

// The first h elements become the first 2 h: each times the complement of w, and then each times w.
fn fork(buf: &mut [u16], h: usize, w: u64, level: usize)
    requires { Words (level_at level) buf.old × (w < 2) × Fits (level_at level) (h + h) (length buf.old) }
    ensures { Step (level_at level) buf.old buf.new (λ f g. Twofold (K (level_at level)) f g h (bit (K (level_at level)) (not (odd w))) (bit (K (level_at level)) (odd w)) h) }
{
    let complement = 1 - w;
    for p in 0..h {
        let old = elements::get(buf, p, level);
        let low = old.masked(complement, level);
        elements::put_two(buf, p, low, p + h, old.masked(w, level), level);
    }
}

// The coefficient of X^d of z of a row for every column, whatever the offsets: 1 at the row's position, and 0 elsewhere.
pub fn top_tree(buf: &mut [u16], position: u64, d: usize, level: usize)
    requires { Words (level_at level) buf.old × (d < 64) × Fits (level_at level) (2 ^ d) (length buf.old) }
    ensures { Step (level_at level) buf.old buf.new (λ f g. (v : ℕ → (K (level_at level)).Carrier) → (j : ℕ) → j < 2 ^ d → g j ≡ z (K (level_at level)) d (digit d position) v j d) }
{
    elements::put(buf, 0, Element::one(level), level);
    let mut h: usize = 1;
    for t in 0..d {
        fork(buf, h, (position >> t) % 2, level);
        h += h;
    }
}

// delta to the power d.
pub fn raised(delta: Element, d: usize, level: usize) -> Element
    requires { Held (level_at level) delta.words }
    ensures { Holds (level_at level) result.words (raise (K (level_at level)) (value_of (level_at level) delta.words) d) }
{
    let multiples = Multiples::of(delta, level);
    let mut power = Element::one(level);
    for _ in 0..d {
        power = multiples.times(power, level);
    }
    power
}
