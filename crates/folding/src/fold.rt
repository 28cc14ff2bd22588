// The sum of a row's polynomials, each with its weight. No branch and no index depends on position, offsets or weights.
ghost use Rattle.std.specs.Prelude.{◌≡◌, not, ℕ, ◌+◌, ◌*◌, ◌^◌, ◌<◌, length};
ghost use Rattle.field.specs.Binary.{bit};
ghost use Rattle.field.specs.Level.{level_at, K};
ghost use Rattle.field.specs.Word.{odd, Words};
ghost use Rattle.field.specs.Packed.{Holds, Multiplies};
ghost use Rattle.row.specs.Elements.{el, Fits, Tabled};
ghost use Rattle.row.specs.Polynomial.{sum, digit, z};
ghost use Rattle.row.specs.Step.{Step};
ghost use Rattle.folding.specs.Steps.{Joined, Halved};

use crate::power;
use field::{Element, Multiples};
use row::elements;

// x where w is 0, and y where it is 1.
fn chosen(x: Element, y: Element, w: u64, level: usize) -> Element
    requires { w < 2 }
    ensures { (a b : (K (level_at level)).Carrier) → Holds (level_at level) x.words a → Holds (level_at level) y.words b → Holds (level_at level) result.words ((K (level_at level)).add ((K (level_at level)).mul (bit (K (level_at level)) (not (odd w))) a) ((K (level_at level)).mul (bit (K (level_at level)) (odd w)) b)) }
{
    x.masked(1 - w, level).plus(y.masked(w, level), level)
}

// The polynomials of s coefficients at elements a and b become one of s + 1 at a: the first times the complement of w times X plus v,
// plus the second times w times X plus v, where v is the factor of the table. One product with v serves both.
fn join(buf: &mut [u16], a: usize, b: usize, s: usize, w: u64, multiples: Multiples, level: usize)
    requires { Words (level_at level) buf.old × Tabled (level_at level) multiples × (w < 2) × (a + s < b) × Fits (level_at level) (b + s) (length buf.old) }
    ensures { (y : (K (level_at level)).Carrier) → Multiplies (level_at level) multiples y → Step (level_at level) buf.old buf.new (λ f g. Joined (K (level_at level)) f g a b s (odd w) y (s + 1)) }
{
    let mut carry = Element::zero(level);
    for e in 0..s {
        let x = elements::get(buf, a + e, level);
        let y = elements::get(buf, b + e, level);
        let product = multiples.times(x.plus(y, level), level);
        elements::put(buf, a + e, product.plus(carry, level), level);
        carry = chosen(x, y, w, level);
    }
    elements::put(buf, a + s, carry, level);
}

// The first 2 h rows of n elements, polynomials of s coefficients, become the first h, of s + 1: each row with the one h rows on.
fn halve(buf: &mut [u16], n: usize, h: usize, s: usize, w: u64, multiples: Multiples, level: usize)
    requires { Words (level_at level) buf.old × Tabled (level_at level) multiples × (w < 2) × (s < n) × Fits (level_at level) (n * h + n * h) (length buf.old) }
    ensures { (y : (K (level_at level)).Carrier) → Multiplies (level_at level) multiples y → Step (level_at level) buf.old buf.new (λ f g. Halved (K (level_at level)) f g n h s (odd w) y h) }
{
    let half = n * h;
    for p in 0..h {
        let a = n * p;
        join(buf, a, a + half, s, w, multiples, level);
    }
}

// The sum of z of a row over all columns, each times its weight: the weight of column j stands at element (d + 1) j, the d + 1
// coefficients of the sum are left at the first elements. The row's offsets stand from element at on.
pub fn fold(buf: &mut [u16], position: u64, offsets: &[u16], at: usize, d: usize, level: usize)
    requires { Words (level_at level) buf.old × Words (level_at level) offsets.now × (d < 64) × Fits (level_at level) ((d + 1) * 2 ^ d) (length buf.old) × Fits (level_at level) (at + d) (length offsets.now) }
    ensures { Step (level_at level) buf.old buf.new (λ f g. (k : ℕ) → k < d + 1 → g k ≡ sum (K (level_at level)) (2 ^ d) (λ j. (K (level_at level)).mul (f ((d + 1) * j)) (z (K (level_at level)) d (digit d position) (λ i. el (level_at level) offsets.now (at + i)) j k))) }
{
    for i in 0..d {
        let t = d - 1 - i;
        let w = (position >> t) % 2;
        let v = elements::get(offsets, at + i, level);
        let multiples = Multiples::of(v, level);
        halve(buf, d + 1, power(t), i + 1, w, multiples, level);
    }
}
