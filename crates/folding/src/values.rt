// The weighted sum of the n + m values. Of the content of the slices only the bits, which are public, decide an index or a branch.
ghost use Rattle.std.specs.Prelude.{◌≡◌, ℕ, ◌+◌, ◌-◌, ◌*◌, ◌^◌, ◌<◌, ◌≤◌, length, get_or};
ghost use Rattle.field.specs.Level.{level_at, K};
ghost use Rattle.field.specs.Word.{odd, Words};
ghost use Rattle.field.specs.Packed.{Holds, Multiplies};
ghost use Rattle.row.specs.Elements.{el, Fits, Bits, Held, Tabled, value_of};
ghost use Rattle.row.specs.Lent.{small_of, entry_of, bit_of, element_of};
ghost use Rattle.row.specs.Polynomial.{sum, value, column_value, check_value};
ghost use Rattle.row.specs.Step.{Step, Put};
ghost use Rattle.folding.specs.Weights.{weighted_sum, leaf};
ghost use Rattle.folding.specs.Steps.{Folded, row_total};

use crate::{leaves, power};
use field::{Element, Multiples};
use row::equations::{Equations, Matrix};
use row::{elements, products, sums};

// The factor of a table times each of the first n elements of src, written to dst.
fn scale(dst: &mut [u16], multiples: Multiples, src: &[u16], n: usize, level: usize)
    requires { Words (level_at level) dst.old × Words (level_at level) src.now × Tabled (level_at level) multiples × Fits (level_at level) n (length dst.old) × Fits (level_at level) n (length src.now) }
    ensures { (y : (K (level_at level)).Carrier) → Multiplies (level_at level) multiples y → Step (level_at level) dst.old dst.new (λ f g. (j : ℕ) → j < n → g j ≡ (K (level_at level)).mul y (el (level_at level) src.now j)) }
{
    for j in 0..n {
        let old = elements::get(src, j, level);
        elements::put(dst, j, multiples.times(old, level), level);
    }
}

// The sum of the first n elements.
fn total(src: &[u16], n: usize, level: usize) -> Element
    requires { Words (level_at level) src.now × Fits (level_at level) n (length src.now) }
    ensures { Holds (level_at level) result.words (sum (K (level_at level)) n (el (level_at level) src.now)) }
{
    let mut all = Element::zero(level);
    for j in 0..n {
        all = all.plus(elements::get(src, j, level), level);
    }
    all
}

// Column p becomes the factor of a table times the sum of the columns p and p + h, plus last.
fn fold(work: &mut [u16], p: usize, h: usize, multiples: Multiples, last: Element, level: usize)
    requires { Words (level_at level) work.old × Fits (level_at level) (p + h + 1) (length work.old) }
    ensures { (y v : (K (level_at level)).Carrier) → Multiplies (level_at level) multiples y → Holds (level_at level) last.words v → Step (level_at level) work.old work.new (λ f g. Put f g p ((K (level_at level)).add ((K (level_at level)).mul y ((K (level_at level)).add (f p) (f (p + h)))) v)) }
{
    let low = elements::get(work, p, level);
    let high = elements::get(work, p + h, level);
    let product = multiples.times(low.plus(high, level), level);
    elements::put(work, p, product.plus(last, level), level);
}

// Folds h pairs of columns, h apart, into the first h, where delta times the column that the digit names stands in second.
fn first_digit(work: &mut [u16], second: &[u16], h: usize, multiples: Multiples, level: usize)
    requires { Words (level_at level) work.old × Words (level_at level) second.now × Tabled (level_at level) multiples × Fits (level_at level) (h + h) (length work.old) × Fits (level_at level) h (length second.now) }
    ensures { (y : (K (level_at level)).Carrier) → Multiplies (level_at level) multiples y → Step (level_at level) work.old work.new (λ f g. Folded (K (level_at level)) f g h y (el (level_at level) second.now) h) }
{
    for p in 0..h {
        let named = elements::get(second, p, level);
        fold(work, p, h, multiples, named, level);
    }
}

// Folds h pairs of columns, h apart, into the first h: the columns from place on are those that the digit names.
fn digit(
    work: &mut [u16],
    h: usize,
    place: usize,
    multiples: Multiples,
    delta: Multiples,
    level: usize,
)
    requires { Words (level_at level) work.old × Tabled (level_at level) multiples × Tabled (level_at level) delta × (place ≤ h) × Fits (level_at level) (h + h) (length work.old) }
    ensures { (y Δ : (K (level_at level)).Carrier) → Multiplies (level_at level) multiples y → Multiplies (level_at level) delta Δ → Step (level_at level) work.old work.new (λ f g. Folded (K (level_at level)) f g h y (λ p. (K (level_at level)).mul Δ (f (p + place))) h) }
{
    for p in 0..h {
        let named = elements::get(work, p + place, level);
        fold(work, p, h, multiples, delta.times(named, level), level);
    }
}

// The first 2^(d - 1) columns folded into one, a digit at a time. The row's bits and numbers stand from at on.
fn digits(
    work: &mut [u16],
    half: usize,
    bits: &[u8],
    numbers: &[u16],
    at: usize,
    d: usize,
    delta: Multiples,
    level: usize,
) -> Element
    requires { Words (level_at level) work.old × Words (level_at level) numbers.now × Bits bits.now × Tabled (level_at level) delta × (1 ≤ d) × (half ≡ 2 ^ (d - 1)) × Fits (level_at level) half (length work.old) × Fits (level_at level) (at + d) (length numbers.now) × (at + d ≤ length bits.now) }
    ensures { ((Δ : (K (level_at level)).Carrier) → Multiplies (level_at level) delta Δ → Holds (level_at level) result.words (row_total (K (level_at level)) d (λ k. odd (get_or bits.now (at + k) 0)) (λ k. el (level_at level) numbers.now (at + k)) Δ (el (level_at level) work.old) (d - 1))) × Words (level_at level) work.new }
{
    let mut h = half;
    for k in 1..d {
        h /= 2;
        let w = bits[at + k] as usize;
        let q = elements::get(numbers, at + k, level);
        digit(work, h, w * h, Multiples::of(q, level), delta, level);
    }
    elements::get(work, 0, level)
}

// The total of a row: the weight of each column times its value. The row's bits and numbers stand from at on; beta is the weight of its
// x', and scaled has delta times each of the first n elements of alpha.
fn row(
    matrix: &Matrix<'_>,
    bits: &[u8],
    numbers: &[u16],
    at: usize,
    delta: Multiples,
    alpha: &[u16],
    scaled: &[u16],
    beta: Element,
    work: &mut [u16],
    second: &mut [u16],
) -> Element
    requires words { Words (level_at matrix.now.level) numbers.now × Words (level_at matrix.now.level) alpha.now × Words (level_at matrix.now.level) scaled.now × Words (level_at matrix.now.level) work.old × Words (level_at matrix.now.level) second.old × Bits bits.now × Held (level_at matrix.now.level) beta.words × Tabled (level_at matrix.now.level) delta }
    requires le_d { (1 ≤ matrix.now.d) × Fits (level_at matrix.now.level) (at + matrix.now.d) (length numbers.now) × (at + matrix.now.d ≤ length bits.now) × Fits (level_at matrix.now.level) matrix.now.n (length alpha.now) × Fits (level_at matrix.now.level) matrix.now.n (length scaled.now) × Fits (level_at matrix.now.level) (2 ^ matrix.now.d) (length work.old) × Fits (level_at matrix.now.level) (2 ^ matrix.now.d) (length second.old) × ((Δ : (K (level_at matrix.now.level)).Carrier) → Multiplies (level_at matrix.now.level) delta Δ → (j : ℕ) → j < matrix.now.n → el (level_at matrix.now.level) scaled.now j ≡ (K (level_at matrix.now.level)).mul Δ (el (level_at matrix.now.level) alpha.now j)) }
    ensures { ((Δ : (K (level_at matrix.now.level)).Carrier) → Multiplies (level_at matrix.now.level) delta Δ → Holds (level_at matrix.now.level) result.words (sum (K (level_at matrix.now.level)) matrix.now.n (λ j. (K (level_at matrix.now.level)).mul (leaf (K (level_at matrix.now.level)) (el (level_at matrix.now.level) alpha.now) (small_of (level_at matrix.now.level) matrix.now.x.now) (value_of (level_at matrix.now.level) beta.words) j) (value (K (level_at matrix.now.level)) matrix.now.d (λ k. odd (get_or bits.now (at + k) 0)) (λ k. el (level_at matrix.now.level) numbers.now (at + k)) Δ j)))) × Words (level_at matrix.now.level) work.new × Words (level_at matrix.now.level) second.new }
{
    let Matrix { n, d, level, x, .. } = *matrix;
    let half = power(d - 1);
    let place = (bits[at] as usize) * half;
    let own = Multiples::of(beta, level);
    leaves::leaves(work, 1, 0, half + half, alpha, x, own, n, level);
    let product = Multiples::of(delta.times(beta, level), level);
    leaves::leaves(second, 1, place, half, scaled, x, product, n, level);
    let q = Multiples::of(elements::get(numbers, at, level), level);
    first_digit(work, second, half, q, level);
    digits(work, half, bits, numbers, at, d, delta, level)
}

// The sum of the totals of all rows: beta has the weight of each row's x'.
fn all_rows(
    matrix: &Matrix<'_>,
    bits: &[u8],
    numbers: &[u16],
    delta: Multiples,
    alpha: &[u16],
    scaled: &[u16],
    beta: &[u16],
    work: &mut [u16],
    second: &mut [u16],
) -> Element
    requires words { Words (level_at matrix.now.level) numbers.now × Words (level_at matrix.now.level) alpha.now × Words (level_at matrix.now.level) scaled.now × Words (level_at matrix.now.level) beta.now × Words (level_at matrix.now.level) work.old × Words (level_at matrix.now.level) second.old × Bits bits.now × Tabled (level_at matrix.now.level) delta }
    requires le_d { (1 ≤ matrix.now.d) × Fits (level_at matrix.now.level) (matrix.now.d * matrix.now.n) (length numbers.now) × (matrix.now.d * matrix.now.n ≤ length bits.now) × Fits (level_at matrix.now.level) matrix.now.n (length alpha.now) × Fits (level_at matrix.now.level) matrix.now.n (length scaled.now) × Fits (level_at matrix.now.level) matrix.now.n (length beta.now) × Fits (level_at matrix.now.level) (2 ^ matrix.now.d) (length work.old) × Fits (level_at matrix.now.level) (2 ^ matrix.now.d) (length second.old) × ((Δ : (K (level_at matrix.now.level)).Carrier) → Multiplies (level_at matrix.now.level) delta Δ → (j : ℕ) → j < matrix.now.n → el (level_at matrix.now.level) scaled.now j ≡ (K (level_at matrix.now.level)).mul Δ (el (level_at matrix.now.level) alpha.now j)) }
    ensures { (Δ : (K (level_at matrix.now.level)).Carrier) → Multiplies (level_at matrix.now.level) delta Δ → Holds (level_at matrix.now.level) result.words (sum (K (level_at matrix.now.level)) matrix.now.n (λ i. sum (K (level_at matrix.now.level)) matrix.now.n (λ j. (K (level_at matrix.now.level)).mul (leaf (K (level_at matrix.now.level)) (el (level_at matrix.now.level) alpha.now) (small_of (level_at matrix.now.level) matrix.now.x.now) (el (level_at matrix.now.level) beta.now i) j) (value (K (level_at matrix.now.level)) matrix.now.d (bit_of matrix.now.d bits.now i) (element_of (level_at matrix.now.level) matrix.now.d numbers.now i) Δ j)))) }
{
    let level = matrix.level;
    let mut all = Element::zero(level);
    for i in 0..matrix.n {
        let weight = elements::get(beta, i, level);
        let at = matrix.d * i;
        let share = row(
            matrix, bits, numbers, at, delta, alpha, scaled, weight, work, second,
        );
        all = all.plus(share, level);
    }
    all
}

// The sum of the n + m values, each times its element of alpha. The slices from beta on are room: n elements in the first two, 2^d in
// the others.
pub fn weighted(
    key: &Equations<'_>,
    bits: &[u8],
    numbers: &[u16],
    delta: &[u16],
    alpha: &[u16],
    beta: &mut [u16],
    scaled: &mut [u16],
    work: &mut [u16],
    second: &mut [u16],
) -> Element
    requires words { Words (level_at key.now.matrix.level) numbers.now × Words (level_at key.now.matrix.level) delta.now × Words (level_at key.now.matrix.level) alpha.now × Bits bits.now × (0 < (level_at key.now.matrix.level).coordinates) × (1 ≤ key.now.matrix.d) }
    requires bits_len { (length bits.now ≡ key.now.matrix.d * key.now.matrix.n) × (length numbers.now ≡ (level_at key.now.matrix.level).coordinates * (key.now.matrix.d * key.now.matrix.n)) × (length delta.now ≡ (level_at key.now.matrix.level).coordinates) × Fits (level_at key.now.matrix.level) (key.now.matrix.n + key.now.matrix.m) (length alpha.now) × Fits (level_at key.now.matrix.level) key.now.matrix.n (length beta.old) × Fits (level_at key.now.matrix.level) key.now.matrix.n (length scaled.old) × Fits (level_at key.now.matrix.level) (2 ^ key.now.matrix.d) (length work.old) × Fits (level_at key.now.matrix.level) (2 ^ key.now.matrix.d) (length second.old) }
    ensures { Holds (level_at key.now.matrix.level) result.words (weighted_sum (K (level_at key.now.matrix.level)) key.now.matrix.n key.now.matrix.m (el (level_at key.now.matrix.level) alpha.now) (column_value (K (level_at key.now.matrix.level)) key.now.matrix.n key.now.matrix.d (entry_of (level_at key.now.matrix.level) key.now.matrix.n key.now.matrix.h.now) (small_of (level_at key.now.matrix.level) key.now.matrix.x.now) (small_of (level_at key.now.matrix.level) key.now.y.now) (bit_of key.now.matrix.d bits.now) (element_of (level_at key.now.matrix.level) key.now.matrix.d numbers.now) (el (level_at key.now.matrix.level) delta.now 0)) (check_value (K (level_at key.now.matrix.level)) key.now.matrix.n key.now.matrix.d (entry_of (level_at key.now.matrix.level) key.now.matrix.n key.now.matrix.h.now) (small_of (level_at key.now.matrix.level) key.now.matrix.x.now) (small_of (level_at key.now.matrix.level) key.now.y.now) (bit_of key.now.matrix.d bits.now) (element_of (level_at key.now.matrix.level) key.now.matrix.d numbers.now) (el (level_at key.now.matrix.level) delta.now 0))) }
{
    let matrix = &key.matrix;
    let Matrix { n, m, d, level, .. } = *matrix;
    row::clear(scaled);
    row::clear(work);
    row::clear(second);
    let challenge = elements::get(delta, 0, level);
    let multiples = Multiples::of(challenge, level);
    leaves::multipliers(beta, matrix.h, alpha, n, m, level);
    scale(scaled, multiples, alpha, n, level);
    let shares = all_rows(
        matrix, bits, numbers, multiples, alpha, scaled, beta, work, second,
    );
    let power = products::raised(challenge, d, level);
    let columns = total(alpha, n, level);
    let checks = sums::mix(alpha, n, 1, 0, key.y, m, level);
    let tops = columns.plus(checks, level).times(power, level);
    shares.plus(tops, level)
}
