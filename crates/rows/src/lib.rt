// The work of constraints and values on lent slices: the polynomials and values of all rows, and the masked witness.
// No branch and no index depends on positions, offsets, bits or numbers.
#![tactic(auto)]

ghost use Rattle.std.specs.Prelude.{◌≡◌, cond, List, ℕ, ◌+◌, ◌*◌, ◌^◌, ◌<◌, ◌≤◌, length, get_or};
ghost use Rattle.lists.specs.Words.{put};
ghost use Rattle.field.specs.Binary.{xor};
ghost use Rattle.field.specs.Level.{level_at, K};
ghost use Rattle.field.specs.Word.{odd, Words};
ghost use Rattle.row.specs.Lists.{tab};
ghost use Rattle.row.specs.Elements.{el, Fits, Bits, value_of, Held};
ghost use Rattle.row.specs.Polynomial.{digit, z, value};
ghost use Rattle.row.specs.Step.{Step, Shared};
ghost use Rattle.row.specs.Lent.{small_of, entry_of};
ghost use Rattle.rows.specs.Outcome.{polynomials, Tops, values, masked_witness};

use field::Element;
use row::equations::{Equations, Matrix};
use row::{elements, products, sums};

// Adds row i's share to the n + m polynomials. The row's offsets stand from element at on; work takes its products.
fn row(
    dst: &mut [u16],
    matrix: &Matrix<'_>,
    i: usize,
    position: u64,
    offsets: &[u16],
    at: usize,
    work: &mut [u16],
)
    requires words { Words (level_at matrix.now.level) dst.old × Words (level_at matrix.now.level) work.old × Words (level_at matrix.now.level) offsets.now }
    requires d_bound { (matrix.now.d < 64) × (i < matrix.now.n) × Fits (level_at matrix.now.level) ((matrix.now.d + 1) * matrix.now.n + (matrix.now.d + 1) * matrix.now.m) (length dst.old) × Fits (level_at matrix.now.level) (at + matrix.now.d) (length offsets.now) × Fits (level_at matrix.now.level) ((matrix.now.d + 1) * 2 ^ matrix.now.d) (length work.old) }
    ensures { Step (level_at matrix.now.level) dst.old dst.new (λ f g. Shared (K (level_at matrix.now.level)) f g matrix.now.n matrix.now.m (matrix.now.d + 1) (z (K (level_at matrix.now.level)) matrix.now.d (digit matrix.now.d position) (λ k. el (level_at matrix.now.level) offsets.now (at + k))) (small_of (level_at matrix.now.level) matrix.now.x.now) (λ e. entry_of (level_at matrix.now.level) matrix.now.n matrix.now.h.now e i)) × Words (level_at matrix.now.level) work.new }
{
    let d = matrix.d;
    products::tree(work, position, offsets, at, d, matrix.level);
    sums::share(dst, work, d + 1, matrix, i);
}

// The n + m polynomials. work is room for the products of one row: (d + 1) 2^d elements.
pub fn polynomials(
    dst: &mut [u16],
    key: &Equations<'_>,
    positions: &[u8],
    offsets: &[u16],
    work: &mut [u16],
)
    requires words { Words (level_at key.now.matrix.level) offsets.now × (0 < (level_at key.now.matrix.level).coordinates) × (key.now.matrix.d < 64) }
    requires positions_len { (length positions.now ≡ key.now.matrix.n) × (length offsets.now ≡ (level_at key.now.matrix.level).coordinates * (key.now.matrix.d * key.now.matrix.n)) × (length dst.old ≡ (level_at key.now.matrix.level).coordinates * ((key.now.matrix.d + 1) * (key.now.matrix.n + key.now.matrix.m))) × Fits (level_at key.now.matrix.level) ((key.now.matrix.d + 1) * 2 ^ key.now.matrix.d) (length work.old) }
    ensures { dst.new ≡ polynomials (level_at key.now.matrix.level) key.now.matrix.n key.now.matrix.m key.now.matrix.d key.now.matrix.h.now key.now.matrix.x.now key.now.y.now positions.now offsets.now }
{
    let matrix = &key.matrix;
    let Matrix { n, m, d, level, .. } = *matrix;
    row::clear(dst);
    row::clear(work);
    for (i, &position) in positions.iter().enumerate() {
        let position = u64::from(position);
        row(dst, matrix, i, position, offsets, d * i, work);
    }
    sums::tops(dst, n, m, d + 1, d, Element::one(level), key.y, level);
}

// Adds row i's share to the n + m coefficients of X^d. work takes those of its products.
fn top_row(dst: &mut [u16], matrix: &Matrix<'_>, i: usize, position: u64, work: &mut [u16])
    requires words { Words (level_at matrix.now.level) dst.old × Words (level_at matrix.now.level) work.old }
    requires d_bound { (matrix.now.d < 64) × (i < matrix.now.n) × Fits (level_at matrix.now.level) (1 * matrix.now.n + 1 * matrix.now.m) (length dst.old) × Fits (level_at matrix.now.level) (2 ^ matrix.now.d) (length work.old) }
    ensures { Step (level_at matrix.now.level) dst.old dst.new (λ f g. (v : ℕ → (K (level_at matrix.now.level)).Carrier) → Shared (K (level_at matrix.now.level)) f g matrix.now.n matrix.now.m 1 (λ j k. z (K (level_at matrix.now.level)) matrix.now.d (digit matrix.now.d position) v j matrix.now.d) (small_of (level_at matrix.now.level) matrix.now.x.now) (λ e. entry_of (level_at matrix.now.level) matrix.now.n matrix.now.h.now e i)) × Words (level_at matrix.now.level) work.new }
{
    products::top_tree(work, position, matrix.d, matrix.level);
    sums::share(dst, work, 1, matrix, i);
}

// The coefficients of X^d of the n + m polynomials, without any product: they are the same for all offsets.
// work is room for the coefficients of one row: 2^d elements.
pub fn tops(dst: &mut [u16], key: &Equations<'_>, positions: &[u8], work: &mut [u16])
    requires { (key.now.matrix.d < 64) × (length positions.now ≡ key.now.matrix.n) × Fits (level_at key.now.matrix.level) (key.now.matrix.n + key.now.matrix.m) (length dst.old) × Fits (level_at key.now.matrix.level) (2 ^ key.now.matrix.d) (length work.old) }
    ensures { Step (level_at key.now.matrix.level) dst.old dst.new (λ f g. (v : List ℕ) → Tops (level_at key.now.matrix.level) key.now.matrix.n key.now.matrix.m key.now.matrix.d key.now.matrix.h.now key.now.matrix.x.now key.now.y.now positions.now v g) }
{
    let matrix = &key.matrix;
    let Matrix { n, m, level, .. } = *matrix;
    row::clear(dst);
    row::clear(work);
    for (i, &position) in positions.iter().enumerate() {
        let position = u64::from(position);
        top_row(dst, matrix, i, position, work);
    }
    sums::tops(dst, n, m, 1, 0, Element::one(level), key.y, level);
}

// Adds row i's share to the n + m values. The row's bits and numbers stand from at on; work takes its products.
fn value_row(
    dst: &mut [u16],
    matrix: &Matrix<'_>,
    i: usize,
    bits: &[u8],
    numbers: &[u16],
    at: usize,
    delta: Element,
    work: &mut [u16],
)
    requires words { Words (level_at matrix.now.level) dst.old × Words (level_at matrix.now.level) work.old × Words (level_at matrix.now.level) numbers.now × Bits bits.now × Held (level_at matrix.now.level) delta.words }
    requires n_bound { (i < matrix.now.n) × Fits (level_at matrix.now.level) (1 * matrix.now.n + 1 * matrix.now.m) (length dst.old) × Fits (level_at matrix.now.level) (at + matrix.now.d) (length numbers.now) × (at + matrix.now.d ≤ length bits.now) × Fits (level_at matrix.now.level) (2 ^ matrix.now.d) (length work.old) }
    ensures { Step (level_at matrix.now.level) dst.old dst.new (λ f g. Shared (K (level_at matrix.now.level)) f g matrix.now.n matrix.now.m 1 (λ j k. value (K (level_at matrix.now.level)) matrix.now.d (λ e. odd (get_or bits.now (at + e) 0)) (λ e. el (level_at matrix.now.level) numbers.now (at + e)) (value_of (level_at matrix.now.level) delta.words) j) (small_of (level_at matrix.now.level) matrix.now.x.now) (λ e. entry_of (level_at matrix.now.level) matrix.now.n matrix.now.h.now e i)) × Words (level_at matrix.now.level) work.new }
{
    products::value_tree(work, bits, numbers, at, matrix.d, delta, matrix.level);
    sums::share(dst, work, 1, matrix, i);
}

// The n + m values. work is room for the products of one row: 2^d elements.
pub fn values(
    dst: &mut [u16],
    key: &Equations<'_>,
    bits: &[u8],
    numbers: &[u16],
    delta: &[u16],
    work: &mut [u16],
)
    requires words { Words (level_at key.now.matrix.level) numbers.now × Words (level_at key.now.matrix.level) delta.now × Bits bits.now × (0 < (level_at key.now.matrix.level).coordinates) }
    requires bits_len { (length bits.now ≡ key.now.matrix.d * key.now.matrix.n) × (length numbers.now ≡ (level_at key.now.matrix.level).coordinates * (key.now.matrix.d * key.now.matrix.n)) × (length delta.now ≡ (level_at key.now.matrix.level).coordinates) × (length dst.old ≡ (level_at key.now.matrix.level).coordinates * (key.now.matrix.n + key.now.matrix.m)) × Fits (level_at key.now.matrix.level) (2 ^ key.now.matrix.d) (length work.old) }
    ensures { dst.new ≡ values (level_at key.now.matrix.level) key.now.matrix.n key.now.matrix.m key.now.matrix.d key.now.matrix.h.now key.now.matrix.x.now key.now.y.now bits.now numbers.now delta.now }
{
    let matrix = &key.matrix;
    let Matrix { n, m, d, level, .. } = *matrix;
    row::clear(dst);
    row::clear(work);
    let challenge = elements::get(delta, 0, level);
    for i in 0..n {
        let at = d * i;
        value_row(dst, matrix, i, bits, numbers, at, challenge, work);
    }
    let power = products::raised(challenge, d, level);
    sums::tops(dst, n, m, 1, 0, power, key.y, level);
}

// A row of the masked witness, written to t from place at on: its bits u stand there too.
fn masked_row(t: &mut [u8], u: &[u8], at: usize, position: u64, d: usize)
    requires { Bits u.now × (d < 64) × (at + d ≤ length u.now) × (at + d ≤ length t.old) }
    ensures { t.new ≡ put at (tab d (λ k. cond (xor (digit d position k) (odd (get_or u.now (at + k) 0))) 1 0)) t.old }
{
    for k in 0..d {
        let digit = ((position >> (d - 1 - k)) % 2) as u8;
        t[at + k] = digit ^ u[at + k];
    }
}

// The masked witness: each digit of each position, highest first, exclusive-or its bit u.
pub fn masked_witness(t: &mut [u8], positions: &[u8], u: &[u8], n: usize, d: usize)
    requires { Bits u.now × (d < 64) × (length positions.now ≡ n) × (length u.now ≡ d * n) × (length t.old ≡ d * n) }
    ensures { t.new ≡ masked_witness n d positions.now u.now }
{
    for (i, &position) in positions.iter().enumerate() {
        masked_row(t, u, d * i, u64::from(position), d);
    }
}
