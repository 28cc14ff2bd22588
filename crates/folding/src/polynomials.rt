// The weighted sum of the polynomials.
ghost use Rattle.std.specs.Prelude.{◌≡◌, ℕ, ◌+◌, ◌*◌, ◌^◌, ◌<◌, ◌≤◌, length};
ghost use Rattle.field.specs.Level.{level_at, K};
ghost use Rattle.field.specs.Word.{Words};
ghost use Rattle.row.specs.Elements.{el, Fits, value_of, Held};
ghost use Rattle.row.specs.Lent.{small_of, entry_of, digit_of, element_of};
ghost use Rattle.row.specs.Polynomial.{sum, digit, z, column, check};
ghost use Rattle.row.specs.Step.{Step, Added};
ghost use Rattle.folding.specs.Weights.{leaf, weighted_sum};

use crate::{fold, leaves, power};
use field::{Element, Multiples};
use row::equations::Matrix;
use row::{elements, sums};

// Adds a row's share to the first d coefficients: its columns with their weights, where x' has weight beta. The row's offsets stand from
// element at on.
fn row(
    dst: &mut [u16],
    matrix: &Matrix<'_>,
    alpha: &[u16],
    beta: Element,
    position: u64,
    offsets: &[u16],
    at: usize,
    work: &mut [u16],
)
    requires words { Words (level_at matrix.now.level) dst.old × Words (level_at matrix.now.level) work.old × Words (level_at matrix.now.level) offsets.now × Words (level_at matrix.now.level) alpha.now × Held (level_at matrix.now.level) beta.words }
    requires d_bound { (matrix.now.d < 64) × Fits (level_at matrix.now.level) matrix.now.n (length alpha.now) × Fits (level_at matrix.now.level) matrix.now.d (length dst.old) × Fits (level_at matrix.now.level) (at + matrix.now.d) (length offsets.now) × Fits (level_at matrix.now.level) ((matrix.now.d + 1) * 2 ^ matrix.now.d) (length work.old) }
    ensures { Step (level_at matrix.now.level) dst.old dst.new (λ f g. Added (K (level_at matrix.now.level)) f g (λ k. sum (K (level_at matrix.now.level)) matrix.now.n (λ j. (K (level_at matrix.now.level)).mul (leaf (K (level_at matrix.now.level)) (el (level_at matrix.now.level) alpha.now) (small_of (level_at matrix.now.level) matrix.now.x.now) (value_of (level_at matrix.now.level) beta.words) j) (z (K (level_at matrix.now.level)) matrix.now.d (digit matrix.now.d position) (λ i. el (level_at matrix.now.level) offsets.now (at + i)) j k))) matrix.now.d) × Words (level_at matrix.now.level) work.new }
{
    let Matrix { n, d, level, x, .. } = *matrix;
    leaves::leaves(
        work,
        d + 1,
        0,
        power(d),
        alpha,
        x,
        Multiples::of(beta, level),
        n,
        level,
    );
    fold::fold(work, position, offsets, at, d, level);
    sums::add(dst, work, d, level);
}

// Adds the shares of all n rows. The weights of x' stand in beta.
fn shares(
    dst: &mut [u16],
    matrix: &Matrix<'_>,
    alpha: &[u16],
    beta: &[u16],
    positions: &[u8],
    offsets: &[u16],
    work: &mut [u16],
)
    requires words { Words (level_at matrix.now.level) dst.old × Words (level_at matrix.now.level) work.old × Words (level_at matrix.now.level) offsets.now × Words (level_at matrix.now.level) alpha.now × Words (level_at matrix.now.level) beta.now }
    requires d_bound { (matrix.now.d < 64) × (length positions.now ≡ matrix.now.n) × Fits (level_at matrix.now.level) matrix.now.n (length alpha.now) × Fits (level_at matrix.now.level) matrix.now.n (length beta.now) × Fits (level_at matrix.now.level) matrix.now.d (length dst.old) × Fits (level_at matrix.now.level) (matrix.now.d * matrix.now.n) (length offsets.now) × Fits (level_at matrix.now.level) ((matrix.now.d + 1) * 2 ^ matrix.now.d) (length work.old) }
    ensures { Step (level_at matrix.now.level) dst.old dst.new (λ f g. Added (K (level_at matrix.now.level)) f g (λ k. sum (K (level_at matrix.now.level)) matrix.now.n (λ i. sum (K (level_at matrix.now.level)) matrix.now.n (λ j. (K (level_at matrix.now.level)).mul (leaf (K (level_at matrix.now.level)) (el (level_at matrix.now.level) alpha.now) (small_of (level_at matrix.now.level) matrix.now.x.now) (el (level_at matrix.now.level) beta.now i) j) (z (K (level_at matrix.now.level)) matrix.now.d (digit_of matrix.now.d positions.now i) (element_of (level_at matrix.now.level) matrix.now.d offsets.now i) j k)))) matrix.now.d) }
{
    for (i, &position) in positions.iter().enumerate() {
        let position = u64::from(position);
        let weight = elements::get(beta, i, matrix.level);
        let at = matrix.d * i;
        row(dst, matrix, alpha, weight, position, offsets, at, work);
    }
}

// Writes the d coefficients below X^d of the sum of the n + m polynomials, each times its weight: y has no part in them. beta is room
// for n elements, work for (d + 1) 2^d.
pub fn weighted(
    dst: &mut [u16],
    matrix: &Matrix<'_>,
    positions: &[u8],
    offsets: &[u16],
    alpha: &[u16],
    beta: &mut [u16],
    work: &mut [u16],
)
    requires words { Words (level_at matrix.now.level) offsets.now × Words (level_at matrix.now.level) alpha.now × (0 < (level_at matrix.now.level).coordinates) × (matrix.now.d < 64) }
    requires positions_len { (length positions.now ≡ matrix.now.n) × (length offsets.now ≡ (level_at matrix.now.level).coordinates * (matrix.now.d * matrix.now.n)) × Fits (level_at matrix.now.level) (matrix.now.n + matrix.now.m) (length alpha.now) × Fits (level_at matrix.now.level) matrix.now.d (length dst.old) × Fits (level_at matrix.now.level) matrix.now.n (length beta.old) × Fits (level_at matrix.now.level) ((matrix.now.d + 1) * 2 ^ matrix.now.d) (length work.old) }
    ensures { Step (level_at matrix.now.level) dst.old dst.new (λ f g. (y : ℕ → (K (level_at matrix.now.level)).Carrier) (k : ℕ) → k < matrix.now.d → g k ≡ weighted_sum (K (level_at matrix.now.level)) matrix.now.n matrix.now.m (el (level_at matrix.now.level) alpha.now) (λ j. column (K (level_at matrix.now.level)) matrix.now.n matrix.now.d (entry_of (level_at matrix.now.level) matrix.now.n matrix.now.h.now) (small_of (level_at matrix.now.level) matrix.now.x.now) y (digit_of matrix.now.d positions.now) (element_of (level_at matrix.now.level) matrix.now.d offsets.now) j k) (λ e. check (K (level_at matrix.now.level)) matrix.now.n matrix.now.d (entry_of (level_at matrix.now.level) matrix.now.n matrix.now.h.now) (small_of (level_at matrix.now.level) matrix.now.x.now) y (digit_of matrix.now.d positions.now) (element_of (level_at matrix.now.level) matrix.now.d offsets.now) e k)) }
{
    row::clear(dst);
    row::clear(work);
    leaves::multipliers(beta, matrix.h, alpha, matrix.n, matrix.m, matrix.level);
    shares(dst, matrix, alpha, beta, positions, offsets, work);
}
