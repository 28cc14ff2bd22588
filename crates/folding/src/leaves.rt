// The weight of each column in each row.
ghost use Rattle.std.specs.Prelude.{◌≡◌, ℕ, ◌+◌, ◌*◌, ◌<◌, ◌≤◌, length};
ghost use Rattle.field.specs.Level.{level_at, K};
ghost use Rattle.field.specs.Packed.{Holds, Multiplies};
ghost use Rattle.field.specs.Word.{Words};
ghost use Rattle.row.specs.Elements.{el, Fits, Within, Tabled};
ghost use Rattle.row.specs.Lent.{small_of, entry_of};
ghost use Rattle.row.specs.Step.{Step, Added};
ghost use Rattle.folding.specs.Weights.{multiplier, leaf};
ghost use Rattle.folding.specs.Steps.{Leaves};

use field::{Element, Multiples};
use row::elements;

// Adds the factor of a table times entry i of row e of H, which stands from place at on, to element i of dst, for the first n.
fn add_row(dst: &mut [u16], multiples: Multiples, h: &[u16], at: usize, n: usize, level: usize)
    requires { Words (level_at level) dst.old × Tabled (level_at level) multiples × Within (level_at level) h.now × (at + n ≤ length h.now) × Fits (level_at level) n (length dst.old) }
    ensures { (y : (K (level_at level)).Carrier) → Multiplies (level_at level) multiples y → Step (level_at level) dst.old dst.new (λ f g. Added (K (level_at level)) f g (λ i. (K (level_at level)).mul (small_of (level_at level) h.now (at + i)) y) n) }
{
    for i in 0..n {
        elements::add_at(dst, i, multiples.scaled(h[at + i], level), level);
    }
}

// The weight of x'(i) as element i of dst, for each of the n rows.
pub fn multipliers(dst: &mut [u16], h: &[u16], alpha: &[u16], n: usize, m: usize, level: usize)
    requires { Words (level_at level) alpha.now × Within (level_at level) h.now × (length h.now ≡ n * m) × Fits (level_at level) (n + m) (length alpha.now) × Fits (level_at level) n (length dst.old) }
    ensures { Step (level_at level) dst.old dst.new (λ f g. (i : ℕ) → i < n → g i ≡ multiplier (K (level_at level)) n m (entry_of (level_at level) n h.now) (el (level_at level) alpha.now) i) }
{
    row::clear(dst);
    for e in 0..m {
        let factor = elements::get(alpha, n + e, level);
        add_row(dst, Multiples::of(factor, level), h, n * e, n, level);
    }
}

// The weight alpha(j) + x(j) times the factor of a table of column j; zero from column n on.
fn weight(
    alpha: &[u16],
    x: &[u16],
    multiples: Multiples,
    j: usize,
    n: usize,
    level: usize,
) -> Element
    requires { Words (level_at level) alpha.now × Within (level_at level) x.now × (n ≤ length x.now) × Fits (level_at level) n (length alpha.now) }
    ensures inside { (y : (K (level_at level)).Carrier) → Multiplies (level_at level) multiples y → j < n → Holds (level_at level) result.words (leaf (K (level_at level)) (el (level_at level) alpha.now) (small_of (level_at level) x.now) y j) }
    ensures outside { n ≤ j → Holds (level_at level) result.words (K (level_at level)).zero }
{
    if j < n {
        let own = elements::get(alpha, j, level);
        own.plus(multiples.scaled(x[j], level), level)
    } else {
        Element::zero(level)
    }
}

// Writes the weight alpha(j) + x(j) times the factor of a table of the count columns j from first on, stride elements apart; zero from
// column n on.
pub fn leaves(
    dst: &mut [u16],
    stride: usize,
    first: usize,
    count: usize,
    alpha: &[u16],
    x: &[u16],
    multiples: Multiples,
    n: usize,
    level: usize,
)
    requires { Words (level_at level) dst.old × Words (level_at level) alpha.now × Tabled (level_at level) multiples × Within (level_at level) x.now × (n ≤ length x.now) × (0 < stride) × (first ≤ count) × Fits (level_at level) (stride * count) (length dst.old) × Fits (level_at level) n (length alpha.now) }
    ensures { (y : (K (level_at level)).Carrier) → Multiplies (level_at level) multiples y → Step (level_at level) dst.old dst.new (λ f g. Leaves (K (level_at level)) g stride first count n (el (level_at level) alpha.now) (small_of (level_at level) x.now) y) }
{
    for j in 0..count {
        let weight = weight(alpha, x, multiples, first + j, n, level);
        elements::put(dst, stride * j, weight, level);
    }
}
