// A row's share in the n + m results, added to those of the rows before it.
ghost use Rattle.std.specs.Prelude.{◌+◌, ◌*◌, ◌<◌, ◌≤◌, length};
ghost use Rattle.field.specs.Level.{level_at, K};
ghost use Rattle.field.specs.Packed.{Holds};
ghost use Rattle.field.specs.Word.{Words};
ghost use Rattle.row.specs.Elements.{el, Fits, Within, value_of, Held};
ghost use Rattle.row.specs.Polynomial.{sum};
ghost use Rattle.row.specs.Step.{Step, Added, AddedDown, Shared, Topped};
ghost use Rattle.row.specs.Lent.{LentTarget, small_of, entry_of};

use crate::elements;
use crate::equations::Matrix;
use field::{Element, Multiples, combination};

// Adds the first n elements of src to those of dst.
pub fn add(dst: &mut [u16], src: &[u16], n: usize, level: usize)
    requires { Words (level_at level) dst.old × Words (level_at level) src.now × Fits (level_at level) n (length dst.old) × Fits (level_at level) n (length src.now) }
    ensures { Step (level_at level) dst.old dst.new (λ f g. Added (K (level_at level)) f g (el (level_at level) src.now) n) }
{
    for k in 0..n {
        elements::add_at(dst, k, elements::get(src, k, level), level);
    }
}

// The sum over j of x(j) times element k of row j of src, of s elements from a on.
pub fn mix(src: &[u16], a: usize, s: usize, k: usize, x: &[u16], n: usize, level: usize) -> Element
    requires { Words (level_at level) src.now × Within (level_at level) x.now × (n ≤ length x.now) × (k < s) × Fits (level_at level) (a + s * n) (length src.now) }
    ensures { Holds (level_at level) result.words (sum (K (level_at level)) n (λ j. (K (level_at level)).mul (small_of (level_at level) x.now j) (el (level_at level) src.now (a + s * j + k)))) }
{
    let mut parts = [0u64; field::TABLE];
    for j in 0..n {
        let term = elements::get(src, a + s * j + k, level);
        combination::add(&mut parts, term, x[j], level);
    }
    combination::total(&parts, level)
}

// Adds y times entry i of row e of H to element k of row e of dst, of s elements from a on.
pub fn spread(
    dst: &mut [u16],
    a: usize,
    s: usize,
    k: usize,
    y: Element,
    h: &[u16],
    n: usize,
    m: usize,
    i: usize,
    level: usize,
)
    requires { Words (level_at level) dst.old × Held (level_at level) y.words × Within (level_at level) h.now × (n * m ≤ length h.now) × (i < n) × (k < s) × Fits (level_at level) (a + s * m) (length dst.old) }
    ensures { Step (level_at level) dst.old dst.new (λ f g. AddedDown (K (level_at level)) f g a s k (λ e. (K (level_at level)).mul (entry_of (level_at level) n h.now e i) (value_of (level_at level) y.words)) m) }
{
    let multiples = Multiples::of(y, level);
    for e in 0..m {
        let term = multiples.scaled(h[n * e + i], level);
        elements::add_at(dst, a + s * e + k, term, level);
    }
}

// Adds row i's share: src has s elements for each column.
pub fn share(dst: &mut [u16], src: &[u16], s: usize, matrix: &Matrix<'_>, i: usize)
    requires { Words (level_at matrix.now.level) dst.old × Words (level_at matrix.now.level) src.now × (i < matrix.now.n) × Fits (level_at matrix.now.level) (s * matrix.now.n + s * matrix.now.m) (length dst.old) × Fits (level_at matrix.now.level) (s * matrix.now.n) (length src.now) }
    ensures { Step (level_at matrix.now.level) dst.old dst.new (λ f g. Shared (K (level_at matrix.now.level)) f g matrix.now.n matrix.now.m s (λ j k. el (level_at matrix.now.level) src.now (s * j + k)) (small_of (level_at matrix.now.level) matrix.now.x.now) (λ e. entry_of (level_at matrix.now.level) matrix.now.n matrix.now.h.now e i)) }
{
    let Matrix { n, m, level, .. } = *matrix;
    let count = s * n;
    add(dst, src, count, level);
    for k in 0..s {
        let total = mix(src, 0, s, k, matrix.x, n, level);
        spread(dst, count, s, k, total, matrix.h, n, m, i, level);
    }
}

// Adds y to element k of each of the first n rows of s elements.
fn column_tops(dst: &mut [u16], n: usize, s: usize, k: usize, y: Element, level: usize)
    requires { Words (level_at level) dst.old × Held (level_at level) y.words × (k < s) × Fits (level_at level) (s * n) (length dst.old) }
    ensures { Step (level_at level) dst.old dst.new (λ f g. AddedDown (K (level_at level)) f g 0 s k (λ e. value_of (level_at level) y.words) n) }
{
    for j in 0..n {
        elements::add_at(dst, s * j + k, y, level);
    }
}

// Subtracts what the n columns and the m checks lose at element k of s: each column one, and check e y(e), each times power.
pub fn tops(
    dst: &mut [u16],
    n: usize,
    m: usize,
    s: usize,
    k: usize,
    power: Element,
    y: &[u16],
    level: usize,
)
    requires { Words (level_at level) dst.old × Held (level_at level) power.words × LentTarget (level_at level) m y.now × (k < s) × Fits (level_at level) (s * n + s * m) (length dst.old) }
    ensures { Step (level_at level) dst.old dst.new (λ f g. Topped (K (level_at level)) f g n m s k (value_of (level_at level) power.words) (small_of (level_at level) y.now)) }
{
    column_tops(dst, n, s, k, power, level);
    spread(dst, s * n, s, k, power, y, 1, m, 0, level);
}
