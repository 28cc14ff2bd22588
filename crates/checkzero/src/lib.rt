// The work of CheckZero on lent slices: weighted sums, masks, and the two sides of the verifier's equation. No entry.
// No branch and no index depends on the content of a slice.
#![tactic(auto)]

ghost use Rattle.std.specs.Prelude.{◌≡◌, List, ℕ, ◌+◌, ◌-◌, ◌*◌, ◌^◌, ◌≤◌, ◌<◌, eqb, length};
ghost use Rattle.lists.specs.Words.{concat};
ghost use Rattle.field.specs.Level.{level_at, K};
ghost use Rattle.field.specs.Packed.{Holds};
ghost use Rattle.field.specs.Word.{words, is_zero, Words};
ghost use Rattle.row.specs.Elements.{el, Fits, value_of, Held};
ghost use Rattle.row.specs.Step.{Step, Added};
ghost use Rattle.checkzero.specs.CheckZero.{mask, mask_sum};
ghost use Rattle.checkzero.specs.Slices.{every};
ghost use Rattle.checkzero.specs.Steps.{weighted_at, evaluated, AtMask};

use field::{Element, Multiples};
use folding::polynomials;
use row::elements;
use row::equations::Matrix;

// Zero exactly when each of the first size elements is zero: a number, as they may be secret and none is decided by itself.
pub fn nonzero(p: &[u16], size: usize, level: usize) -> u16
    requires { Words (level_at level) p.now × Fits (level_at level) size (length p.now) }
    ensures { eqb result 0 ≡ every size (λ j. is_zero (level_at level) (el (level_at level) p.now j)) }
{
    let mut any: u16 = 0;
    for j in 0..size {
        any |= elements::get(p, j, level).nonzero(level);
    }
    any
}

// Adds the mask of count pairs r and s to the first count + 1 elements of dst.
fn add_masks(dst: &mut [u16], r: &[u16], s: &[u16], count: usize, level: usize)
    requires { Words (level_at level) dst.old × Words (level_at level) r.now × Words (level_at level) s.now × Fits (level_at level) (count + 1) (length dst.old) × Fits (level_at level) count (length r.now) × Fits (level_at level) count (length s.now) }
    ensures { Step (level_at level) dst.old dst.new (λ f g. Added (K (level_at level)) f g (mask (K (level_at level)) count (el (level_at level) r.now) (el (level_at level) s.now)) (count + 1)) }
{
    for k in 0..count {
        elements::add_at(dst, k, elements::get(r, k, level), level);
        elements::add_at(dst, k + 1, elements::get(s, k, level), level);
    }
}

// Writes the d coefficients of the proof: of the weighted sum of the polynomials, whatever y, plus the mask. beta is room for n elements, work for
// (d + 1) 2^d.
pub fn proof(
    a: &mut [u16],
    matrix: &Matrix<'_>,
    positions: &[u8],
    v: &[u16],
    alpha: &[u16],
    r: &[u16],
    s: &[u16],
    beta: &mut [u16],
    work: &mut [u16],
)
    requires words { Words (level_at matrix.now.level) v.now × Words (level_at matrix.now.level) alpha.now × Words (level_at matrix.now.level) r.now × Words (level_at matrix.now.level) s.now }
    requires coordinates_nonzero { (0 < (level_at matrix.now.level).coordinates) × (1 ≤ matrix.now.d) × (matrix.now.d < 64) × (length positions.now ≡ matrix.now.n) × (length v.now ≡ (level_at matrix.now.level).coordinates * (matrix.now.d * matrix.now.n)) × (length a.old ≡ (level_at matrix.now.level).coordinates * matrix.now.d) }
    requires fits { Fits (level_at matrix.now.level) (matrix.now.n + matrix.now.m) (length alpha.now) × Fits (level_at matrix.now.level) (matrix.now.d - 1) (length r.now) × Fits (level_at matrix.now.level) (matrix.now.d - 1) (length s.now) × Fits (level_at matrix.now.level) matrix.now.n (length beta.old) × Fits (level_at matrix.now.level) ((matrix.now.d + 1) * 2 ^ matrix.now.d) (length work.old) }
    ensures { (y : List ℕ) → a.new ≡ concat matrix.now.d (λ k. words (level_at matrix.now.level) ((K (level_at matrix.now.level)).add (weighted_at (level_at matrix.now.level) matrix.now.n matrix.now.m matrix.now.d matrix.now.h.now matrix.now.x.now y positions.now v.now alpha.now k) (mask (K (level_at matrix.now.level)) (matrix.now.d - 1) (el (level_at matrix.now.level) r.now) (el (level_at matrix.now.level) s.now) k))) }
{
    polynomials::weighted(a, matrix, positions, v, alpha, beta, work);
    add_masks(a, r, s, matrix.d - 1, matrix.level);
}

// The polynomial of count coefficients a at the challenge.
pub fn evaluate(a: &[u16], delta: Element, count: usize, level: usize) -> Element
    requires { Words (level_at level) a.now × Held (level_at level) delta.words × Fits (level_at level) count (length a.now) }
    ensures { Holds (level_at level) result.words (evaluated (level_at level) count a.now (value_of (level_at level) delta.words)) }
{
    let multiples = Multiples::of(delta, level);
    let mut total = Element::zero(level);
    for k in (0..count).rev() {
        let lowest = elements::get(a, k, level);
        total = lowest.plus(multiples.times(total, level), level);
    }
    total
}

// What the mask sum holds at mask k: the power k of the challenge, and the sum of the terms before mask k.
#[derive(Clone, Copy)]
struct Running {
    power: Element,
    total: Element,
}

// One turn of the mask sum: handed the power k of the challenge and the sum of the terms before mask k, answers the power k + 1
// and the sum with the term of mask k. Two products, both of the power that it is handed.
fn turn(held: Running, masks: &[u16], delta: Element, k: usize, level: usize) -> Running
    requires { Words (level_at level) masks.now × Held (level_at level) delta.words × Fits (level_at level) (k + 1) (length masks.now) × AtMask (level_at level) (value_of (level_at level) delta.words) (el (level_at level) masks.now) k held.power.words held.total.words }
    ensures { AtMask (level_at level) (value_of (level_at level) delta.words) (el (level_at level) masks.now) (k + 1) result.power.words result.total.words }
{
    let power = held.power;
    let number = elements::get(masks, k, level);
    let next = power.times(delta, level);
    let term = power.times(number, level);
    let total = held.total.plus(term, level);
    Running { power: next, total }
}

// The sum of the first count mask numbers, each times its power of the challenge.
pub fn mask_sum(masks: &[u16], delta: Element, count: usize, level: usize) -> Element
    requires { Words (level_at level) masks.now × Held (level_at level) delta.words × Fits (level_at level) count (length masks.now) }
    ensures { Holds (level_at level) result.words (mask_sum (K (level_at level)) count (value_of (level_at level) delta.words) (el (level_at level) masks.now)) }
{
    let power = Element::one(level);
    let total = Element::zero(level);
    let mut held = Running { power, total };
    for k in 0..count {
        held = turn(held, masks, delta, k, level);
    }
    held.total
}
