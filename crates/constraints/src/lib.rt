// The entries constraints and values: the specification, 'Polynomials and values'.
#![tactic(auto)]

ghost use Rattle.refusal.specs.declared.Refusal.TheVariants.{DependentRows};
ghost use Rattle.std.specs.Prelude.{◌≡◌, length, Err};
ghost use Rattle.lists.specs.Lent.{long};
ghost use Rattle.refusal.specs.Answer.{first_of, Done};
ghost use Rattle.field.specs.Level.{FIRST, level_at};
ghost use Rattle.field.specs.Word.{Words};
ghost use Rattle.row.specs.Elements.{Bits};
ghost use Rattle.row.specs.Lent.{LentKey, LentTarget};
ghost use Rattle.key.specs.Key.{Sized, KeySlices, slices_of, lengths};
ghost use Rattle.constraints.specs.Entry.{constraints_lent, constraints_rows, constraints_outcome, constraints_leans, values_lent, values_rows, values_outcome, values_leans, system};
ghost use Rattle.constraints.specs.Slices.{masked_bytes, polynomial_words, value_words, witness_of};
ghost use Rattle.constraints.specs.Truth.{Truth};
ghost use Rattle.constraints.specs.Lends.{Lends};

use field::FIRST;
use key::{Code, Key, Lent};
use refusal::{Answer, Refusal};
use row::equations::{Equations, Matrix};

// Words of work space, at the widest level: d + 1 coefficients, or one value, for each of 2^d columns.
const POLYNOMIALS: usize = 5376;

const VALUES: usize = 768;

// Whether each slice of constraints has its length.
fn constraints_lengths(
    lent: &Lent<'_>,
    positions: &[u8],
    u: &[u8],
    v: &[u16],
    t: &[u8],
    p: &[u16],
) -> bool
    requires { Sized (level_at FIRST) lent.now.key }
    ensures { result ≡ long (constraints_lent (lengths (level_at FIRST) lent.now.key) (slices_of lent.now) positions.now u.now v.now t.now p.now) }
{
    let len = lent.key.lengths(FIRST);
    lent.h.len() == len.matrix
        && lent.x.len() == len.vector
        && lent.y.len() == len.target
        && positions.len() == len.positions
        && u.len() == len.bits
        && v.len() == len.elements
        && t.len() == len.bits
        && p.len() == len.polynomials
}

// The first refusal of constraints that applies; Ok where none does.
fn constraints_refused(
    lent: &Lent<'_>,
    positions: &[u8],
    u: &[u8],
    v: &[u16],
    t: &[u8],
    p: &[u16],
) -> Answer
    ensures { result ≡ first_of (constraints_rows (level_at FIRST) lent.now.key (slices_of lent.now) positions.now u.now v.now t.now p.now) }
{
    lent.key.sizes(FIRST)?;
    if !constraints_lengths(lent, positions, u, v, t, p) {
        return Err(Refusal::SliceLength);
    }
    lent.contents(FIRST)?;
    // Spare codes are taken: the digit of TooLarge alone is kept, which their number does not have.
    let code = lent.key.codes(positions) & Code::TOO_LARGE;
    key::material(key::over(u, 1), field::excess(v, FIRST), code)
}

// Whether each slice of values has its length.
fn values_lengths(lent: &Lent<'_>, t: &[u8], q: &[u16], delta: &[u16], p: &[u16]) -> bool
    requires { Sized (level_at FIRST) lent.now.key }
    ensures { result ≡ long (values_lent (lengths (level_at FIRST) lent.now.key) (slices_of lent.now) t.now q.now delta.now p.now) }
{
    let len = lent.key.lengths(FIRST);
    lent.h.len() == len.matrix
        && lent.x.len() == len.vector
        && lent.y.len() == len.target
        && t.len() == len.bits
        && q.len() == len.elements
        && delta.len() == len.one
        && p.len() == len.values
}

// The first refusal of values that applies; Ok where none does.
fn values_refused(lent: &Lent<'_>, t: &[u8], q: &[u16], delta: &[u16], p: &[u16]) -> Answer
    ensures { result ≡ first_of (values_rows (level_at FIRST) lent.now.key (slices_of lent.now) t.now q.now delta.now p.now) }
{
    lent.key.sizes(FIRST)?;
    if !values_lengths(lent, t, q, delta, p) {
        return Err(Refusal::SliceLength);
    }
    lent.contents(FIRST)?;
    let coordinates = field::excess(q, FIRST) | field::excess(delta, FIRST);
    key::material(key::over(t, 1), coordinates, Code::COLUMN)
}

// The key's equations, as the work on rows is lent them.
pub fn equations<'a>(lent: &Lent<'a>) -> Equations<'a>
    requires { Sized (level_at FIRST) lent.now.key × LentKey (level_at FIRST) lent.now.key.n lent.now.key.m lent.now.h.now lent.now.x.now × LentTarget (level_at FIRST) lent.now.key.m lent.now.y.now }
    ensures { Lends result lent.now }
{
    let matrix = Matrix {
        n: lent.key.n,
        m: lent.key.m,
        d: lent.key.degree(),
        level: FIRST,
        h: lent.h,
        x: lent.x,
    };
    Equations { matrix, y: lent.y }
}

// Writes the masked witness.
pub fn write_masked_witness(key: Key, positions: &[u8], u: &[u8], t: &mut [u8])
    requires sized { Sized (level_at FIRST) key × Bits u.now }
    requires positions_len { (length positions.now ≡ (lengths (level_at FIRST) key).positions) × (length u.now ≡ (lengths (level_at FIRST) key).bits) × (length t.old ≡ (lengths (level_at FIRST) key).bits) }
    ensures { (lent : KeySlices) → t.new ≡ masked_bytes (system (level_at FIRST) key lent) (witness_of key.n positions.now) u.now }
{
    let n = key.n;
    rows::masked_witness(t, positions, u, n, key.degree());
}

// Writes the polynomials.
fn write_polynomials(lent: &Lent<'_>, positions: &[u8], v: &[u16], p: &mut [u16])
    requires sized { Sized (level_at FIRST) lent.now.key × LentKey (level_at FIRST) lent.now.key.n lent.now.key.m lent.now.h.now lent.now.x.now × Words (level_at FIRST) v.now × LentTarget (level_at FIRST) lent.now.key.m lent.now.y.now }
    requires positions_len { (length positions.now ≡ (lengths (level_at FIRST) lent.now.key).positions) × (length v.now ≡ (lengths (level_at FIRST) lent.now.key).elements) × (length p.old ≡ (lengths (level_at FIRST) lent.now.key).polynomials) }
    ensures { p.new ≡ polynomial_words (level_at FIRST) (system (level_at FIRST) lent.now.key (slices_of lent.now)) (witness_of lent.now.key.n positions.now) v.now }
{
    let mut work = [0u16; POLYNOMIALS];
    rows::polynomials(p, &equations(lent), positions, v, &mut work);
}

// Writes t, the masked witness, and all polynomials, polynomial 0 first.
pub fn constraints(
    lent: &Lent<'_>,
    positions: &[u8],
    u: &[u8],
    v: &[u16],
    t: &mut [u8],
    polynomials: &mut [u16],
) -> Answer
    ensures outcome { (result, (t.new, polynomials.new)) ≡ constraints_outcome (level_at FIRST) lent.now.key (slices_of lent.now) positions.now u.now v.now t.old polynomials.old }
    ensures leans { constraints_leans (level_at FIRST) lent.now.key (slices_of lent.now) positions.now u.now v.now t.old polynomials.old (result ≡ Err DependentRows) }
    ensures truth { result ≡ Done → Truth (level_at FIRST) lent.now.key.n lent.now.key.m (slices_of lent.now) positions.now u.now v.now t.new polynomials.new }
{
    constraints_refused(lent, positions, u, v, t, polynomials)?;
    write_masked_witness(lent.key, positions, u, t);
    write_polynomials(lent, positions, v, polynomials);
    Ok(())
}

// Writes the values.
fn write_values(lent: &Lent<'_>, t: &[u8], q: &[u16], delta: &[u16], p: &mut [u16])
    requires sized { Sized (level_at FIRST) lent.now.key × LentKey (level_at FIRST) lent.now.key.n lent.now.key.m lent.now.h.now lent.now.x.now × Bits t.now × Words (level_at FIRST) q.now × Words (level_at FIRST) delta.now × LentTarget (level_at FIRST) lent.now.key.m lent.now.y.now }
    requires t_len { (length t.now ≡ (lengths (level_at FIRST) lent.now.key).bits) × (length q.now ≡ (lengths (level_at FIRST) lent.now.key).elements) × (length delta.now ≡ (lengths (level_at FIRST) lent.now.key).one) × (length p.old ≡ (lengths (level_at FIRST) lent.now.key).values) }
    ensures { p.new ≡ value_words (level_at FIRST) (system (level_at FIRST) lent.now.key (slices_of lent.now)) t.now q.now delta.now }
{
    let mut work = [0u16; VALUES];
    rows::values(p, &equations(lent), t, q, delta, &mut work);
}

// Writes the n + m values.
pub fn values(lent: &Lent<'_>, t: &[u8], q: &[u16], delta: &[u16], values: &mut [u16]) -> Answer
    ensures outcome { (result, values.new) ≡ values_outcome (level_at FIRST) lent.now.key (slices_of lent.now) t.now q.now delta.now values.old }
    ensures leans { values_leans (level_at FIRST) lent.now.key (slices_of lent.now) t.now q.now delta.now values.old (result ≡ Err DependentRows) }
{
    values_refused(lent, t, q, delta, values)?;
    write_values(lent, t, q, delta, values);
    Ok(())
}
