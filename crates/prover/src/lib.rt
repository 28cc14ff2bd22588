// The entry prove: the specification, 'CheckZero', the prover's side.
#![tactic(auto)]

ghost use Rattle.refusal.specs.declared.Refusal.TheVariants.{Top, DependentRows, SpareCode};
ghost use Rattle.std.specs.Prelude.{◌≡◌, List, ℕ, eqb, length, Err};
ghost use Rattle.lists.specs.Lent.{long};
ghost use Rattle.refusal.specs.Answer.{first_of, decided, Done};
ghost use Rattle.field.specs.Level.{FIRST, level_at};
ghost use Rattle.row.specs.Lent.{LentKey, LentTarget};
ghost use Rattle.key.specs.Key.{Sized, slices_of, lengths};
ghost use Rattle.constraints.specs.Entry.{system};
ghost use Rattle.constraints.specs.Slices.{witness_of};
ghost use Rattle.checkzero.specs.Slices.{tops_zero};
ghost use Rattle.prover.specs.Entry.{prove_lent, prove_rows, prove_leans, tops_row, prove_result, prove_outcome};
ghost use Rattle.prover.specs.Solved.{Solved};

use field::FIRST;
use key::Lent;
use refusal::{Answer, Refusal};

// Words of work space, at the widest level: n + m elements, and d + 1 coefficients for each of 2^d columns.
const ELEMENTS: usize = 1524;

const WORK: usize = 5376;

// Whether each slice has its length.
fn lengths(
    lent: &Lent<'_>,
    positions: &[u8],
    u: &[u8],
    v: &[u16],
    r: &[u16],
    s: &[u16],
    alpha: &[u16],
    t: &[u8],
    a: &[u16],
) -> bool
    requires { Sized (level_at FIRST) lent.now.key }
    ensures { result ≡ long (prove_lent (lengths (level_at FIRST) lent.now.key) (slices_of lent.now) positions.now u.now v.now r.now s.now alpha.now t.now a.now) }
{
    let len = lent.key.lengths(FIRST);
    lent.h.len() == len.matrix
        && lent.x.len() == len.vector
        && lent.y.len() == len.target
        && positions.len() == len.positions
        && u.len() == len.bits
        && v.len() == len.elements
        && r.len() == len.masks
        && s.len() == len.masks
        && alpha.len() == len.values
        && t.len() == len.bits
        && a.len() == len.proof
}

// The first of refusals 1 to 7, 15 and 16 that applies; Ok where none does.
fn refused(
    lent: &Lent<'_>,
    positions: &[u8],
    u: &[u8],
    v: &[u16],
    r: &[u16],
    s: &[u16],
    alpha: &[u16],
    t: &[u8],
    a: &[u16],
) -> Answer
    ensures { result ≡ first_of (prove_rows (level_at FIRST) lent.now.key (slices_of lent.now) positions.now u.now v.now r.now s.now alpha.now t.now a.now) }
{
    lent.key.sizes(FIRST)?;
    if !lengths(lent, positions, u, v, r, s, alpha, t, a) {
        return Err(Refusal::SliceLength);
    }
    lent.contents(FIRST)?;
    let coordinates = field::excess(v, FIRST)
        | (field::excess(r, FIRST) | (field::excess(s, FIRST) | field::excess(alpha, FIRST)));
    key::material(key::over(u, 1), coordinates, lent.key.codes(positions))
}

// Zero exactly when all n + m top coefficients are zero, a number as `checkzero::nonzero` answers it; they do not depend on the offsets. p is room for them, work for 2^d elements.
fn tops(lent: &Lent<'_>, positions: &[u8], p: &mut [u16], work: &mut [u16]) -> u16
    requires sized { Sized (level_at FIRST) lent.now.key × LentKey (level_at FIRST) lent.now.key.n lent.now.key.m lent.now.h.now lent.now.x.now × LentTarget (level_at FIRST) lent.now.key.m lent.now.y.now }
    requires positions_len { (length positions.now ≡ (lengths (level_at FIRST) lent.now.key).positions) × (length p.old ≡ 1524) × (length work.old ≡ 5376) }
    ensures { (v : List ℕ) → eqb result 0 ≡ tops_zero (level_at FIRST) (system (level_at FIRST) lent.now.key (slices_of lent.now)) (witness_of lent.now.key.n positions.now) v }
{
    rows::tops(p, &constraints::equations(lent), positions, work);
    checkzero::nonzero(p, lent.key.n + lent.key.m, FIRST)
}

// Where all tops are zero, writes t and a; otherwise refuses with 8. p is room for n + m elements, work for (d + 1) 2^d.
fn weigh(
    lent: &Lent<'_>,
    positions: &[u8],
    u: &[u8],
    v: &[u16],
    r: &[u16],
    s: &[u16],
    alpha: &[u16],
    t: &mut [u8],
    a: &mut [u16],
    p: &mut [u16],
    work: &mut [u16],
) -> Answer
    requires a_value { first_of (prove_rows (level_at FIRST) lent.now.key (slices_of lent.now) positions.now u.now v.now r.now s.now alpha.now t.old a.old) ≡ Done }
    requires p_len { (length p.old ≡ 1524) × (length work.old ≡ 5376) }
    ensures { (result, (t.new, a.new)) ≡ decided (tops_row (level_at FIRST) lent.now.key (slices_of lent.now) positions.now v.now) (prove_result (level_at FIRST) lent.now.key (slices_of lent.now) positions.now u.now v.now r.now s.now alpha.now) (t.old, a.old) }
{
    if tops(lent, positions, p, work) != 0 {
        return Err(Refusal::Top);
    }
    constraints::write_masked_witness(lent.key, positions, u, t);
    let matrix = constraints::equations(lent).matrix;
    checkzero::proof(a, &matrix, positions, v, alpha, r, s, p, work);
    Ok(())
}

// The same, with room of its own.
fn work(
    lent: &Lent<'_>,
    positions: &[u8],
    u: &[u8],
    v: &[u16],
    r: &[u16],
    s: &[u16],
    alpha: &[u16],
    t: &mut [u8],
    a: &mut [u16],
) -> Answer
    requires { first_of (prove_rows (level_at FIRST) lent.now.key (slices_of lent.now) positions.now u.now v.now r.now s.now alpha.now t.old a.old) ≡ Done }
    ensures { (result, (t.new, a.new)) ≡ decided (tops_row (level_at FIRST) lent.now.key (slices_of lent.now) positions.now v.now) (prove_result (level_at FIRST) lent.now.key (slices_of lent.now) positions.now u.now v.now r.now s.now alpha.now) (t.old, a.old) }
{
    let mut elements = [0u16; ELEMENTS];
    let mut work = [0u16; WORK];
    weigh(
        lent,
        positions,
        u,
        v,
        r,
        s,
        alpha,
        t,
        a,
        &mut elements,
        &mut work,
    )
}

// Writes t, the masked witness, and a, the proof.
pub fn prove(
    lent: &Lent<'_>,
    positions: &[u8],
    u: &[u8],
    v: &[u16],
    r: &[u16],
    s: &[u16],
    alpha: &[u16],
    t: &mut [u8],
    a: &mut [u16],
) -> Answer
    ensures outcome { (result, (t.new, a.new)) ≡ prove_outcome (level_at FIRST) lent.now.key (slices_of lent.now) positions.now u.now v.now r.now s.now alpha.now t.old a.old }
    ensures leans { prove_leans (level_at FIRST) lent.now.key (slices_of lent.now) positions.now u.now v.now r.now s.now alpha.now t.old a.old (result ≡ Err DependentRows) }
    ensures solved { Solved (level_at FIRST) lent.now.key (slices_of lent.now) positions.now u.now v.now r.now s.now alpha.now t.old a.old (result ≡ Done) (result ≡ Err Top) (result ≡ Err SpareCode) }
{
    refused(lent, positions, u, v, r, s, alpha, t, a)?;
    work(lent, positions, u, v, r, s, alpha, t, a)
}
