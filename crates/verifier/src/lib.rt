// The entry verify: the specification, 'CheckZero', the verifier's side.
#![tactic(auto)]

ghost use Rattle.refusal.specs.declared.Refusal.TheVariants.{DependentRows};
ghost use Rattle.std.specs.Prelude.{◌≡◌, eqb, length, Ok, Err};
ghost use Rattle.lists.specs.Lent.{long};
ghost use Rattle.refusal.specs.Answer.{first_of, Done};
ghost use Rattle.refusal.specs.declared.Verdict.TheVariants.{Accepted, Rejected};
ghost use Rattle.field.specs.Level.{FIRST, level_at};
ghost use Rattle.key.specs.Key.{Sized, slices_of, lengths};
ghost use Rattle.constraints.specs.Entry.{system};
ghost use Rattle.checkzero.specs.Slices.{accepts};
ghost use Rattle.verifier.specs.Entry.{verify_lent, verify_rows, verify_outcome, verify_leans, Judges};

use field::FIRST;
use folding::values;
use key::{Code, Lent};
use refusal::{Answer, Refusal, Verdict};
use row::elements;

// Words of work space: an element for each of 2^d columns, at the widest level.
const COLUMNS: usize = 768;

// Whether each slice has its length.
fn lengths(
    lent: &Lent<'_>,
    t: &[u8],
    q: &[u16],
    delta: &[u16],
    masks: &[u16],
    alpha: &[u16],
    a: &[u16],
) -> bool
    requires { Sized (level_at FIRST) lent.now.key }
    ensures { result ≡ long (verify_lent (lengths (level_at FIRST) lent.now.key) (slices_of lent.now) t.now q.now delta.now masks.now alpha.now a.now) }
{
    let len = lent.key.lengths(FIRST);
    lent.h.len() == len.matrix
        && lent.x.len() == len.vector
        && lent.y.len() == len.target
        && t.len() == len.bits
        && q.len() == len.elements
        && delta.len() == len.one
        && masks.len() == len.masks
        && alpha.len() == len.values
        && a.len() == len.proof
}

// The first refusal that applies; Ok where none does.
fn refused(
    lent: &Lent<'_>,
    t: &[u8],
    q: &[u16],
    delta: &[u16],
    masks: &[u16],
    alpha: &[u16],
    a: &[u16],
) -> Answer
    ensures { result ≡ first_of (verify_rows (level_at FIRST) lent.now.key (slices_of lent.now) t.now q.now delta.now masks.now alpha.now a.now) }
{
    lent.key.sizes(FIRST)?;
    if !lengths(lent, t, q, delta, masks, alpha, a) {
        return Err(Refusal::SliceLength);
    }
    // Not by `?`: the edit four_and_fifteen_passed_over changes what is answered here.
    if let Err(refusal) = lent.contents(FIRST) {
        return Err(refusal);
    }
    let coordinates = field::excess(q, FIRST)
        | (field::excess(delta, FIRST)
            | (field::excess(masks, FIRST)
                | (field::excess(alpha, FIRST) | field::excess(a, FIRST))));
    key::material(key::over(t, 1), coordinates, Code::COLUMN)
}

// Zero, as `Element::nonzero` answers it, exactly when a at the challenge equals the weighted sum of the values plus the mask sum. The last four slices are room for an
// element for each of 2^d columns.
fn difference(
    lent: &Lent<'_>,
    t: &[u8],
    q: &[u16],
    delta: &[u16],
    masks: &[u16],
    alpha: &[u16],
    a: &[u16],
    beta: &mut [u16],
    scaled: &mut [u16],
    columns: &mut [u16],
    second: &mut [u16],
) -> u16
    requires a_value { first_of (verify_rows (level_at FIRST) lent.now.key (slices_of lent.now) t.now q.now delta.now masks.now alpha.now a.now) ≡ Done }
    requires beta_len { (length beta.old ≡ 768) × (length scaled.old ≡ 768) × (length columns.old ≡ 768) × (length second.old ≡ 768) }
    ensures { eqb result 0 ≡ accepts (level_at FIRST) (system (level_at FIRST) lent.now.key (slices_of lent.now)) t.now q.now delta.now masks.now alpha.now a.now }
{
    let key = constraints::equations(lent);
    let d = key.matrix.d;
    let values = values::weighted(&key, t, q, delta, alpha, beta, scaled, columns, second);
    let challenge = elements::get(delta, 0, FIRST);
    let expected = values.plus(checkzero::mask_sum(masks, challenge, d - 1, FIRST), FIRST);
    let given = checkzero::evaluate(a, challenge, d, FIRST);
    given.plus(expected, FIRST).nonzero(FIRST)
}

// The same, with room of its own.
fn work(
    lent: &Lent<'_>,
    t: &[u8],
    q: &[u16],
    delta: &[u16],
    masks: &[u16],
    alpha: &[u16],
    a: &[u16],
) -> u16
    requires { first_of (verify_rows (level_at FIRST) lent.now.key (slices_of lent.now) t.now q.now delta.now masks.now alpha.now a.now) ≡ Done }
    ensures { eqb result 0 ≡ accepts (level_at FIRST) (system (level_at FIRST) lent.now.key (slices_of lent.now)) t.now q.now delta.now masks.now alpha.now a.now }
{
    let mut beta = [0u16; COLUMNS];
    let mut scaled = [0u16; COLUMNS];
    let mut columns = [0u16; COLUMNS];
    let mut second = [0u16; COLUMNS];
    difference(
        lent,
        t,
        q,
        delta,
        masks,
        alpha,
        a,
        &mut beta,
        &mut scaled,
        &mut columns,
        &mut second,
    )
}

// Accepted exactly when a at the challenge equals the weighted sum of the values plus the mask sum.
pub fn verify(
    lent: &Lent<'_>,
    t: &[u8],
    q: &[u16],
    delta: &[u16],
    masks: &[u16],
    alpha: &[u16],
    a: &[u16],
) -> Result<Verdict, Refusal>
    ensures outcome { result ≡ verify_outcome (level_at FIRST) lent.now.key (slices_of lent.now) t.now q.now delta.now masks.now alpha.now a.now }
    ensures leans { verify_leans (level_at FIRST) lent.now.key (slices_of lent.now) t.now q.now delta.now masks.now alpha.now a.now (result ≡ Err DependentRows) }
    ensures judges { Judges (level_at FIRST) lent.now.key (slices_of lent.now) t.now q.now delta.now masks.now alpha.now a.now (result ≡ Ok Accepted) (result ≡ Ok Rejected) }
{
    refused(lent, t, q, delta, masks, alpha, a)?;
    if work(lent, t, q, delta, masks, alpha, a) == 0 {
        Ok(Verdict::Accepted)
    } else {
        Ok(Verdict::Rejected)
    }
}
