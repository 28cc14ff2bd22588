// The entries sum and product in K.
#![tactic(auto)]

ghost use Rattle.std.specs.Prelude.{◌≡◌};
ghost use Rattle.refusal.specs.Answer.{first_of};
ghost use Rattle.arithmetic.specs.Entry.{rows, sum_outcome, product_outcome};

use field::{Element, FIRST, Level};
use refusal::{Answer, Refusal};

// The first refusal of sum and product that applies; Ok where none does.
fn refused(a: &[u16], b: &[u16], out: &[u16]) -> Answer
    ensures { result ≡ first_of (rows a.now b.now out.now) }
{
    let level = Level::of(FIRST);
    let coordinates = level.coordinates;
    if a.len() != coordinates {
        return Err(Refusal::SliceLength);
    }
    if b.len() != coordinates {
        return Err(Refusal::SliceLength);
    }
    if out.len() != coordinates {
        return Err(Refusal::SliceLength);
    }
    if field::excess(a, FIRST) != 0 {
        return Err(Refusal::Coordinate);
    }
    if field::excess(b, FIRST) != 0 {
        return Err(Refusal::Coordinate);
    }
    Ok(())
}

// The sum of two lent elements of K, written to out.
pub fn sum(a: &[u16], b: &[u16], out: &mut [u16]) -> Answer
    ensures { (result, out.new) ≡ sum_outcome a.now b.now out.old }
{
    refused(a, b, out)?;
    let x = Element::load(a, 0, FIRST);
    let y = Element::load(b, 0, FIRST);
    let total = x.plus(y, FIRST);
    total.store(out, 0, FIRST);
    Ok(())
}

// The product of two lent elements of K, written to out.
pub fn product(a: &[u16], b: &[u16], out: &mut [u16]) -> Answer
    ensures { (result, out.new) ≡ product_outcome a.now b.now out.old }
{
    refused(a, b, out)?;
    let x = Element::load(a, 0, FIRST);
    let y = Element::load(b, 0, FIRST);
    let result = x.times(y, FIRST);
    result.store(out, 0, FIRST);
    Ok(())
}
