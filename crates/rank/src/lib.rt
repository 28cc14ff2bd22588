// The entry rank: for an office that tests a key before it uses it.
#![tactic(auto)]

ghost use Rattle.std.specs.Prelude.{◌≡◌, ℕ, Ok};
ghost use Rattle.refusal.specs.Answer.{first_of};
ghost use Rattle.field.specs.Level.{FIRST, level_at};
ghost use Rattle.rank.specs.Entry.{number_of, rank_rows, rank_outcome, Tells};

use field::FIRST;
use key::Key;
use refusal::{Answer, Refusal};

// The answer's number: 0 for a rank, else the refusal's.
pub fn number(answer: Result<usize, Refusal>) -> u32
    ensures { result ≡ number_of answer }
{
    refusal::number(answer)
}

// The first refusal that applies; Ok where none does.
fn refused(key: Key, h: &[u16], matrix: &[u16]) -> Answer
    ensures { result ≡ first_of (rank_rows (level_at FIRST) key h.now matrix.now) }
{
    key.sizes(FIRST)?;
    let len = key.lengths(FIRST).matrix;
    if h.len() != len || matrix.len() != len {
        return Err(Refusal::SliceLength);
    }
    if field::excess(h, FIRST) != 0 {
        return Err(Refusal::KeyElement);
    }
    Ok(())
}

// The rank of H; the matrix then holds the cleared form.
pub fn rank(key: Key, h: &[u16], matrix: &mut [u16]) -> Result<usize, Refusal>
    ensures outcome { (result, matrix.new) ≡ rank_outcome (level_at FIRST) key h.now matrix.old }
    ensures tells { (k : ℕ) → result ≡ Ok k → Tells (level_at FIRST) key h.now k }
{
    refused(key, h, matrix)?;
    Ok(elimination::rank(h, matrix, key.n, key.m, FIRST))
}
