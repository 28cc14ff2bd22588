// The entry quick_look: for a driver that wants to know whether n positions are an order before it fetches correlations. It branches on the
// positions, as is asked, and its time tells the index that it answers.
#![tactic(auto)]

ghost use Rattle.std.specs.Prelude.{◌≡◌, ◌||◌, ℕ, ◌*◌, ◌≤◌, ◌<◌, eqb, length, Ok, Some, None};
ghost use Rattle.refusal.specs.Answer.{first_of};
ghost use Rattle.field.specs.Level.{FIRST, level_at};
ghost use Rattle.order.specs.Seen.{has};
ghost use Rattle.order.specs.Entry.{number_of, first_offender, looked_at, look_rows, look_outcome};
ghost use Rattle.order.specs.Tells.{Tells};

use field::FIRST;
use refusal::{Answer, Refusal};

// The answer's number: 0 where all is well, 255 for an offender, else the refusal's.
pub fn number(answer: Result<Option<usize>, Refusal>) -> u32
    ensures { result ≡ number_of answer }
{
    match answer {
        Ok(None) => 0,
        Ok(Some(_)) => 255,
        Err(refusal) => refusal.number(),
    }
}

// The words of a set that has a bit for each column of any level.
const WORDS: usize = 2;

// Whether j is in the set.
fn has(seen: &[u64], j: usize) -> bool
    requires { j < 64 * length seen.now }
    ensures { result ≡ has seen.now j }
{
    (seen[j / 64] >> (j % 64)) % 2 == 1
}

// Puts j into the set.
fn add(seen: &mut [u64], j: usize)
    requires { j < 64 * length seen.old }
    ensures { (length seen.new ≡ length seen.old) × ((k : ℕ) → has seen.new k ≡ (eqb j k || has seen.old k)) }
{
    seen[j / 64] |= 1u64 << (j % 64);
}

// The index of the first offender, if there is one.
fn first_offender(n: usize, positions: &[u8]) -> Option<usize>
    requires { (length positions.now ≡ n) × (n ≤ 128) }
    ensures { result ≡ looked_at n (first_offender n positions.now) }
{
    let mut seen = [0u64; WORDS];
    for (i, &byte) in positions.iter().enumerate() {
        let position = usize::from(byte);
        if n <= position || has(&seen, position) {
            return Some(i);
        }
        add(&mut seen, position);
    }
    None
}

// The first refusal that applies; Ok where none does.
fn refused(n: usize, positions: &[u8], level: usize) -> Answer
    ensures { result ≡ first_of (look_rows (level_at level) n positions.now) }
{
    key::size_n(n, level)?;
    if positions.len() != n {
        Err(Refusal::SliceLength)
    } else {
        Ok(())
    }
}

// None where the positions are an order, otherwise the index of the first that is no column or came before.
pub fn quick_look(n: usize, positions: &[u8]) -> Result<Option<usize>, Refusal>
    ensures outcome { result ≡ look_outcome (level_at FIRST) n positions.now }
    ensures tells { Tells (level_at FIRST) n positions.now (result ≡ Ok None) (λ i. result ≡ Ok (Some i)) }
{
    refused(n, positions, FIRST)?;
    Ok(first_offender(n, positions))
}
