// One row's work on lent elements: its products for every column, and its share in the n + m results.
// No branch and no index depends on positions, offsets, bits or numbers.
#![tactic(auto)]

ghost use Rattle.std.specs.Prelude.{◌≡◌, length, replicate};

pub mod elements;
pub mod equations;
pub mod products;
pub mod sums;

// Fills s with zeros.
pub fn clear(s: &mut [u16])
    ensures { s.new ≡ replicate (length s.old) 0 }
{
    s.fill(0);
}
