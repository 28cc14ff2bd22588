// Sums of multiples by elements of F. They stand as parts, with room for an element each: part k is the sum of the elements
// whose factor has digit k. z comes in once, in the total.
ghost use Rattle.std.specs.Prelude.{◌≤◌};
ghost use Rattle.field.specs.Ring.{Ring, Hom};
ghost use Rattle.field.specs.Level.{level_at, K, embed};
ghost use Rattle.field.specs.Word.{small};
ghost use Rattle.field.specs.Packed.{Holds, Combines};

use crate::{Element, FIRST, SECOND, TABLE, WORDS, packed};

// Adds f, an element of F, times x.
pub fn add(parts: &mut [u64; TABLE], x: Element, f: u16, level: usize)
    ensures { (y e : (K (level_at level)).Carrier) → f ≤ (level_at level).limit → Combines (level_at level) parts.old y → Holds (level_at level) x.words e → Combines (level_at level) parts.new ((K (level_at level)).add y ((K (level_at level)).mul ((embed (level_at level)).map (small (level_at level) f)) e)) }
{
    let words = x.words;
    if level == SECOND {
        packed::add_parts(parts, &words, f, SECOND);
    } else {
        packed::add_parts(parts, &words, f, FIRST);
    }
}

// The sum.
pub fn total(parts: &[u64; TABLE], level: usize) -> Element
    ensures { (y : (K (level_at level)).Carrier) → Combines (level_at level) parts.now y → Holds (level_at level) result.words y }
{
    let mut words = [0u64; WORDS];
    if level == SECOND {
        packed::total(&mut words, parts, SECOND);
        return Element { words };
    }
    packed::total(&mut words, parts, FIRST);
    Element { words }
}
