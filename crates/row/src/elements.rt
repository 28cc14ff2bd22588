// Elements of K at places of lent words.
ghost use Rattle.std.specs.Prelude.{◌+◌, ◌<◌, length};
ghost use Rattle.field.specs.Level.{level_at, K};
ghost use Rattle.field.specs.Packed.{Holds};
ghost use Rattle.field.specs.Word.{Words};
ghost use Rattle.row.specs.Elements.{el, Fits, Held};
ghost use Rattle.row.specs.Step.{Step, Put, PutTwo};

use field::{Element, Level};

// Element i.
pub fn get(s: &[u16], i: usize, level: usize) -> Element
    requires { Words (level_at level) s.now × Fits (level_at level) (i + 1) (length s.now) }
    ensures { Holds (level_at level) result.words (el (level_at level) s.now i) }
{
    let parameters = Level::of(level);
    let at = parameters.coordinates * i;
    Element::load(s, at, level)
}

// Writes x as element i.
pub fn put(s: &mut [u16], i: usize, x: Element, level: usize)
    requires { Words (level_at level) s.old × Fits (level_at level) (i + 1) (length s.old) }
    ensures { (y : (K (level_at level)).Carrier) → Holds (level_at level) x.words y → Step (level_at level) s.old s.new (λ f g. Put f g i y) }
{
    let parameters = Level::of(level);
    let at = parameters.coordinates * i;
    x.store(s, at, level);
}

// Writes x as element a and y as element b.
pub fn put_two(s: &mut [u16], a: usize, x: Element, b: usize, y: Element, level: usize)
    requires { Words (level_at level) s.old × Held (level_at level) x.words × (a < b) × Fits (level_at level) (b + 1) (length s.old) }
    ensures { (u v : (K (level_at level)).Carrier) → Holds (level_at level) x.words u → Holds (level_at level) y.words v → Step (level_at level) s.old s.new (λ f g. PutTwo f g a u b v) }
{
    put(s, a, x, level);
    put(s, b, y, level);
}

// Adds x to element i.
pub fn add_at(s: &mut [u16], i: usize, x: Element, level: usize)
    requires { Words (level_at level) s.old × Fits (level_at level) (i + 1) (length s.old) }
    ensures { (y : (K (level_at level)).Carrier) → Holds (level_at level) x.words y → Step (level_at level) s.old s.new (λ f g. Put f g i ((K (level_at level)).add (f i) y)) }
{
    let old = get(s, i, level);
    put(s, i, old.plus(x, level), level);
}
