// The fields F and K of the specification.
#![tactic(auto)]

ghost use Rattle.std.specs.Prelude.{◌≡◌, ◌+◌, ◌*◌, ◌≤◌, ◌<◌, eqb, length};
ghost use Rattle.lists.specs.Words.{part, put};
ghost use Rattle.field.specs.Ring.{Ring, Hom};
ghost use Rattle.field.specs.Binary.{bit};
ghost use Rattle.field.specs.Level.{level_at, F, K, embed, Y};
ghost use Rattle.field.specs.Word.{odd, small, words, within, is_zero};
ghost use Rattle.field.specs.Packed.{Holds, Multiplies, room};

pub mod combination;
mod packed;
pub mod small;

// What one level fixes: z^width = z^tap + 1 in F, whose elements are the numbers up to limit;
// Y^coordinates = Y^power + 1 in K; n is at most most.
#[derive(Clone, Copy)]
pub struct Level {
    pub width: usize,
    pub tap: usize,
    pub limit: u16,
    pub coordinates: usize,
    pub power: usize,
    pub most: usize,
}

// The numbers of the levels.
pub const FIRST: usize = 1;

pub const SECOND: usize = 2;

pub const LEVELS: [Level; 2] = [
    Level {
        width: 11,
        tap: 2,
        limit: 2047,
        coordinates: 12,
        power: 3,
        most: 64,
    },
    Level {
        width: 12,
        tap: 3,
        limit: 4095,
        coordinates: 23,
        power: 5,
        most: 128,
    },
];

impl Level {
    // The level with this number: the second for SECOND, and the first for every other.
    pub fn of(number: usize) -> Level
        ensures { result ≡ level_at number }
    {
        match number {
            SECOND => LEVELS[1],
            _ => LEVELS[0],
        }
    }
}

// The packed words of an element, four coordinates each, enough for each level.
pub const WORDS: usize = 6;

// The packed words of a table of multiples, or of a sum of parts, enough for each level.
pub const TABLE: usize = 72;

// Those of a table of the first level.
const NARROW: usize = 33;

// An element of K: four coordinates to a word, sixteen bits each, in as many words as the level needs; nothing is known of the
// others. Its functions are told the level, and hand it to the kernels as a constant.
#[derive(Clone, Copy)]
pub struct Element {
    pub words: [u64; WORDS],
}

// A factor of many products: at the first level its multiples by 1, z, z^2 and so on, at the second the factor itself, whose
// multiples each product makes. It is handed on by value, and the words moved are what it costs.
#[derive(Clone, Copy)]
pub struct Multiples {
    pub words: [u64; NARROW],
}

impl Element {
    pub const ZERO: Element = Element {
        words: [0, 0, 0, 0, 0, 0],
    };

    pub const ONE: Element = Element {
        words: [1, 0, 0, 0, 0, 0],
    };

    pub const Y: Element = Element {
        words: [65536, 0, 0, 0, 0, 0],
    };

    pub fn zero(level: usize) -> Element
        ensures { Holds (level_at level) result.words (K (level_at level)).zero }
    {
        Element::ZERO
    }

    pub fn one(level: usize) -> Element
        ensures { Holds (level_at level) result.words (K (level_at level)).one }
    {
        Element::ONE
    }

    pub fn y(level: usize) -> Element
        ensures { Holds (level_at level) result.words (Y (level_at level)) }
    {
        Element::Y
    }

    // The element whose words stand in s from place at on.
    pub fn load(s: &[u16], at: usize, level: usize) -> Element
        requires { at + (level_at level).coordinates ≤ length s.now }
        ensures { (x : (K (level_at level)).Carrier) → part at (level_at level).coordinates s.now ≡ words (level_at level) x → Holds (level_at level) result.words x }
    {
        let a = packed::four_at(s, at);
        let b = packed::four_at(s, at + 4);
        let c = packed::four_at(s, at + 8);
        if level == SECOND {
            let d = packed::four_at(s, at + 12);
            let e = packed::four_at(s, at + 16);
            let f = packed::three_at(s, at + 20);
            return Element {
                words: [a, b, c, d, e, f],
            };
        }
        Element {
            words: [a, b, c, 0, 0, 0],
        }
    }

    // Writes the element's words to s from place at on.
    pub fn store(self, s: &mut [u16], at: usize, level: usize)
        requires { at + (level_at level).coordinates ≤ length s.old }
        ensures { (x : (K (level_at level)).Carrier) → Holds (level_at level) self.words x → s.new ≡ put at (words (level_at level) x) s.old }
    {
        let words = self.words;
        if level == SECOND {
            packed::store(&words, s, at, SECOND);
        } else {
            packed::store(&words, s, at, FIRST);
        }
    }

    pub fn plus(self, other: Element, level: usize) -> Element
        ensures { (x y : (K (level_at level)).Carrier) → Holds (level_at level) self.words x → Holds (level_at level) other.words y → Holds (level_at level) result.words ((K (level_at level)).add x y) }
    {
        let mut words = self.words;
        let b = other.words;
        if level == SECOND {
            packed::add(&mut words, &b, 1, SECOND);
            return Element { words };
        }
        packed::add(&mut words, &b, 1, FIRST);
        Element { words }
    }

    pub fn times(self, other: Element, level: usize) -> Element
        ensures { (x y : (K (level_at level)).Carrier) → Holds (level_at level) self.words x → Holds (level_at level) other.words y → Holds (level_at level) result.words ((K (level_at level)).mul x y) }
    {
        if level == SECOND {
            return self.product::<TABLE>(other, SECOND);
        }
        self.product::<NARROW>(other, FIRST)
    }

    // The product, with a table of as many words as the level needs. Not inlined, so that a call takes the stack of one level's table alone.
    #[inline(never)]
    fn product<const ROOM: usize>(self, other: Element, level: usize) -> Element
        requires { (room (level_at level) * (level_at level).width ≤ ROOM) × (ROOM ≤ 72) }
        ensures { (x y : (K (level_at level)).Carrier) → Holds (level_at level) self.words x → Holds (level_at level) other.words y → Holds (level_at level) result.words ((K (level_at level)).mul x y) }
    {
        let a = self.words;
        let b = other.words;
        let mut table = [0u64; ROOM];
        packed::multiples(&mut table, &a, level);
        let words = packed::product(&table, &b, level);
        Element { words }
    }

    // Zero exactly when the element is zero. A number, so that many are joined before the one decision: they may be secret.
    pub fn nonzero(self, level: usize) -> u16
        ensures { (x : (K (level_at level)).Carrier) → Holds (level_at level) self.words x → eqb result 0 ≡ is_zero (level_at level) x }
    {
        let words = self.words;
        if level == SECOND {
            return packed::nonzero(&words, SECOND);
        }
        packed::nonzero(&words, FIRST)
    }

    // The element where b is 1, and zero where it is 0.
    pub fn masked(self, b: u64, level: usize) -> Element
        requires { b < 2 }
        ensures { (x : (K (level_at level)).Carrier) → Holds (level_at level) self.words x → Holds (level_at level) result.words ((K (level_at level)).mul (bit (K (level_at level)) (odd b)) x) }
    {
        let a = self.words;
        let mut words = [0u64; WORDS];
        if level == SECOND {
            packed::add(&mut words, &a, b, SECOND);
            return Element { words };
        }
        packed::add(&mut words, &a, b, FIRST);
        Element { words }
    }
}

impl Multiples {
    pub fn of(factor: Element, level: usize) -> Multiples
        ensures { (x : (K (level_at level)).Carrier) → Holds (level_at level) factor.words x → Multiplies (level_at level) result x }
    {
        let a = factor.words;
        let mut words = [0u64; NARROW];
        if level == SECOND {
            packed::add(&mut words, &a, 1, SECOND);
            return Multiples { words };
        }
        packed::multiples(&mut words, &a, FIRST);
        Multiples { words }
    }

    // The factor times another element.
    pub fn times(self, other: Element, level: usize) -> Element
        ensures { (x y : (K (level_at level)).Carrier) → Multiplies (level_at level) self x → Holds (level_at level) other.words y → Holds (level_at level) result.words ((K (level_at level)).mul x y) }
    {
        let table = self.words;
        let b = other.words;
        if level == SECOND {
            let mut long = [0u64; TABLE];
            packed::multiples(&mut long, &table, SECOND);
            let all = packed::product(&long, &b, SECOND);
            return Element { words: all };
        }
        let words = packed::product(&table, &b, FIRST);
        Element { words }
    }

    // f, an element of F, times the factor.
    pub fn scaled(self, f: u16, level: usize) -> Element
        ensures { (x : (K (level_at level)).Carrier) → f ≤ (level_at level).limit → Multiplies (level_at level) self x → Holds (level_at level) result.words ((K (level_at level)).mul ((embed (level_at level)).map (small (level_at level) f)) x) }
    {
        let table = self.words;
        let mut words = [0u64; WORDS];
        if level == SECOND {
            let mut long = [0u64; TABLE];
            packed::multiples(&mut long, &table, SECOND);
            packed::scaled(&mut words, &long, f, SECOND);
            return Element { words };
        }
        packed::scaled(&mut words, &table, f, FIRST);
        Element { words }
    }
}

// Zero exactly when no word of s is above the level's limit. A number, so that many are joined before the one decision: they may be secret.
pub fn excess(s: &[u16], level: usize) -> u16
    ensures { eqb result 0 ≡ within (level_at level) s.now }
{
    let mut any: u16 = 0;
    for &x in s {
        any |= x;
    }
    let l = Level::of(level);
    any >> l.width
}
