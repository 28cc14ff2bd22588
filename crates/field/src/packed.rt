// Elements of K in packed words, four coordinates of sixteen bits to a word. The functions are told the level; where it is a
// constant at the call, the compiler knows the number of turns of each loop.
ghost use Rattle.std.specs.Prelude.{◌≡◌, [], ◌∷◌, ℕ, suc, ◌+◌, ◌-◌, ◌*◌, ◌/◌, ◌%◌, ◌^◌, ◌≤◌, ◌<◌, eqb, length, get_or, drop};
ghost use Rattle.std.specs.Int.Bits.{bit_xor, bit_and};
ghost use Rattle.lists.specs.Words.{put};
ghost use Rattle.field.specs.Ring.{Ring, Hom};
ghost use Rattle.field.specs.Level.{level_at, K, embed, Y};
ghost use Rattle.field.specs.Word.{small, words, is_zero};
ghost use Rattle.field.specs.Packed.{lane, coordinate, Holds, room, Tabulates, TimesZ, Combines};

use crate::{Level, WORDS};

// Four coordinates in a word.
fn four(a: u16, b: u16, c: u16, d: u16) -> u64
    ensures { (j : ℕ) → j < 4 → lane result j ≡ get_or (a ∷ b ∷ c ∷ d ∷ []) j 0 }
{
    (a as u64) + ((b as u64) << 16) + ((c as u64) << 32) + ((d as u64) << 48)
}

// The four coordinates that stand in s from place i on.
pub fn four_at(s: &[u16], i: usize) -> u64
    requires { i + 4 ≤ length s.now }
    ensures { (j : ℕ) → j < 4 → lane result j ≡ get_or s.now (i + j) 0 }
{
    four(s[i], s[i + 1], s[i + 2], s[i + 3])
}

// The three coordinates that stand in s from place i on.
pub fn three_at(s: &[u16], i: usize) -> u64
    requires { i + 3 ≤ length s.now }
    ensures { (j : ℕ) → j < 3 → lane result j ≡ get_or s.now (i + j) 0 }
{
    four(s[i], s[i + 1], s[i + 2], 0)
}

// How many words an element has.
fn room(level: usize) -> usize
    ensures { result ≡ room (level_at level) }
{
    let l = Level::of(level);
    (l.coordinates + 3) / 4
}

// Coordinate i.
fn coordinate(ws: &[u64], i: usize) -> u16
    requires { i < 4 * length ws.now }
    ensures { result ≡ coordinate ws.now i }
{
    ((ws[i / 4] >> (16 * (i % 4))) % 65536) as u16
}

// Writes the coordinates to s from place at on.
pub fn store(ws: &[u64], s: &mut [u16], at: usize, level: usize)
    requires { (room (level_at level) ≤ length ws.now) × (at + (level_at level).coordinates ≤ length s.old) }
    ensures { (x : (K (level_at level)).Carrier) → Holds (level_at level) ws.now x → s.new ≡ put at (words (level_at level) x) s.old }
{
    let l = Level::of(level);
    let coordinates = l.coordinates;
    for i in 0..coordinates {
        s[at + i] = coordinate(ws, i);
    }
}

// Zero exactly when the element is zero. A number, as is each such answer: what is lent may be secret, and is joined before the one decision.
pub fn nonzero(ws: &[u64], level: usize) -> u16
    requires { room (level_at level) ≤ length ws.now }
    ensures { (x : (K (level_at level)).Carrier) → Holds (level_at level) ws.now x → eqb result 0 ≡ is_zero (level_at level) x }
{
    let l = Level::of(level);
    let coordinates = l.coordinates;
    let mut any: u16 = 0;
    for i in 0..coordinates {
        any = any | coordinate(ws, i);
    }
    any
}

// Adds x to z where b is 1, and nothing where it is 0.
pub fn add(z: &mut [u64], x: &[u64], b: u64, level: usize)
    requires { (room (level_at level) ≤ length z.old) × (room (level_at level) ≤ length x.now) × (b < 2) }
    ensures { (q : ℕ) → q < room (level_at level) → get_or z.new q 0 ≡ bit_xor (get_or z.old q 0) (bit_and (get_or x.now q 0) (b * (2 ^ 64 - 1))) }
{
    let mask = b * 0xffff_ffff_ffff_ffff;
    let w = room(level);
    for q in 0..w {
        z[q] = z[q] ^ (x[q] & mask);
    }
}

// z times each of four coordinates.
fn times_z(x: u64, level: usize) -> u64
    ensures { TimesZ (level_at level).width (level_at level).tap x result }
{
    let l = Level::of(level);
    let rule = (1u64 << l.width) + (1u64 << l.tap) + 1;
    let highest = (x >> (l.width - 1)) & 0x0001_0001_0001_0001;
    (x << 1) ^ (highest * rule)
}

// The coordinates one place up in a word, with b put in below.
fn up(x: u64, b: u64) -> u64
    requires { b < 65536 }
    ensures zero { lane result 0 ≡ b }
    ensures others { (j : ℕ) → j < 3 → lane result (suc j) ≡ lane x j }
{
    (x << 16) + b
}

// All coordinates one place up, with b put in below.
fn raise(z: &mut [u64], b: u64, level: usize)
    requires { (room (level_at level) ≤ length z.old) × (b < 65536) }
    ensures first { lane (get_or z.new 0 0) 0 ≡ b }
    ensures within { (q j : ℕ) → q < room (level_at level) → j < 3 → lane (get_or z.new q 0) (suc j) ≡ lane (get_or z.old q 0) j }
    ensures across { (q : ℕ) → suc q < room (level_at level) → lane (get_or z.new (suc q) 0) 0 ≡ lane (get_or z.old q 0) 3 }
{
    let mut carry = b;
    let w = room(level);
    for q in 0..w {
        let x = z[q];
        z[q] = up(x, carry);
        carry = (x >> 48) % 65536;
    }
}

// Y times the element.
fn times_y(z: &mut [u64], level: usize)
    requires { room (level_at level) ≤ length z.old }
    ensures { (x : (K (level_at level)).Carrier) → Holds (level_at level) z.old x → Holds (level_at level) z.new ((K (level_at level)).mul (Y (level_at level)) x) }
{
    let l = Level::of(level);
    let top = coordinate(z, l.coordinates - 1) as u64;
    raise(z, top, level);
    let p = l.power;
    z[p / 4] = z[p / 4] ^ (top << (16 * (p % 4)));
}

// Fills a table whose first words are an element with its multiples by 1, z, z^2 and so on.
fn fill(table: &mut [u64], level: usize)
    requires { room (level_at level) * (level_at level).width ≤ length table.old }
    ensures { (x : (K (level_at level)).Carrier) → Holds (level_at level) table.old x → Tabulates (level_at level) table.new x }
{
    let l = Level::of(level);
    let w = room(level);
    let end = w * l.width;
    for i in w..end {
        table[i] = times_z(table[i - w], level);
    }
}

// The table of an element, in place of zeros.
pub fn multiples(table: &mut [u64], ws: &[u64], level: usize)
    requires { (room (level_at level) * (level_at level).width ≤ length table.old) × (room (level_at level) ≤ length ws.now) }
    ensures { (x : (K (level_at level)).Carrier) → Holds (level_at level) table.old (K (level_at level)).zero → Holds (level_at level) ws.now x → Tabulates (level_at level) table.new x }
{
    add(table, ws, 1, level);
    fill(table, level);
}

// Word at of f times the factor of a table.
fn word(table: &[u64], at: usize, f: u64, level: usize) -> u64
    requires { (at < room (level_at level)) × (room (level_at level) * (level_at level).width ≤ length table.now) }
    ensures { (x : (K (level_at level)).Carrier) → f < 2 ^ (level_at level).width → Tabulates (level_at level) table.now x → (j : ℕ) → j < 4 → 4 * at + j < (level_at level).coordinates → lane result j ≡ get_or (words (level_at level) ((K (level_at level)).mul ((embed (level_at level)).map (small (level_at level) f)) x)) (4 * at + j) 0 }
{
    let l = Level::of(level);
    let width = l.width;
    let w = room(level);
    let mut x: u64 = 0;
    for k in 0..width {
        x = x ^ (table[w * k + at] & ((f >> k) % 2 * 0xffff_ffff_ffff_ffff));
    }
    x
}

// Writes f, an element of F, times the factor of a table.
pub fn scaled(z: &mut [u64], table: &[u64], f: u16, level: usize)
    requires { (room (level_at level) ≤ length z.old) × (room (level_at level) * (level_at level).width ≤ length table.now) }
    ensures { (x : (K (level_at level)).Carrier) → f < 2 ^ (level_at level).width → Tabulates (level_at level) table.now x → Holds (level_at level) z.new ((K (level_at level)).mul ((embed (level_at level)).map (small (level_at level) f)) x) }
{
    let g = f as u64;
    let w = room(level);
    for q in 0..w {
        z[q] = word(table, q, g, level);
    }
}

// The factor of a table times an element. Both arrays are its own, so that the compiler keeps their words in registers.
pub fn product(table: &[u64], other: &[u64], level: usize) -> [u64; WORDS]
    requires { (room (level_at level) * (level_at level).width ≤ length table.now) × (room (level_at level) ≤ length other.now) }
    ensures { (x y : (K (level_at level)).Carrier) → Tabulates (level_at level) table.now x → Holds (level_at level) other.now y → Holds (level_at level) result ((K (level_at level)).mul x y) }
{
    let l = Level::of(level);
    let mut z = [0u64; WORDS];
    for i in (0..l.coordinates).rev() {
        times_y(&mut z, level);
        let mut multiple = [0u64; WORDS];
        scaled(&mut multiple, table, coordinate(other, i), level);
        add(&mut z, &multiple, 1, level);
    }
    z
}

// Adds x to word q of each part whose digit of f is one.
fn add_word(parts: &mut [u64], q: usize, x: u64, f: u64, level: usize)
    requires { (q < room (level_at level)) × (room (level_at level) * (level_at level).width ≤ length parts.old) }
    ensures here { (k : ℕ) → k < (level_at level).width → get_or parts.new (room (level_at level) * k + q) 0 ≡ bit_xor (get_or parts.old (room (level_at level) * k + q) 0) (bit_and x (f / 2 ^ k % 2 * (2 ^ 64 - 1))) }
    ensures others { (k p : ℕ) → p < room (level_at level) → (p ≡ q → ⊥) → get_or parts.new (room (level_at level) * k + p) 0 ≡ get_or parts.old (room (level_at level) * k + p) 0 }
{
    let l = Level::of(level);
    let width = l.width;
    let w = room(level);
    for k in 0..width {
        let at = w * k + q;
        parts[at] = parts[at] ^ (x & ((f >> k) % 2 * 0xffff_ffff_ffff_ffff));
    }
}

// Adds f, an element of F, times x to a sum of parts.
pub fn add_parts(parts: &mut [u64], x: &[u64], f: u16, level: usize)
    requires { (room (level_at level) ≤ length x.now) × (room (level_at level) * (level_at level).width ≤ length parts.old) }
    ensures { (y e : (K (level_at level)).Carrier) → f < 2 ^ (level_at level).width → Combines (level_at level) parts.old y → Holds (level_at level) x.now e → Combines (level_at level) parts.new ((K (level_at level)).add y ((K (level_at level)).mul ((embed (level_at level)).map (small (level_at level) f)) e)) }
{
    let digits = f as u64;
    let w = room(level);
    for q in 0..w {
        add_word(parts, q, x[q], digits, level);
    }
}

// z times the element, plus the part from word at on.
fn next(sum: &mut [u64], parts: &[u64], at: usize, level: usize)
    requires { (room (level_at level) ≤ length sum.old) × (at + room (level_at level) ≤ length parts.now) }
    ensures { (x p : (K (level_at level)).Carrier) → Holds (level_at level) sum.old x → Holds (level_at level) (drop at parts.now) p → Holds (level_at level) sum.new ((K (level_at level)).add p ((K (level_at level)).mul ((embed (level_at level)).map (small (level_at level) 2)) x)) }
{
    let w = room(level);
    for q in 0..w {
        sum[q] = parts[at + q] ^ times_z(sum[q], level);
    }
}

// The sum of parts, in place of zero.
pub fn total(sum: &mut [u64], parts: &[u64], level: usize)
    requires { (room (level_at level) ≤ length sum.old) × (room (level_at level) * (level_at level).width ≤ length parts.now) }
    ensures { (y : (K (level_at level)).Carrier) → Holds (level_at level) sum.old (K (level_at level)).zero → Combines (level_at level) parts.now y → Holds (level_at level) sum.new y }
{
    let l = Level::of(level);
    let w = room(level);
    for k in (0..l.width).rev() {
        next(sum, parts, w * k, level);
    }
}
