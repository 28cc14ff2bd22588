// The key of the specification: its sizes and d, the positions of a prover, and the refusals that concern them.
#![tactic(auto)]

ghost use Rattle.std.specs.Prelude.{◌≡◌, ◌++◌, ◌+◌, ◌≤◌, ◌<◌, ltb, eqb, length};
ghost use Rattle.refusal.specs.Answer.{first_of};
ghost use Rattle.field.specs.Level.{level_at};
ghost use Rattle.key.specs.Key.{degree, lengths, size_n, sizes, Sized, below, codes_of, code_number, code_at, slices_of, key_within, contents, material, spare_row};

use field::Level;
use refusal::{Answer, Refusal};

// The sizes of a key.
#[derive(Clone, Copy)]
pub struct Key {
    pub n: usize,
    pub m: usize,
}

// A key as it is lent: its sizes, and H, x and y.
#[derive(Clone, Copy)]
pub struct Lent<'a> {
    pub key: Key,
    pub h: &'a [u16],
    pub x: &'a [u16],
    pub y: &'a [u16],
}

// What a position is: a column, below n; a spare code, from n to 2^d - 1; or too large.
#[derive(Clone, Copy)]
pub enum Code {
    Column,
    Spare,
    TooLarge,
}

// The lengths of lent slices, in bytes or words: H, x, y, positions, bits, elements of K for the correlations, all polynomials,
// all values and as many weights, the masks, the proof, and one element of K.
#[derive(Clone, Copy)]
pub struct Lengths {
    pub matrix: usize,
    pub vector: usize,
    pub target: usize,
    pub positions: usize,
    pub bits: usize,
    pub elements: usize,
    pub polynomials: usize,
    pub values: usize,
    pub masks: usize,
    pub proof: usize,
    pub one: usize,
}

impl Key {
    // The number of binary digits of n - 1.
    pub fn degree(self) -> usize
        requires { 1 ≤ self.n }
        ensures { result ≡ degree self.n }
    {
        let last = self.n - 1;
        (64 - usize::leading_zeros(last)) as usize
    }

    // The lengths of the slices lent with a key whose sizes are not refused.
    pub fn lengths(self, level: usize) -> Lengths
        requires { Sized (level_at level) self }
        ensures { result ≡ lengths (level_at level) self }
    {
        let n = self.n;
        let m = self.m;
        let d = self.degree();
        let w = Level::of(level).coordinates;
        let bits = n * d;
        let size = n + m;
        Lengths {
            matrix: m * n,
            vector: n,
            target: m,
            positions: n,
            bits,
            elements: w * bits,
            polynomials: w * (size * (d + 1)),
            values: w * size,
            masks: w * (d - 1),
            proof: w * d,
            one: w,
        }
    }

    // The first refusal of the sizes that applies.
    pub fn sizes(self, level: usize) -> Answer
        ensures { result ≡ first_of (sizes (level_at level) self) }
    {
        let n = self.n;
        let m = self.m;
        size_n(n, level)?;
        if m == 0 {
            return Err(Refusal::SizeM);
        }
        if n <= m {
            return Err(Refusal::SizeM);
        }
        Ok(())
    }

    // The number of the positions' case, the highest among theirs. The ninth digits of all are joined, so that no branch and no index depends
    // on a position.
    pub fn codes(self, positions: &[u8]) -> u8
        requires { (1 ≤ self.n) × (self.n ≤ 256) }
        ensures { result ≡ code_number (codes_of self.n positions.now) }
    {
        let n = self.n;
        let power = 1usize << self.degree();
        let mut no_column: u16 = 0;
        let mut no_code: u16 = 0;
        for &position in positions {
            no_column |= reach(position, n);
            no_code |= reach(position, power);
        }
        ((no_column >> 8) + (no_code >> 8)) as u8
    }
}

impl Lent<'_> {
    // Zero exactly when no element is above the limit: a number, as `field::excess` is.
    fn excess(&self, level: usize) -> u16
        ensures { eqb result 0 ≡ key_within (level_at level) (slices_of self.now) }
    {
        field::excess(self.h, level) | (field::excess(self.x, level) | field::excess(self.y, level))
    }

    // The first of refusals 4 and 15 that applies. The rows of H are tested in memory of the first level's size.
    pub fn contents(&self, level: usize) -> Answer
        requires { Sized (level_at level) self.now.key × (length self.now.h.now ≡ (lengths (level_at level) self.now.key).matrix) × ((lengths (level_at level) self.now.key).matrix ≤ 4032) }
        ensures { result ≡ first_of (contents (level_at level) self.now.key (slices_of self.now)) }
    {
        if self.excess(level) != 0 {
            return Err(Refusal::KeyElement);
        }
        if elimination::short(self.h, self.key.n, self.key.m, level) {
            Err(Refusal::DependentRows)
        } else {
            Ok(())
        }
    }
}

// The first refusal of n alone that applies.
pub fn size_n(n: usize, level: usize) -> Answer
    ensures { result ≡ first_of (size_n (level_at level) n) }
{
    if n < 2 {
        return Err(Refusal::SizeN);
    }
    let most = Level::of(level).most;
    if most < n {
        return Err(Refusal::SizeN);
    }
    Ok(())
}

// The position and what the limit lacks to 256: it has a ninth digit exactly when the position is the limit or more.
fn reach(position: u8, limit: usize) -> u16
    requires { limit ≤ 256 }
    ensures { (result < 512) × (ltb result 256 ≡ ltb position limit) }
{
    u16::from(position) + (256 - limit) as u16
}

impl Code {
    // The number of Column.
    pub const COLUMN: u8 = 0;

    // The number of TooLarge, which has a digit that the others do not have.
    pub const TOO_LARGE: u8 = 2;

    // The case with this number.
    pub fn of(number: u8) -> Code
        ensures { result ≡ code_at number }
    {
        if 1 < number {
            return Code::TooLarge;
        }
        if number == 1 {
            return Code::Spare;
        }
        Code::Column
    }
}

// Zero exactly when every byte of s is below 2^digits. A number, so that many are joined before the one decision: they may be secret.
pub fn over(s: &[u8], digits: usize) -> u8
    requires { digits < 8 }
    ensures { eqb result 0 ≡ below digits s.now }
{
    let mut any: u8 = 0;
    for &byte in s {
        any |= byte;
    }
    any >> digits
}

// The first of refusals 5 to 7 and 16 that applies. Each of 5 and 6 is told by a number that is zero where it does not, 7 and 16 by the number of
// the positions' case, which decides nothing where one of these applies.
pub fn material(bits: u8, coordinates: u16, positions: u8) -> Answer
    ensures { result ≡ first_of (material (eqb bits 0) (eqb coordinates 0) (code_at positions) ++ spare_row (code_at positions)) }
{
    if bits != 0 {
        return Err(Refusal::Bit);
    }
    if coordinates != 0 {
        return Err(Refusal::Coordinate);
    }
    match Code::of(positions) {
        Code::TooLarge => Err(Refusal::Position),
        Code::Spare => Err(Refusal::SpareCode),
        Code::Column => Ok(()),
    }
}
