// The fields of packages and check files of the specification: their rows, the tests of each, and where a content stands.
#![tactic(auto)]

ghost use Rattle.std.specs.Prelude.{◌≡◌, List, [], ◌∷◌, ◌+◌, ◌-◌, ◌≤◌, ◌<◌, eqb, length, get_or};
ghost use Rattle.refusal.specs.Answer.{first_of, Done};
ghost use Rattle.copying.specs.Words.{word, words};
ghost use Rattle.field.specs.declared.Level.{Level};
ghost use Rattle.field.specs.Level.{FIRST, level_at};
ghost use Rattle.field.specs.Word.{within};
ghost use Rattle.key.specs.Key.{Sized};
ghost use Rattle.layout.specs.declared.Row.{Row};
ghost use Rattle.layout.specs.declared.Kind.TheVariants.{Target};
ghost use Rattle.layout.specs.Layout.{serial_length, optional, serial_row, proof_rows, key_segment, group_rows, check_rows, leans, key_tests, key_end};
ghost use Rattle.layout.specs.Tests.{key_at, zeros, long_serial, value_tests, row_tests, tests, end_tests, part_of};
ghost use Rattle.layout.specs.Steps.{Whole, stepped, outcome, further};

use elimination::MATRIX;
use field::{FIRST, Level};
use key::Key;
use refusal::{Answer, Refusal};

// What a field's content holds, and so how its values are checked.
#[derive(Clone, Copy, Debug, PartialEq, Eq)]
pub enum Kind {
    Sizes,
    Elements,
    Target,
    Serial,
    Bits,
    Coordinates,
}

// A field of the layout: its tag, the length of its content and what that is.
#[derive(Clone, Copy, Debug, PartialEq, Eq)]
pub struct Row {
    pub tag: u8,
    pub len: usize,
    pub kind: Kind,
}

impl Row {
    // Field 01, which comes first and gives n and m.
    pub const SIZES: Row = Row {
        tag: 0x01,
        len: 2,
        kind: Kind::Sizes,
    };

    // The tags of the others.
    pub const H: u8 = 0x02;

    pub const X: u8 = 0x03;

    pub const Y: u8 = 0x04;

    pub const SERIAL: u8 = 0x05;

    pub const T: u8 = 0x06;

    pub const A: u8 = 0x07;

    pub const Q: u8 = 0x11;

    pub const MASKS: u8 = 0x12;

    pub const DELTA: u8 = 0x13;

    pub const ALPHA: u8 = 0x14;
}

// The bytes of tag and length.
pub const HEAD: usize = 3;

// Where the content of field 02 stands in a file: after field 01 and the head.
const H_START: usize = 8;

// Where a content stands in the bytes lent.
#[derive(Clone, Copy, Debug, PartialEq, Eq)]
pub struct Part {
    pub start: usize,
    pub len: usize,
}

// n and m, one byte each, at place i: 0 in a content, 3 in a file.
pub fn key_at(s: &[u8], i: usize) -> Key
    requires { i ≤ 3 }
    ensures { result ≡ key_at s.now i }
{
    Key {
        n: copying::byte_at(s, i),
        m: copying::byte_at(s, i + 1),
    }
}

// Whether each number of two bytes is within the limit; a last byte alone is passed over.
fn words_within(c: &[u8]) -> bool
    ensures { result ≡ within (level_at FIRST) (words c.now) }
{
    let limit = usize::from(Level::of(FIRST).limit);
    for pair in c.chunks_exact(2) {
        if limit < copying::word_at(pair, 0) {
            return false;
        }
    }
    true
}

// Whether each number of two bytes is zero; a last byte alone is passed over.
fn words_zero(c: &[u8]) -> bool
    ensures { result ≡ zeros (words c.now) }
{
    for pair in c.chunks_exact(2) {
        if copying::word_at(pair, 0) != 0 {
            return false;
        }
    }
    true
}

// P5 of y: an element above the limit, then no element but zeros.
fn target_values(c: &[u8]) -> Answer
    ensures { result ≡ first_of (value_tests (level_at FIRST) Target c.now) }
{
    if !words_within(c) {
        return Err(Refusal::KeyElement);
    }
    if words_zero(c) {
        Err(Refusal::ZeroTarget)
    } else {
        Ok(())
    }
}

// Whether a serial has four bytes and would fit two.
fn long_serial(c: &[u8]) -> bool
    ensures { result ≡ long_serial c.now }
{
    if c.len() != 4 {
        return false;
    }
    copying::from_bytes(c) < 65536
}

// P5: the first refusal of a content's values that applies.
fn values(c: &[u8], kind: Kind) -> Answer
    ensures { result ≡ first_of (value_tests (level_at FIRST) kind c.now) }
{
    match kind {
        Kind::Sizes => key_at(c, 0).sizes(FIRST),
        Kind::Elements => {
            if words_within(c) {
                Ok(())
            } else {
                Err(Refusal::KeyElement)
            }
        }
        Kind::Target => target_values(c),
        Kind::Serial => {
            if long_serial(c) {
                Err(Refusal::LongSerial)
            } else {
                Ok(())
            }
        }
        Kind::Bits => {
            if key::over(c, 1) == 0 {
                Ok(())
            } else {
                Err(Refusal::Bit)
            }
        }
        Kind::Coordinates => {
            if words_within(c) {
                Ok(())
            } else {
                Err(Refusal::Coordinate)
            }
        }
    }
}

// The bytes from a position on, none past the end.
fn left(s: &[u8], at: usize) -> usize
    ensures { result ≡ length s.now - at }
{
    s.len().saturating_sub(at)
}

// P1 to P5 of the field at a position.
fn check_row(s: &[u8], at: usize, row: Row) -> Answer
    ensures { result ≡ first_of (row_tests (level_at FIRST) s.now at row) }
{
    if left(s, at) < HEAD {
        return Err(Refusal::BytesMissing);
    }
    if s[at] != row.tag {
        return Err(Refusal::Tag);
    }
    if copying::word_at(s, at + 1) != row.len {
        return Err(Refusal::FieldLength);
    }
    let start = at + HEAD;
    if s.len() - start < row.len {
        return Err(Refusal::BytesMissing);
    }
    let end = start + row.len;
    values(&s[start..end], row.kind)
}

// Whether the byte at a position is this tag; past the end it is 0.
fn has_tag(s: &[u8], at: usize, tag: u8) -> bool
    ensures { result ≡ eqb (get_or s.now at 0) tag }
{
    copying::byte_at(s, at) == usize::from(tag)
}

// The field at a position: where it ends, or the first refusal.
fn read_row(s: &[u8], at: usize, row: Row) -> Result<usize, Refusal>
    ensures { result ≡ outcome (level_at FIRST) s.now at (row ∷ []) }
{
    check_row(s, at, row)?;
    Ok(at + HEAD + row.len)
}

// The same for a field that may be absent: it is read where the byte there is its tag.
fn read_optional(s: &[u8], at: usize, row: Row) -> Result<usize, Refusal>
    ensures { result ≡ outcome (level_at FIRST) s.now at (optional s.now at row) }
{
    if has_tag(s, at, row.tag) {
        read_row(s, at, row)
    } else {
        Ok(at)
    }
}

// The key's fields, which come first: where they end, or the refusal of one of them.
fn read_key_fields(s: &[u8]) -> Result<usize, Refusal>
    ensures { result ≡ outcome (level_at FIRST) s.now 0 (key_segment (level_at FIRST) s.now) }
{
    let at = read_row(s, 0, Row::SIZES)?;
    let len = key_at(s, HEAD).lengths(FIRST);
    let h = Row {
        tag: Row::H,
        len: 2 * len.matrix,
        kind: Kind::Elements,
    };
    let x = Row {
        tag: Row::X,
        len: 2 * len.vector,
        kind: Kind::Elements,
    };
    let y = Row {
        tag: Row::Y,
        len: 2 * len.target,
        kind: Kind::Target,
    };
    let at = read_row(s, at, h)?;
    let at = read_row(s, at, x)?;
    read_optional(s, at, y)
}

// Whether the rows of H lean on each other, past the tests of the key's fields: by elimination on a copy of its elements.
fn rows_lean(s: &[u8]) -> bool
    requires { first_of (tests (level_at FIRST) s.now 0 (key_segment (level_at FIRST) s.now)) ≡ Done }
    ensures { result ≡ leans (level_at FIRST) s.now }
{
    let key = key_at(s, HEAD);
    let n = key.n;
    let m = key.m;
    let end = H_START + 2 * key.lengths(FIRST).matrix;
    let mut matrix = [0u16; MATRIX];
    let len = copying::words_into(&s[H_START..end], &mut matrix);
    elimination::eliminate(&mut matrix[..len], n, m, FIRST) < m
}

// The key's fields and then the rows of H: where the fields end, or the refusal.
pub fn read_key(s: &[u8]) -> Result<usize, Refusal>
    ensures { result ≡ stepped (first_of (key_tests (level_at FIRST) s.now)) (key_end (level_at FIRST) s.now) }
{
    let end = read_key_fields(s)?;
    if rows_lean(s) {
        Err(Refusal::DependentRows)
    } else {
        Ok(end)
    }
}

// The length that a serial at a position is judged against: 4 where 4 is stated, else 2.
pub fn serial_length(s: &[u8], at: usize) -> usize
    ensures { result ≡ serial_length (word s.now (at + 1)) }
{
    if left(s, at) < HEAD {
        return 2;
    }
    if copying::word_at(s, at + 1) == 4 {
        4
    } else {
        2
    }
}

// The field of a serial at a position: where it ends, or the refusal.
pub fn read_serial(s: &[u8], at: usize) -> Result<usize, Refusal>
    ensures { result ≡ outcome (level_at FIRST) s.now at (serial_row s.now at ∷ []) }
{
    let serial = Row {
        tag: Row::SERIAL,
        len: serial_length(s, at),
        kind: Kind::Serial,
    };
    read_row(s, at, serial)
}

// t and a, where the fields before them end: where they end, or the first refusal.
pub fn read_proof(s: &[u8], key: Key, step: Result<usize, Refusal>) -> Result<usize, Refusal>
    requires { Sized (level_at FIRST) key }
    ensures { result ≡ further step (λ at. outcome (level_at FIRST) s.now at (proof_rows (level_at FIRST) key)) }
{
    let start = step?;
    let len = key.lengths(FIRST);
    let t = Row {
        tag: Row::T,
        len: len.bits,
        kind: Kind::Bits,
    };
    let a = Row {
        tag: Row::A,
        len: 2 * len.proof,
        kind: Kind::Coordinates,
    };
    let at = read_row(s, start, t)?;
    read_row(s, at, a)
}

// The fields from the serial to a, from a position on: where they end, or the refusal.
pub fn read_group(s: &[u8], key: Key, at: usize) -> Result<usize, Refusal>
    requires { Sized (level_at FIRST) key }
    ensures { result ≡ outcome (level_at FIRST) s.now at (group_rows (level_at FIRST) key s.now at) }
{
    read_proof(s, key, read_serial(s, at))
}

// The fields that follow a package in a check file, from a position on: where they end, or the refusal.
pub fn read_check(s: &[u8], key: Key, at: usize) -> Result<usize, Refusal>
    requires { Sized (level_at FIRST) key }
    ensures { result ≡ outcome (level_at FIRST) s.now at (check_rows (level_at FIRST) key s.now at) }
{
    let len = key.lengths(FIRST);
    let q = Row {
        tag: Row::Q,
        len: 2 * len.elements,
        kind: Kind::Coordinates,
    };
    let masks = Row {
        tag: Row::MASKS,
        len: 2 * len.masks,
        kind: Kind::Coordinates,
    };
    let delta = Row {
        tag: Row::DELTA,
        len: 2 * len.one,
        kind: Kind::Coordinates,
    };
    let alpha = Row {
        tag: Row::ALPHA,
        len: 2 * len.values,
        kind: Kind::Coordinates,
    };
    let at = read_row(s, at, q)?;
    let at = read_row(s, at, masks)?;
    let at = read_row(s, at, delta)?;
    read_row(s, at, alpha)
}

// P6: nothing follows the fields that end at a position.
pub fn read_end(s: &[u8], at: usize) -> Answer
    ensures { result ≡ first_of (end_tests s.now at) }
{
    if at < s.len() {
        Err(Refusal::BytesFollow)
    } else {
        Ok(())
    }
}

// Where the content of the field with a tag stands, by the lengths that the bytes state; the empty part where none has it.
pub fn find(s: &[u8], tag: u8) -> Part
    ensures { ((l : Level) (rows : List Row) → Whole l s.now rows → result ≡ part_of tag 0 rows) × (result.start + result.len ≤ length s.now) }
{
    // a while, since each step is as long as the bytes state
    let mut at = 0;
    while at < s.len() {
        if s.len() - at < HEAD {
            return Part { start: 0, len: 0 };
        }
        let found = s[at];
        let len = copying::word_at(s, at + 1);
        let start = at + HEAD;
        if s.len() - start < len {
            return Part { start: 0, len: 0 };
        }
        if found == tag {
            return Part { start, len };
        }
        at = start + len;
    }
    Part { start: 0, len: 0 }
}
