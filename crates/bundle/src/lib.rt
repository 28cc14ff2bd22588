// Bundles of the specification: the entry read_bundle, for records rooms.
#![tactic(auto)]

ghost use Rattle.std.specs.Prelude.{◌≡◌, [], ◌∷◌, suc, ◌+◌, ◌≤◌, length};
ghost use Rattle.refusal.specs.Answer.{first_of};
ghost use Rattle.field.specs.Level.{FIRST, level_at};
ghost use Rattle.key.specs.declared.Key.{Key};
ghost use Rattle.key.specs.Key.{Sized};
ghost use Rattle.layout.specs.Layout.{serial_row, key_end};
ghost use Rattle.layout.specs.Tests.{after};
ghost use Rattle.layout.specs.Steps.{stepped};
ghost use Rattle.bundle.specs.Bundle.{group_at, group_end, starts_from, serial_tests, group_tests, groups_tests, starts, bundle_tests};
ghost use Rattle.bundle.specs.Reading.{number_of, reading, found};

use field::FIRST;
use key::Key;
use refusal::Refusal;

// What a bundle says of itself.
#[derive(Clone, Copy, Debug, PartialEq, Eq)]
pub struct Contents {
    pub n: usize,
    pub m: usize,
    pub groups: usize,
}

// Where the groups of a bundle start, and how many they are.
#[derive(Clone, Copy, Debug, PartialEq, Eq)]
pub struct Groups {
    pub start: usize,
    pub number: usize,
}

// The answer's number: 0 for contents, else the refusal's.
pub fn number(answer: Result<Contents, Refusal>) -> u32
    ensures { result ≡ number_of answer }
{
    refusal::number(answer)
}

// The serial of the group at a position.
pub fn serial_at(s: &[u8], at: usize) -> u32
    requires { at + 3 + (serial_row s.now at).len ≤ length s.now }
    ensures { (key : Key) → result ≡ (group_at (level_at FIRST) key s.now at).serial }
{
    let start = at + layout::HEAD;
    let end = start + layout::serial_length(s, at);
    copying::from_bytes(&s[start..end])
}

// Where the group at a position ends.
pub fn group_end(s: &[u8], key: Key, at: usize) -> usize
    requires { Sized (level_at FIRST) key × (group_end (level_at FIRST) key s.now at ≤ length s.now) }
    ensures { result ≡ group_end (level_at FIRST) key s.now at }
{
    let len = key.lengths(FIRST);
    let proof = 2 * layout::HEAD + len.bits + 2 * len.proof;
    at + layout::HEAD + layout::serial_length(s, at) + proof
}

// The field of a serial at a position, which is no less than low: where it ends, or the refusal.
fn read_serial(s: &[u8], at: usize, low: usize) -> Result<usize, Refusal>
    ensures { (key : Key) → result ≡ stepped (first_of (serial_tests (level_at FIRST) key s.now low at)) (after at (serial_row s.now at ∷ [])) }
{
    let end = layout::read_serial(s, at)?;
    if (serial_at(s, at) as usize) < low {
        Err(Refusal::SerialOrder)
    } else {
        Ok(end)
    }
}

// The group at a position, whose serial is no less than low: where it ends, or the refusal.
fn read_group(s: &[u8], key: Key, at: usize, low: usize) -> Result<usize, Refusal>
    requires { Sized (level_at FIRST) key }
    ensures { result ≡ stepped (first_of (group_tests (level_at FIRST) key s.now low at)) (group_end (level_at FIRST) key s.now at) }
{
    layout::read_proof(s, key, read_serial(s, at, low))
}

// The groups from a position to the end: how many they are, or the refusal.
pub fn read_groups(s: &[u8], key: Key, start: usize) -> Result<Groups, Refusal>
    requires { Sized (level_at FIRST) key }
    ensures { result ≡ found (first_of (groups_tests (level_at FIRST) key s.now 0 (starts_from (level_at FIRST) key s.now (suc (length s.now)) start))) start (length (starts_from (level_at FIRST) key s.now (suc (length s.now)) start)) }
{
    let mut at = start;
    let mut low = 0;
    let mut number = 0;
    // How many groups there are shows only at the last: a `for` is no plainer.
    loop {
        let end = read_group(s, key, at, low)?;
        number += 1;
        if s.len() <= end {
            return Ok(Groups { start, number });
        }
        low = serial_at(s, at) as usize + 1;
        at = end;
    }
}

// All fields of a bundle: its groups, or the refusal.
pub fn walk(bytes: &[u8]) -> Result<Groups, Refusal>
    ensures { result ≡ found (first_of (bundle_tests (level_at FIRST) bytes.now)) (key_end (level_at FIRST) bytes.now) (length (starts (level_at FIRST) bytes.now)) }
{
    let at = layout::read_key(bytes)?;
    read_groups(bytes, layout::key_at(bytes, layout::HEAD), at)
}

// n, m and the number of groups of a bundle, or the refusal.
pub fn read_bundle(bytes: &[u8]) -> Result<Contents, Refusal>
    ensures { result ≡ reading (level_at FIRST) bytes.now }
{
    let groups = walk(bytes)?;
    let key = layout::key_at(bytes, layout::HEAD);
    Ok(Contents {
        n: key.n,
        m: key.m,
        groups: groups.number,
    })
}
