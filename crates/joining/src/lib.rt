// The entries join_bundles and look_before_join: for records rooms that hold two bundles of one key.
#![tactic(auto)]

ghost use Rattle.std.specs.Prelude.{Ok, ◌≡◌, List, ℕ, ◌+◌, ◌-◌, ◌≤◌, length};
ghost use Rattle.lists.specs.Words.{part, put};
ghost use Rattle.refusal.specs.Answer.{first_of, number_of};
ghost use Rattle.field.specs.Level.{FIRST, level_at};
ghost use Rattle.layout.specs.Layout.{key_end};
ghost use Rattle.bundle.specs.Bundle.{starts, bundle_tests, groups_of};
ghost use Rattle.bundle.specs.Reading.{found};
ghost use Rattle.bundle.specs.Written.{Accepted};
ghost use Rattle.joining.specs.declared.Size.{Size};
ghost use Rattle.joining.specs.Union.{union, same};
ghost use Rattle.joining.specs.Entry.{join_rows, join_answer, join_outcome};
ghost use Rattle.joining.specs.Laws.{ReadBack};
ghost use Rattle.joining.specs.Steps.{Mates, groups_bytes, Tallied, planned};

use bundle::Groups;
use layout::Row;
use refusal::Refusal;

// The length of a joined bundle, and the number of its groups.
#[derive(Clone, Copy, Debug, PartialEq, Eq)]
pub struct Size {
    pub length: usize,
    pub groups: usize,
}

// The groups that two bundles share: how many, and how many bytes each bundle has of them.
#[derive(Clone, Copy, Debug, PartialEq, Eq)]
pub struct Shared {
    pub number: usize,
    pub length: usize,
}

// A joined bundle that fits: where the groups start, in it and in both bundles, and its size.
#[derive(Clone, Copy, Debug, PartialEq, Eq)]
pub struct Plan {
    pub start: usize,
    pub size: Size,
}

// The answer's number: 0 for a size, else the refusal's.
pub fn number(answer: Result<Size, Refusal>) -> u32
    ensures { result ≡ number_of answer }
{
    refusal::number(answer)
}

// Whether the bytes are the same. No byte ends the loop, so that the compiler compares many at once.
fn same(a: &[u8], b: &[u8]) -> bool
    ensures { result ≡ same a.now b.now }
{
    if a.len() != b.len() {
        return false;
    }
    let mut d = 0;
    for i in 0..a.len() {
        d |= a[i] ^ b[i];
    }
    d == 0
}

// The groups that two bundles of one key share, or 22; nothing is written.
fn count_shared(first: &[u8], second: &[u8], start: usize) -> Result<Shared, Refusal>
    requires { Mates (level_at FIRST) first.now second.now start }
    ensures { Tallied (groups_of (level_at FIRST) first.now) (groups_of (level_at FIRST) second.now) result }
{
    let key = layout::key_at(first, layout::HEAD);
    let mut i = start;
    let mut j = start;
    let mut number = 0;
    let mut length = 0;
    // Two places that go on by the length of a group, either or both: a `for` is no plainer.
    loop {
        if first.len() <= i {
            return Ok(Shared { number, length });
        }
        if second.len() <= j {
            return Ok(Shared { number, length });
        }
        let a = bundle::serial_at(first, i);
        let b = bundle::serial_at(second, j);
        if a < b {
            i = bundle::group_end(first, key, i);
        } else if b < a {
            j = bundle::group_end(second, key, j);
        } else {
            let p = bundle::group_end(first, key, i);
            let q = bundle::group_end(second, key, j);
            if !same(&first[i..p], &second[j..q]) {
                return Err(Refusal::GroupsDiffer);
            }
            number += 1;
            length += p - i;
            i = p;
            j = q;
        }
    }
}

// The bytes from one position to another, from place at of out on; answers the place after them.
fn put_part(s: &[u8], from: usize, to: usize, at: usize, out: &mut [u8]) -> usize
    requires { (from ≤ to) × (to ≤ length s.now) × (at + (to - from) ≤ length out.old) }
    ensures { (out.new ≡ put at (part from (to - from) s.now) out.old) × (result ≡ at + (to - from)) }
{
    copying::put_bytes(&s[from..to], at, out)
}

// The groups of either bundle, once, by rising serial, from place start of out on.
fn put_groups(first: &[u8], second: &[u8], start: usize, out: &mut [u8])
    requires mates { Mates (level_at FIRST) first.now second.now start }
    requires second_in_bounds { start + length (groups_bytes (union (groups_of (level_at FIRST) first.now) (groups_of (level_at FIRST) second.now))) ≤ length out.old }
    ensures { out.new ≡ put start (groups_bytes (union (groups_of (level_at FIRST) first.now) (groups_of (level_at FIRST) second.now))) out.old }
{
    let key = layout::key_at(first, layout::HEAD);
    let mut i = start;
    let mut j = start;
    let mut at = start;
    // As in `count_shared`.
    loop {
        if first.len() <= i {
            put_part(second, j, second.len(), at, out);
            return;
        }
        if second.len() <= j {
            put_part(first, i, first.len(), at, out);
            return;
        }
        let a = bundle::serial_at(first, i);
        let b = bundle::serial_at(second, j);
        if a < b {
            let p = bundle::group_end(first, key, i);
            at = put_part(first, i, p, at, out);
            i = p;
        } else {
            let q = bundle::group_end(second, key, j);
            at = put_part(second, j, q, at, out);
            j = q;
            if a == b {
                i = bundle::group_end(first, key, i);
            }
        }
    }
}

// 21, 22 and 13 of accepted bundles, whose groups these are, with an output of so many bytes: the joined bundle, or the refusal.
fn compare(
    first: &[u8],
    one: Groups,
    second: &[u8],
    two: Groups,
    room: usize,
) -> Result<Plan, Refusal>
    requires accepted { Accepted (level_at FIRST) first.now × Accepted (level_at FIRST) second.now }
    requires one_value { (one ≡ record { start = key_end (level_at FIRST) first.now; number = length (starts (level_at FIRST) first.now) }) × (two ≡ record { start = key_end (level_at FIRST) second.now; number = length (starts (level_at FIRST) second.now) }) }
    ensures { result ≡ planned (level_at FIRST) first.now second.now (first_of (join_rows (level_at FIRST) first.now second.now room)) }
{
    let start = one.start;
    let other = two.start;
    if !same(&first[..start], &second[..other]) {
        return Err(Refusal::OtherKey);
    }
    let both = count_shared(first, second, start)?;
    let length = first.len() - both.length + (second.len() - start);
    if room < length {
        return Err(Refusal::ShortOutput);
    }
    let groups = one.number - both.number + two.number;
    let size = Size { length, groups };
    Ok(Plan { start, size })
}

// The second bundle, after the first is accepted, whose groups start at a position: its groups, or the refusal. Where it begins with the key fields
// of the first, and no field 04 follows, these are not read again, nor are the rows of H tested.
fn walk_second(first: &[u8], start: usize, second: &[u8]) -> Result<Groups, Refusal>
    requires { Accepted (level_at FIRST) first.now × (start ≡ key_end (level_at FIRST) first.now) }
    ensures { result ≡ found (first_of (bundle_tests (level_at FIRST) second.now)) (key_end (level_at FIRST) second.now) (length (starts (level_at FIRST) second.now)) }
{
    if second.len() < start {
        return bundle::walk(second);
    }
    if !same(&first[..start], &second[..start]) {
        return bundle::walk(second);
    }
    if copying::byte_at(second, start) == Row::Y as usize {
        return bundle::walk(second);
    }
    bundle::read_groups(second, layout::key_at(second, layout::HEAD), start)
}

// All refusals with an output of so many bytes: the joined bundle, or the first that applies.
fn look(first: &[u8], second: &[u8], room: usize) -> Result<Plan, Refusal>
    ensures { result ≡ planned (level_at FIRST) first.now second.now (first_of (join_rows (level_at FIRST) first.now second.now room)) }
{
    let one = bundle::walk(first)?;
    let two = walk_second(first, one.start, second)?;
    compare(first, one, second, two, room)
}

// The bundle that has every group of either, once, by rising serial, at the start of out, whose further bytes stay; answers its size.
pub fn join_bundles(first: &[u8], second: &[u8], out: &mut [u8]) -> Result<Size, Refusal>
    ensures outcome { (result, out.new) ≡ join_outcome (level_at FIRST) first.now second.now out.old }
    ensures reads { (size : Size) → result ≡ Ok size → ReadBack (level_at FIRST) first.now second.now size out.new }
{
    let plan = look(first, second, out.len())?;
    let start = plan.start;
    put_part(first, 0, start, 0, out);
    put_groups(first, second, start, out);
    Ok(plan.size)
}

// What join_bundles answers with an output of so many bytes; nothing is written.
pub fn look_before_join(first: &[u8], second: &[u8], room: usize) -> Result<Size, Refusal>
    ensures outcome { result ≡ join_answer (level_at FIRST) first.now second.now room }
    ensures ahead { (out : List ℕ) → length out ≡ room → result ≡ (join_outcome (level_at FIRST) first.now second.now out).0 }
{
    let plan = look(first, second, room)?;
    let told = plan.size;
    Ok(told)
}
