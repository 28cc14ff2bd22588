// The starred examples of the specification as statements about the definitions, and callers that rely on the contracts of the
// entries and on laws of their definitions.
#![tactic(auto)]

ghost use Rattle.std.specs.Prelude.{◌≡◌, ◌++◌, ℕ, ◌+◌, ◌≤◌, ◌<◌, length, take, drop};
ghost use Rattle.lists.specs.Words.{part};
ghost use Rattle.refusal.specs.Answer.{Done};
ghost use Rattle.refusal.specs.declared.Verdict.TheVariants.{Accepted};
ghost use Rattle.field.specs.Level.{FIRST, level_at};
ghost use Rattle.key.specs.Key.{slices_of};
ghost use Rattle.constraints.specs.Slices.{element_at, system_of};
ghost use Rattle.constraints.specs.Truth.{HonestNumbers, evaluated};
ghost use Rattle.verifier.specs.Complete.{HonestVerifier};
ghost use Rattle.package.specs.declared.Contents.{Contents};
ghost use Rattle.package.specs.Reading.{package_reader, reading};
ghost use Rattle.package.specs.Written.{content_of, package_form};
ghost use Rattle.package.specs.Said.{key_data_of, group_of};
ghost use Rattle.layout.specs.Tests.{key_of};
ghost use Rattle.bundle.specs.declared.Contents.{Contents as Groups};
ghost use Rattle.bundle.specs.Reading.{reading as readingBundle};
ghost use Rattle.joining.specs.declared.Size.{Size};
ghost use Rattle.writer.specs.Entry.{data_of, write_outcome};
ghost use Rattle.examples.specs.Lending.{LentExactly};
ghost use Rattle.examples.specs.Driving.{LooksFirst};

use elimination::MATRIX;
use joining::Size;
use key::Key;
use layout::{Part, Row};
use package::Contents;
use refusal::{Answer, Refusal, Verdict};

#[derive(Clone, Copy)]
pub struct Answers {
    pub constraints: Answer,
    pub values: Answer,
}

// Demand 3, agreement at the challenge: wherever both entries are done and each q is honest, value j is polynomial j at the challenge.
pub fn agreement(
    lent: &key::Lent<'_>,
    positions: &[u8],
    u: &[u8],
    v: &[u16],
    t: &mut [u8],
    polynomials: &mut [u16],
    q: &[u16],
    delta: &[u16],
    values: &mut [u16],
) -> Answers
    ensures { result.constraints ≡ Done → result.values ≡ Done → HonestNumbers (level_at FIRST) (system_of (level_at FIRST) lent.now.key.n lent.now.key.m (slices_of lent.now)) u.now v.now q.now delta.now → (j : ℕ) → j < lent.now.key.n + lent.now.key.m → element_at (level_at FIRST) values.new j ≡ evaluated (level_at FIRST) (system_of (level_at FIRST) lent.now.key.n lent.now.key.m (slices_of lent.now)) polynomials.new delta.now j }
{
    let written = constraints::constraints(lent, positions, u, v, t, polynomials);
    let valued = constraints::values(lent, t, q, delta, values);
    Answers {
        constraints: written,
        values: valued,
    }
}

#[derive(Clone, Copy)]
pub struct Judgement {
    pub prove: Answer,
    pub verify: Result<Verdict, Refusal>,
}

// Completeness: wherever prove is done and the verifier is honest, what prove has written is accepted.
pub fn completeness(
    lent: &key::Lent<'_>,
    positions: &[u8],
    u: &[u8],
    v: &[u16],
    r: &[u16],
    s: &[u16],
    alpha: &[u16],
    t: &mut [u8],
    a: &mut [u16],
    q: &[u16],
    delta: &[u16],
    masks: &[u16],
) -> Judgement
    ensures { result.prove ≡ Done → HonestVerifier (level_at FIRST) lent.now.key (slices_of lent.now) u.now v.now r.now s.now q.now delta.now masks.now → result.verify ≡ Ok Accepted }
{
    let proved = prover::prove(lent, positions, u, v, r, s, alpha, t, a);
    let judged = verifier::verify(lent, t, q, delta, masks, alpha, a);
    Judgement {
        prove: proved,
        verify: judged,
    }
}

#[derive(Clone, Copy)]
pub struct Stored {
    pub written: Result<usize, Refusal>,
    pub read: Result<Contents, Refusal>,
    pub field: Part,
}

// A package is written and read back: wherever a length is answered, the reader answers for so many bytes the n, m and serial that were lent, and
// the part that it finds for a tag holds the content of that field.
pub fn read_back(
    lent: &key::Lent<'_>,
    serial: u32,
    t: &[u8],
    a: &[u16],
    tag: u8,
    out: &mut [u8],
) -> Stored
    ensures { (k : ℕ) → result.written ≡ Ok k → (result.read ≡ Ok (record { n = lent.now.key.n; m = lent.now.key.m; serial = serial })) × (part result.field.start result.field.len (take k out.new) ≡ content_of tag ((package_form (level_at FIRST)).fields (data_of lent.now.key (slices_of lent.now) serial t.now a.now))) }
{
    match writer::write_package(lent, serial, t, a, out) {
        Err(refusal) => Stored {
            written: Err(refusal),
            read: Err(refusal),
            field: Part { start: 0, len: 0 },
        },
        Ok(len) => Stored {
            written: Ok(len),
            read: package::read_package(&out[..len]),
            field: package::field_part(&out[..len], tag),
        },
    }
}

// Words of room for x, y and a proof, at n = 64 and m = 63.
const VECTOR: usize = 64;

const TARGET: usize = 63;

const PROOF: usize = 72;

// The fields of an accepted package, lent to the writer. Where field 04 is absent the room for y stays zero.
fn rewritten(bytes: &[u8], contents: Contents, out: &mut [u8]) -> Result<usize, Refusal>
    requires { reading (package_reader (level_at FIRST)) bytes.now ≡ Ok contents }
    ensures { (result, out.new) ≡ write_outcome (level_at FIRST) (key_data_of (package_form (level_at FIRST)) bytes.now).sizes (key_data_of (package_form (level_at FIRST)) bytes.now).slices (group_of (package_form (level_at FIRST)) bytes.now).serial (group_of (package_form (level_at FIRST)) bytes.now).t (group_of (package_form (level_at FIRST)) bytes.now).a out.old }
{
    let mut h = [0u16; MATRIX];
    let h_len = copying::words_into(package::field(bytes, Row::H), &mut h);
    let mut x = [0u16; VECTOR];
    let x_len = copying::words_into(package::field(bytes, Row::X), &mut x);
    let mut y = [0u16; TARGET];
    copying::words_into(package::field(bytes, Row::Y), &mut y);
    let mut a = [0u16; PROOF];
    let a_len = copying::words_into(package::field(bytes, Row::A), &mut a);
    let t = package::field(bytes, Row::T);
    let n = contents.n;
    let m = contents.m;
    let serial = contents.serial;
    let lent = key::Lent {
        key: Key { n, m },
        h: &h[..h_len],
        x: &x[..x_len],
        y: &y[..m],
    };
    writer::write_package(&lent, serial, t, &a[..a_len], out)
}

// A package that the reader accepts is written again from its own fields: into an output with room for it go those very bytes.
pub fn written_again(bytes: &[u8], out: &mut [u8]) -> Result<usize, Refusal>
    ensures { (c : Contents) → reading (package_reader (level_at FIRST)) bytes.now ≡ Ok c → length bytes.now ≤ length out.old → (result ≡ Ok (length bytes.now)) × (out.new ≡ bytes.now ++ drop (length bytes.now) out.old) }
{
    let contents = package::read_package(bytes)?;
    rewritten(bytes, contents, out)
}

#[derive(Clone, Copy)]
pub struct Kept {
    pub joined: Result<Size, Refusal>,
    pub read: Result<bundle::Contents, Refusal>,
}

// Two bundles are joined and the result is read: wherever a size is answered, the reader answers for so many bytes the n and m of the first and the
// same number of groups.
pub fn joined_back(first: &[u8], second: &[u8], out: &mut [u8]) -> Kept
    ensures { (size : Size) → result.joined ≡ Ok size → result.read ≡ Ok (record { n = (key_of first.now).n; m = (key_of first.now).m; groups = size.groups }) }
{
    match joining::join_bundles(first, second, out) {
        Err(refusal) => Kept {
            joined: Err(refusal),
            read: Err(refusal),
        },
        Ok(size) => {
            let len = size.length;
            Kept {
                joined: Ok(size),
                read: bundle::read_bundle(&out[..len]),
            }
        }
    }
}

// Any bytes joined with themselves: wherever the reader accepts them as a bundle and there is room, the output begins with those very bytes, and their
// length and number of groups are answered.
pub fn joined_again(bytes: &[u8], out: &mut [u8]) -> Result<Size, Refusal>
    ensures { (c : Groups) → readingBundle (level_at FIRST) bytes.now ≡ Ok c → length bytes.now ≤ length out.old → (result ≡ Ok (record { length = length bytes.now; groups = c.groups })) × (out.new ≡ bytes.now ++ drop (length bytes.now) out.old) }
{
    joining::join_bundles(bytes, bytes, out)
}

// The largest room that can be named.
const LARGEST: usize = 0xffff_ffff_ffff_ffff;

// What a join answers, or how many bytes it needs where there are fewer.
#[derive(Clone, Copy)]
pub enum Lent {
    Joined(Result<Size, Refusal>),
    Short(usize),
}

// Looks with the largest room, and lends exactly the length that is told: the join is never refused with 13. What a join with all of out would answer
// and leave there is answered and left, and where that is 13, the bytes that are needed.
pub fn joined_exactly(first: &[u8], second: &[u8], out: &mut [u8]) -> Lent
    ensures { LentExactly (level_at FIRST) first.now second.now out.old out.new result }
{
    match joining::look_before_join(first, second, LARGEST) {
        Err(refusal) => Lent::Joined(Err(refusal)),
        Ok(size) => {
            let len = size.length;
            if out.len() < len {
                return Lent::Short(len);
            }
            Lent::Joined(joining::join_bundles(first, second, &mut out[..len]))
        }
    }
}

// What a driver is told that looks before it proves: what prove answers, the index of an offender, or why the positions were not looked at.
#[derive(Clone, Copy)]
pub enum Driven {
    Proved(Answer),
    Offender(usize),
    Refused(Refusal),
}

// Proves where a look says that all is well: prove then never answers 7 or 16. Where it does not say so, prove would not be done.
pub fn looked_first(
    lent: &key::Lent<'_>,
    positions: &[u8],
    u: &[u8],
    v: &[u16],
    r: &[u16],
    s: &[u16],
    alpha: &[u16],
    t: &mut [u8],
    a: &mut [u16],
) -> Driven
    ensures { LooksFirst (level_at FIRST) lent.now.key (slices_of lent.now) positions.now u.now v.now r.now s.now alpha.now t.old a.old (t.new, a.new) result }
{
    let n = lent.key.n;
    match order::quick_look(n, positions) {
        Ok(None) => Driven::Proved(prover::prove(lent, positions, u, v, r, s, alpha, t, a)),
        Ok(Some(index)) => Driven::Offender(index),
        Err(refusal) => Driven::Refused(refusal),
    }
}
