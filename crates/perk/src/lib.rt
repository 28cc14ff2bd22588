// The C interface: a slice is a pointer and then a length in elements; 0 is done or accepted, 255 is rejected,
// any other result is the refusal's number.
#![tactic(auto)]

ghost use Rattle.std.specs.Prelude.{◌≡◌, List, ℕ, length as size};
ghost use Rattle.refusal.specs.Answer.{numbered};
ghost use Rattle.refusal.specs.Verdict.{verdict_number};
ghost use Rattle.arithmetic.specs.Entry.{sum_outcome, product_outcome};
ghost use Rattle.field.specs.Level.{FIRST, level_at};
ghost use Rattle.key.specs.Key.{key_slices};
ghost use Rattle.constraints.specs.Entry.{constraints_outcome, constraints_leans, values_outcome, values_leans};
ghost use Rattle.constraints.specs.Truth.{Truth};
ghost use Rattle.prover.specs.Entry.{prove_outcome, prove_leans};
ghost use Rattle.prover.specs.Solved.{Solved};
ghost use Rattle.verifier.specs.Entry.{verify_outcome, verify_leans, Judges};
ghost use Rattle.package.specs.Reading.{package_reader, check_file_reader, reading, field_part};
ghost use Rattle.checkfile.specs.Checking.{check_number, checking};
ghost use Rattle.rank.specs.Entry.{rank_outcome, Tells};
ghost use Rattle.order.specs.Entry.{look_outcome};
ghost use Rattle.order.specs.Tells.{Tells as TellsOrder};
ghost use Rattle.bundle.specs.Reading.{reading as reading_bundle};
ghost use Rattle.joining.specs.Entry.{join_answer, join_outcome};
ghost use Rattle.joining.specs.Laws.{ReadBack as ReadJoined};
ghost use Rattle.perk.specs.Files.{SmallSizes, read_put, SmallBundle, bundle_put, span_of};
ghost use Rattle.writer.specs.Entry.{write_outcome, write_leans};
ghost use Rattle.writer.specs.Laws.{ReadBack};
ghost use Rattle.perk.specs.Answered.{found_or, index_or, size_or, answered};

use joining::Size;
use key::{Key, Lent};
use refusal::Refusal;

// The sum of two elements of K.
#[unsafe(no_mangle)]
pub extern "C" fn perk_sum(a: &[u16], b: &[u16], out: &mut [u16]) -> u32
    ensures { (result, out.new) ≡ numbered (sum_outcome a.now b.now out.old) }
{
    refusal::number(arithmetic::sum(a, b, out))
}

// The product of two elements of K.
#[unsafe(no_mangle)]
pub extern "C" fn perk_product(a: &[u16], b: &[u16], out: &mut [u16]) -> u32
    ensures { (result, out.new) ≡ numbered (product_outcome a.now b.now out.old) }
{
    refusal::number(arithmetic::product(a, b, out))
}

// The masked witness and all polynomials.
#[unsafe(no_mangle)]
pub extern "C" fn perk_constraints(
    n: usize,
    m: usize,
    h: &[u16],
    x: &[u16],
    y: &[u16],
    positions: &[u8],
    u: &[u8],
    v: &[u16],
    t: &mut [u8],
    polynomials: &mut [u16],
) -> u32
    ensures outcome { (result, (t.new, polynomials.new)) ≡ numbered (constraints_outcome (level_at FIRST) (record { n = n; m = m }) (key_slices h.now x.now y.now) positions.now u.now v.now t.old polynomials.old) }
    ensures leans { constraints_leans (level_at FIRST) (record { n = n; m = m }) (key_slices h.now x.now y.now) positions.now u.now v.now t.old polynomials.old (result ≡ 15) }
    ensures truth { result ≡ 0 → Truth (level_at FIRST) n m (key_slices h.now x.now y.now) positions.now u.now v.now t.new polynomials.new }
{
    let key = Key { n, m };
    let lent = Lent { key, h, x, y };
    refusal::number(constraints::constraints(&lent, positions, u, v, t, polynomials))
}

// All values.
#[unsafe(no_mangle)]
pub extern "C" fn perk_values(
    n: usize,
    m: usize,
    h: &[u16],
    x: &[u16],
    y: &[u16],
    t: &[u8],
    q: &[u16],
    delta: &[u16],
    values: &mut [u16],
) -> u32
    ensures outcome { (result, values.new) ≡ numbered (values_outcome (level_at FIRST) (record { n = n; m = m }) (key_slices h.now x.now y.now) t.now q.now delta.now values.old) }
    ensures leans { values_leans (level_at FIRST) (record { n = n; m = m }) (key_slices h.now x.now y.now) t.now q.now delta.now values.old (result ≡ 15) }
{
    let key = Key { n, m };
    let lent = Lent { key, h, x, y };
    refusal::number(constraints::values(&lent, t, q, delta, values))
}

// The masked witness and the proof.
#[unsafe(no_mangle)]
pub extern "C" fn perk_prove(
    n: usize,
    m: usize,
    h: &[u16],
    x: &[u16],
    y: &[u16],
    positions: &[u8],
    u: &[u8],
    v: &[u16],
    r: &[u16],
    s: &[u16],
    alpha: &[u16],
    t: &mut [u8],
    a: &mut [u16],
) -> u32
    ensures outcome { (result, (t.new, a.new)) ≡ numbered (prove_outcome (level_at FIRST) (record { n = n; m = m }) (key_slices h.now x.now y.now) positions.now u.now v.now r.now s.now alpha.now t.old a.old) }
    ensures leans { prove_leans (level_at FIRST) (record { n = n; m = m }) (key_slices h.now x.now y.now) positions.now u.now v.now r.now s.now alpha.now t.old a.old (result ≡ 15) }
    ensures solved { Solved (level_at FIRST) (record { n = n; m = m }) (key_slices h.now x.now y.now) positions.now u.now v.now r.now s.now alpha.now t.old a.old (result ≡ 0) (result ≡ 8) (result ≡ 16) }
{
    let key = Key { n, m };
    let lent = Lent { key, h, x, y };
    refusal::number(prover::prove(&lent, positions, u, v, r, s, alpha, t, a))
}

// Whether the proof is accepted.
#[unsafe(no_mangle)]
pub extern "C" fn perk_verify(
    n: usize,
    m: usize,
    h: &[u16],
    x: &[u16],
    y: &[u16],
    t: &[u8],
    q: &[u16],
    delta: &[u16],
    masks: &[u16],
    alpha: &[u16],
    a: &[u16],
) -> u32
    ensures outcome { result ≡ verdict_number (verify_outcome (level_at FIRST) (record { n = n; m = m }) (key_slices h.now x.now y.now) t.now q.now delta.now masks.now alpha.now a.now) }
    ensures leans { verify_leans (level_at FIRST) (record { n = n; m = m }) (key_slices h.now x.now y.now) t.now q.now delta.now masks.now alpha.now a.now (result ≡ 15) }
    ensures judges { Judges (level_at FIRST) (record { n = n; m = m }) (key_slices h.now x.now y.now) t.now q.now delta.now masks.now alpha.now a.now (result ≡ 0) (result ≡ 255) }
{
    let key = Key { n, m };
    let lent = Lent { key, h, x, y };
    refusal::verdict_number(verifier::verify(&lent, t, q, delta, masks, alpha, a))
}

// The number of an answer; what was found is written where it is no refusal.
fn put(answer: Result<usize, Refusal>, to: &mut usize) -> u32
    ensures { (result, to.new) ≡ found_or answer to.old }
{
    match answer {
        Ok(found) => {
            *to = found;
            0
        }
        Err(refusal) => refusal.number(),
    }
}

// The rank of H, and its cleared form.
#[unsafe(no_mangle)]
pub extern "C" fn perk_rank(
    n: usize,
    m: usize,
    h: &[u16],
    matrix: &mut [u16],
    rank: &mut usize,
) -> u32
    ensures outcome { (result, (matrix.new, rank.new)) ≡ answered found_or (rank_outcome (level_at FIRST) (record { n = n; m = m }) h.now matrix.old) rank.old }
    ensures tells { result ≡ 0 → Tells (level_at FIRST) (record { n = n; m = m }) h.now rank.new }
{
    let key = Key { n, m };
    put(rank::rank(key, h, matrix), rank)
}

// The number of an answer; the index is written where it is that of an offender.
fn put_index(answer: Result<Option<usize>, Refusal>, index: &mut usize) -> u32
    ensures { (result, index.new) ≡ index_or answer index.old }
{
    match answer {
        Ok(None) => 0,
        Ok(Some(found)) => {
            *index = found;
            255
        }
        Err(refusal) => refusal.number(),
    }
}

// Whether the positions are an order, or the index of the first that is no column or came before.
#[unsafe(no_mangle)]
pub extern "C" fn perk_quick_look(n: usize, positions: &[u8], index: &mut usize) -> u32
    ensures outcome { (result, index.new) ≡ index_or (look_outcome (level_at FIRST) n positions.now) index.old }
    ensures tells { TellsOrder (level_at FIRST) n positions.now (result ≡ 0) (λ i. (result ≡ 255) × (index.new ≡ i)) }
{
    put_index(order::quick_look(n, positions), index)
}

// The number of a reader's answer; n, m and the serial are written where it is no refusal.
fn put_read(
    answer: Result<package::Contents, Refusal>,
    n: &mut u32,
    m: &mut u32,
    serial: &mut u32,
) -> u32
    requires { SmallSizes answer }
    ensures { (result, (n.new, m.new, serial.new)) ≡ read_put answer (n.old, m.old, serial.old) }
{
    match answer {
        Ok(contents) => {
            *n = contents.n as u32;
            *m = contents.m as u32;
            *serial = contents.serial;
            0
        }
        Err(refusal) => refusal.number(), // n, m and the serial stay
    }
}

// n, m and the serial of a package.
#[unsafe(no_mangle)]
pub extern "C" fn perk_read_package(bytes: &[u8], n: &mut u32, m: &mut u32, serial: &mut u32) -> u32
    ensures { (result, (n.new, m.new, serial.new)) ≡ read_put (reading (package_reader (level_at FIRST)) bytes.now) (n.old, m.old, serial.old) }
{
    put_read(package::read_package(bytes), n, m, serial)
}

// n, m and the serial of a check file.
#[unsafe(no_mangle)]
pub extern "C" fn perk_read_check_file(
    bytes: &[u8],
    n: &mut u32,
    m: &mut u32,
    serial: &mut u32,
) -> u32
    ensures { (result, (n.new, m.new, serial.new)) ≡ read_put (reading (check_file_reader (level_at FIRST)) bytes.now) (n.old, m.old, serial.old) }
{
    put_read(package::read_check_file(bytes), n, m, serial)
}

// The number of the answer of the reader of bundles; n, m and the number of groups are written where it is no refusal.
fn put_bundle(
    answer: Result<bundle::Contents, Refusal>,
    n: &mut u32,
    m: &mut u32,
    groups: &mut usize,
) -> u32
    requires { SmallBundle answer }
    ensures { (result, (n.new, m.new, groups.new)) ≡ bundle_put answer (n.old, m.old, groups.old) }
{
    match answer {
        Ok(contents) => {
            *n = contents.n as u32;
            *m = contents.m as u32;
            *groups = contents.groups;
            0
        }
        Err(refusal) => refusal.number(), // n, m and the groups stay
    }
}

// n, m and the number of groups of a bundle.
#[unsafe(no_mangle)]
pub extern "C" fn perk_read_bundle(
    bytes: &[u8],
    n: &mut u32,
    m: &mut u32,
    groups: &mut usize,
) -> u32
    ensures { (result, (n.new, m.new, groups.new)) ≡ bundle_put (reading_bundle (level_at FIRST) bytes.now) (n.old, m.old, groups.old) }
{
    put_bundle(bundle::read_bundle(bytes), n, m, groups)
}

// The number of an answer; the length and the number of groups are written where it is no refusal.
fn put_size(answer: Result<Size, Refusal>, length: &mut usize, groups: &mut usize) -> u32
    ensures { (result, (length.new, groups.new)) ≡ size_or answer (length.old, groups.old) }
{
    match answer {
        Ok(size) => {
            *length = size.length;
            *groups = size.groups;
            0
        }
        Err(refusal) => refusal.number(),
    }
}

// The groups of two bundles of one key as one bundle, its length and the number of its groups.
#[unsafe(no_mangle)]
pub extern "C" fn perk_join_bundles(
    first: &[u8],
    second: &[u8],
    out: &mut [u8],
    length: &mut usize,
    groups: &mut usize,
) -> u32
    ensures outcome { (result, (out.new, (length.new, groups.new))) ≡ answered size_or (join_outcome (level_at FIRST) first.now second.now out.old) (length.old, groups.old) }
    ensures reads { result ≡ 0 → ReadJoined (level_at FIRST) first.now second.now (record { length = length.new; groups = groups.new }) out.new }
{
    put_size(joining::join_bundles(first, second, out), length, groups)
}

// What perk_join_bundles answers with an output of so many bytes.
#[unsafe(no_mangle)]
pub extern "C" fn perk_look_before_join(
    first: &[u8],
    second: &[u8],
    room: usize,
    length: &mut usize,
    groups: &mut usize,
) -> u32
    ensures outcome { (result, (length.new, groups.new)) ≡ size_or (join_answer (level_at FIRST) first.now second.now room) (length.old, groups.old) }
    ensures ahead { (out : List ℕ) → size out ≡ room → (result, (length.new, groups.new)) ≡ size_or (join_outcome (level_at FIRST) first.now second.now out).0 (length.old, groups.old) }
{
    put_size(
        joining::look_before_join(first, second, room),
        length,
        groups,
    )
}

// A package, and its length.
#[unsafe(no_mangle)]
pub extern "C" fn perk_write_package(
    n: usize,
    m: usize,
    h: &[u16],
    x: &[u16],
    y: &[u16],
    serial: u32,
    t: &[u8],
    a: &[u16],
    out: &mut [u8],
    length: &mut usize,
) -> u32
    ensures outcome { (result, (out.new, length.new)) ≡ answered found_or (write_outcome (level_at FIRST) (record { n = n; m = m }) (key_slices h.now x.now y.now) serial t.now a.now out.old) length.old }
    ensures leans { write_leans (level_at FIRST) (record { n = n; m = m }) (key_slices h.now x.now y.now) t.now a.now (result ≡ 15) }
    ensures reads { result ≡ 0 → ReadBack (level_at FIRST) (record { n = n; m = m }) (key_slices h.now x.now y.now) serial t.now a.now length.new out.new }
{
    let key = Key { n, m };
    let lent = Lent { key, h, x, y };
    put(writer::write_package(&lent, serial, t, a, out), length)
}

// The length of a field's content in a package, and where it starts.
#[unsafe(no_mangle)]
pub extern "C" fn perk_field(bytes: &[u8], tag: u8, start: &mut usize) -> usize
    ensures { (result, start.new) ≡ span_of (field_part (package_reader (level_at FIRST)) bytes.now tag) }
{
    let part = package::field_part(bytes, tag);
    *start = part.start;
    part.len
}

// Whether a check file's proof is accepted.
#[unsafe(no_mangle)]
pub extern "C" fn perk_check(bytes: &[u8]) -> u32
    ensures { result ≡ check_number (checking (level_at FIRST) bytes.now) }
{
    checkfile::number(checkfile::check(bytes))
}
