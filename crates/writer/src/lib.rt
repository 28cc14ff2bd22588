// The entry write_package: for those who store proofs.
#![tactic(auto)]

ghost use Rattle.std.specs.Prelude.{◌≡◌, [], ◌∷◌, ℕ, ◌+◌, ◌*◌, ◌≤◌, ◌<◌, length, Ok, Err};
ghost use Rattle.lists.specs.Words.{put};
ghost use Rattle.lists.specs.Lent.{long};
ghost use Rattle.copying.specs.Words.{two_bytes, word_bytes};
ghost use Rattle.refusal.specs.Answer.{first_of};
ghost use Rattle.field.specs.Level.{FIRST, level_at};
ghost use Rattle.key.specs.declared.Key.{Key};
ghost use Rattle.key.specs.Key.{Sized, slices_of, lengths};
ghost use Rattle.layout.specs.Tests.{zeros};
ghost use Rattle.package.specs.Written.{joined, serial_bytes, target_fields, key_fields, group_fields};
ghost use Rattle.refusal.specs.declared.Refusal.TheVariants.{DependentRows};
ghost use Rattle.writer.specs.Entry.{number_of, write_lent, package_bytes, write_checks, write_rows, write_leans, write_outcome};
ghost use Rattle.writer.specs.Laws.{ReadBack};

use field::FIRST;
use key::{Code, Lent};
use layout::Row;
use refusal::{Answer, Refusal};

// The answer's number: 0 for a length, else the refusal's.
pub fn number(answer: Result<usize, Refusal>) -> u32
    ensures { result ≡ number_of answer }
{
    refusal::number(answer)
}

// Tag and length of a field, from place at on; answers the place after them.
fn put_head(tag: u8, len: usize, at: usize, out: &mut [u8]) -> usize
    requires { (len < 65536) × (at + 3 ≤ length out.old) }
    ensures { (out.new ≡ put at (tag ∷ two_bytes len) out.old) × (result ≡ at + 3) }
{
    let bytes = (len as u16).to_be_bytes();
    out[at] = tag;
    out[at + 1] = bytes[0];
    out[at + 2] = bytes[1];
    at + layout::HEAD
}

// A field with this content, from place at on; answers the place after it.
fn put_field(tag: u8, content: &[u8], at: usize, out: &mut [u8]) -> usize
    requires { (length content.now < 65536) × (at + length (joined ((tag, content.now) ∷ [])) ≤ length out.old) }
    ensures { (out.new ≡ put at (joined ((tag, content.now) ∷ [])) out.old) × (result ≡ at + length (joined ((tag, content.now) ∷ []))) }
{
    let start = put_head(tag, content.len(), at, out);
    copying::put_bytes(content, start, out)
}

// A field whose content is words of two bytes, from place at on; answers the place after it.
fn put_words_field(tag: u8, words: &[u16], at: usize, out: &mut [u8]) -> usize
    requires { (2 * length words.now < 65536) × (at + length (joined ((tag, word_bytes words.now) ∷ [])) ≤ length out.old) }
    ensures { (out.new ≡ put at (joined ((tag, word_bytes words.now) ∷ [])) out.old) × (result ≡ at + length (joined ((tag, word_bytes words.now) ∷ []))) }
{
    let start = put_head(tag, 2 * words.len(), at, out);
    copying::put_words(words, start, out)
}

// Whether every word is zero.
fn zero(s: &[u16]) -> bool
    ensures { result ≡ zeros s.now }
{
    s.iter().all(|x| *x == 0)
}

// The key's fields, at the start of out; answers where they end.
fn put_key(lent: &Lent<'_>, out: &mut [u8]) -> usize
    requires n_bound { (lent.now.key.n < 256) × (lent.now.key.m < 256) × (2 * length lent.now.h.now < 65536) × (2 * length lent.now.x.now < 65536) × (2 * length lent.now.y.now < 65536) }
    requires y_in_bounds { length (joined (key_fields (record { sizes = lent.now.key; slices = slices_of lent.now }))) ≤ length out.old }
    ensures { (out.new ≡ put 0 (joined (key_fields (record { sizes = lent.now.key; slices = slices_of lent.now }))) out.old) × (result ≡ length (joined (key_fields (record { sizes = lent.now.key; slices = slices_of lent.now })))) }
{
    let sizes = [lent.key.n as u8, lent.key.m as u8];
    let at = put_field(Row::SIZES.tag, &sizes, 0, out);
    let at = put_words_field(Row::H, lent.h, at, out);
    let at = put_words_field(Row::X, lent.x, at, out);
    if zero(lent.y) {
        at
    } else {
        put_words_field(Row::Y, lent.y, at, out)
    }
}

// The field of a serial, in two bytes where it fits them, otherwise in four.
fn put_serial(serial: u32, at: usize, out: &mut [u8]) -> usize
    requires { at + length (joined ((0x05, serial_bytes serial) ∷ [])) ≤ length out.old }
    ensures { (out.new ≡ put at (joined ((0x05, serial_bytes serial) ∷ [])) out.old) × (result ≡ at + length (joined ((0x05, serial_bytes serial) ∷ []))) }
{
    let bytes = serial.to_be_bytes();
    if serial < 65536 {
        put_field(Row::SERIAL, &bytes[2..], at, out)
    } else {
        put_field(Row::SERIAL, &bytes, at, out)
    }
}

// The fields from the serial to a, from place at on; answers where they end.
fn put_group(serial: u32, t: &[u8], a: &[u16], at: usize, out: &mut [u8]) -> usize
    requires t_len_bound { (length t.now < 65536) × (2 * length a.now < 65536) }
    requires a_in_bounds { at + length (joined (group_fields (record { serial = serial; t = t.now; a = a.now }))) ≤ length out.old }
    ensures { (out.new ≡ put at (joined (group_fields (record { serial = serial; t = t.now; a = a.now }))) out.old) × (result ≡ at + length (joined (group_fields (record { serial = serial; t = t.now; a = a.now })))) }
{
    let at = put_serial(serial, at, out);
    let at = put_field(Row::T, t, at, out);
    put_words_field(Row::A, a, at, out)
}

// Whether each slice has its length.
fn lengths(lent: &Lent<'_>, t: &[u8], a: &[u16]) -> bool
    requires { Sized (level_at FIRST) lent.now.key }
    ensures { result ≡ long (write_lent (lengths (level_at FIRST) lent.now.key) (slices_of lent.now) t.now a.now) }
{
    let len = lent.key.lengths(FIRST);
    lent.h.len() == len.matrix
        && lent.x.len() == len.vector
        && lent.y.len() == len.target
        && t.len() == len.bits
        && a.len() == len.proof
}

// The first refusal of what is lent that applies; Ok where none does.
fn checks(lent: &Lent<'_>, t: &[u8], a: &[u16]) -> Answer
    ensures { result ≡ first_of (write_checks (level_at FIRST) lent.now.key (slices_of lent.now) t.now a.now) }
{
    lent.key.sizes(FIRST)?;
    if !lengths(lent, t, a) {
        return Err(Refusal::SliceLength);
    }
    lent.contents(FIRST)?;
    key::material(key::over(t, 1), field::excess(a, FIRST), Code::COLUMN)
}

// The length of field 04 with this content, or 0 where it is left out.
fn target_size(y: &[u16]) -> usize
    requires { 2 * length y.now < 65536 }
    ensures { (result ≡ length (joined (target_fields y.now))) × (result < 65539) }
{
    if zero(y) {
        0
    } else {
        layout::HEAD + 2 * y.len()
    }
}

// The length of the field of a serial.
fn serial_size(serial: u32) -> usize
    ensures { (result ≡ length (joined ((0x05, serial_bytes serial) ∷ []))) × (result ≤ 7) }
{
    if serial < 65536 {
        layout::HEAD + 2
    } else {
        layout::HEAD + 4
    }
}

// The length of the package, whatever n and m.
fn size(lent: &Lent<'_>, serial: u32, t: &[u8], a: &[u16]) -> usize
    requires { (2 * length lent.now.h.now < 65536) × (2 * length lent.now.x.now < 65536) × (2 * length lent.now.y.now < 65536) × (length t.now < 65536) × (2 * length a.now < 65536) }
    ensures { (key : Key) → result ≡ length (package_bytes (level_at FIRST) key (slices_of lent.now) serial t.now a.now) }
{
    let words = 2 * lent.h.len() + 2 * lent.x.len() + 2 * a.len();
    // the heads of five fields, n and m
    let rest = 5 * layout::HEAD + 2 + t.len();
    words + rest + target_size(lent.y) + serial_size(serial)
}

// The first refusal that applies with an output of so many bytes; Ok where none does.
fn refused(lent: &Lent<'_>, serial: u32, t: &[u8], a: &[u16], room: usize) -> Answer
    ensures { result ≡ first_of (write_rows (level_at FIRST) lent.now.key (slices_of lent.now) serial t.now a.now room) }
{
    checks(lent, t, a)?;
    if room < size(lent, serial, t, a) {
        Err(Refusal::ShortOutput)
    } else {
        Ok(())
    }
}

// The package, at the start of out, whose further bytes stay; answers its length.
pub fn write_package(
    lent: &Lent<'_>,
    serial: u32,
    t: &[u8],
    a: &[u16],
    out: &mut [u8],
) -> Result<usize, Refusal>
    ensures outcome { (result, out.new) ≡ write_outcome (level_at FIRST) lent.now.key (slices_of lent.now) serial t.now a.now out.old }
    ensures leans { write_leans (level_at FIRST) lent.now.key (slices_of lent.now) t.now a.now (result ≡ Err DependentRows) }
    ensures reads { (k : ℕ) → result ≡ Ok k → ReadBack (level_at FIRST) lent.now.key (slices_of lent.now) serial t.now a.now k out.new }
{
    refused(lent, serial, t, a, out.len())?;
    let at = put_key(lent, out);
    Ok(put_group(serial, t, a, at, out))
}
