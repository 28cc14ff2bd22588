// A check file's bytes to a verdict, and the line that perkcheck prints.
#![tactic(auto)]

ghost use Rattle.std.specs.Prelude.{◌≡◌, [], ◌∷◌, ◌++◌, ◌+◌, ◌%◌, ◌≤◌, ◌<◌, length, take};
ghost use Rattle.lists.specs.Words.{put};
ghost use Rattle.copying.specs.Words.{words};
ghost use Rattle.field.specs.Level.{FIRST, level_at};
ghost use Rattle.key.specs.Key.{slices_of};
ghost use Rattle.layout.specs.Tests.{key_of};
ghost use Rattle.package.specs.Written.{check_form};
ghost use Rattle.package.specs.Said.{key_data_of, group_of};
ghost use Rattle.verifier.specs.Entry.{verify_outcome};
ghost use Rattle.checkfile.specs.Checking.{check_number, content, Accepts, check_of, verdict_of, checking};
ghost use Rattle.checkfile.specs.Line.{decimal, said_of, printed};

use key::{Key, Lent};
use layout::Row;
use package::Contents;
use refusal::{Refusal, Verdict};

// Words of room for H, x, y, the proof, q, the mask numbers, one element of K and the weights, at n = 64 and m = 63.
const MATRIX: usize = 4032;

const VECTOR: usize = 64;

const TARGET: usize = 63;

const PROOF: usize = 72;

const ELEMENTS: usize = 4608;

const MASKS: usize = 60;

const ONE: usize = 12;

const VALUES: usize = 1524;

// Bytes of room for a line: none is longer, whatever its numbers.
pub const LINE: usize = 96;

// What checking a file tells: what the file says of itself, and the verdict on its proof.
#[derive(Clone, Copy, Debug, PartialEq, Eq)]
pub struct Checked {
    pub contents: Contents,
    pub verdict: Verdict,
}

// The answer's number: 0 for accepted, 255 for rejected, else the refusal's.
pub fn number(checked: Result<Checked, Refusal>) -> u32
    ensures { result ≡ check_number checked }
{
    match checked {
        Ok(file) => refusal::verdict_number(Ok(file.verdict)),
        Err(refusal) => refusal.number(),
    }
}

// The content of a field of an accepted check file as words, at the start of out, whose further words stay; answers how many.
fn load(bytes: &[u8], tag: u8, out: &mut [u16]) -> usize
    requires { Accepts (level_at FIRST) bytes.now × (length (words (content (level_at FIRST) bytes.now tag)) ≤ length out.old) }
    ensures { (take result out.new ≡ words (content (level_at FIRST) bytes.now tag)) × (result ≤ length out.new) × (result ≡ length (take result out.new)) × (out.new ≡ put 0 (words (content (level_at FIRST) bytes.now tag)) out.old) }
{
    copying::words_into(package::content(bytes, tag), out)
}

// The verdict on an accepted check file whose H, x, y and a are lent as words.
fn judge_with(bytes: &[u8], lent: &Lent<'_>, a: &[u16]) -> Result<Verdict, Refusal>
    requires { Accepts (level_at FIRST) bytes.now }
    ensures { result ≡ verify_outcome (level_at FIRST) lent.now.key (slices_of lent.now) (content (level_at FIRST) bytes.now 0x06) (words (content (level_at FIRST) bytes.now 0x11)) (words (content (level_at FIRST) bytes.now 0x13)) (words (content (level_at FIRST) bytes.now 0x12)) (words (content (level_at FIRST) bytes.now 0x14)) a.now }
{
    let mut q = [0u16; ELEMENTS];
    let q_len = load(bytes, Row::Q, &mut q);
    let mut masks = [0u16; MASKS];
    let masks_len = load(bytes, Row::MASKS, &mut masks);
    let mut delta = [0u16; ONE];
    let delta_len = load(bytes, Row::DELTA, &mut delta);
    let mut alpha = [0u16; VALUES];
    let alpha_len = load(bytes, Row::ALPHA, &mut alpha);
    let t = package::content(bytes, Row::T);
    verifier::verify(
        lent,
        t,
        &q[..q_len],
        &delta[..delta_len],
        &masks[..masks_len],
        &alpha[..alpha_len],
        a,
    )
}

// The verdict on an accepted check file with this key. Where field 04 is absent the room for y stays zero.
fn judge(bytes: &[u8], key: Key) -> Result<Verdict, Refusal>
    requires { Accepts (level_at FIRST) bytes.now × (key ≡ key_of bytes.now) }
    ensures { result ≡ verdict_of (level_at FIRST) (key_data_of (check_form (level_at FIRST)) bytes.now) (group_of (check_form (level_at FIRST)) bytes.now) (check_of (level_at FIRST) bytes.now) }
{
    let mut h = [0u16; MATRIX];
    let h_len = load(bytes, Row::H, &mut h);
    let mut x = [0u16; VECTOR];
    let x_len = load(bytes, Row::X, &mut x);
    let mut y = [0u16; TARGET];
    load(bytes, Row::Y, &mut y);
    let mut a = [0u16; PROOF];
    let a_len = load(bytes, Row::A, &mut a);
    let m = key.m;
    let lent = Lent {
        key,
        h: &h[..h_len],
        x: &x[..x_len],
        y: &y[..m],
    };
    judge_with(bytes, &lent, &a[..a_len])
}

// Whether a check file's proof is accepted, with what the file says of itself, or the reader's refusal.
pub fn check(bytes: &[u8]) -> Result<Checked, Refusal>
    ensures { result ≡ checking (level_at FIRST) bytes.now }
{
    let contents = package::read_check_file(bytes)?;
    let key = Key {
        n: contents.n,
        m: contents.m,
    };
    let verdict = judge(bytes, key)?;
    Ok(Checked { contents, verdict })
}

// The last decimal digit.
fn digit(x: u64) -> u8
    ensures { result ≡ 48 + x % 10 }
{
    48 + (x % 10) as u8
}

// A text and one byte after it, from place at on; answers the place after them.
fn put_text(text: &[u8], last: u8, at: usize, out: &mut [u8]) -> usize
    requires { at + length text.now < length out.old }
    ensures { (out.new ≡ put at (text.now ++ (last ∷ [])) out.old) × (result ≡ at + (length text.now + 1)) }
{
    let end = copying::put_bytes(text, at, out);
    out[end] = last;
    end + 1
}

// A number in decimal and one byte after it.
fn put_number(x: u64, last: u8, at: usize, out: &mut [u8]) -> usize
    requires { at + 20 < length out.old }
    ensures { (out.new ≡ put at (decimal x ++ (last ∷ [])) out.old) × (result ≡ at + (length (decimal x) + 1)) × (result ≤ at + 21) }
{
    let mut text = [0u8; 20];
    text[19] = digit(x);
    let mut i = 19;
    let mut rest = x / 10;
    // The digits from the last on: the edit digit_repeated changes this loop, and std's text needs room that grows.
    while 0 < rest {
        i -= 1;
        text[i] = digit(rest);
        rest = rest / 10;
    }
    put_text(&text[i..], last, at, out)
}

// What a file says of itself, and a space.
fn put_contents(contents: Contents, out: &mut [u8]) -> usize
    requires { 96 ≤ length out.old }
    ensures { (out.new ≡ put 0 (said_of contents) out.old) × (result ≡ length (said_of contents)) × (result ≤ 74) }
{
    let at = put_text(b"serial", b' ', 0, out);
    let at = put_number(contents.serial as u64, b' ', at, out);
    let at = put_text(b"n", b' ', at, out);
    let at = put_number(contents.n as u64, b' ', at, out);
    let at = put_text(b"m", b' ', at, out);
    put_number(contents.m as u64, b' ', at, out)
}

// The line for an answer, at the start of out; answers its length. Without room for a line it writes nothing and answers 0.
pub fn line(checked: Result<Checked, Refusal>, out: &mut [u8]) -> usize
    ensures printed { (result, out.new) ≡ printed checked out.old }
    ensures fits { (result ≤ length out.new) × (result ≡ length (take result out.new)) }
{
    if out.len() < LINE {
        return 0;
    }
    match checked {
        Ok(file) => {
            let at = put_contents(file.contents, out);
            match file.verdict {
                Verdict::Accepted => put_text(b"accepted", b'\n', at, out),
                Verdict::Rejected => put_text(b"rejected", b'\n', at, out),
            }
        }
        Err(refusal) => {
            let at = put_text(b"refused", b' ', 0, out);
            put_number(refusal.number() as u64, b'\n', at, out)
        }
    }
}

// What perkcheck prints for the bytes that it has read, at the start of out; answers its length, as `line` does.
pub fn report(bytes: &[u8], out: &mut [u8]) -> usize
    ensures printed { (result, out.new) ≡ printed (checking (level_at FIRST) bytes.now) out.old }
    ensures fits { (result ≤ length out.new) × (result ≡ length (take result out.new)) }
{
    line(check(bytes), out)
}
