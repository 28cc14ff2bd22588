// Packages and check files of the specification: the readers, and the field of a package.
#![tactic(auto)]

ghost use Rattle.std.specs.Prelude.{◌≡◌, List, ◌++◌, ◌+◌, ◌≤◌, ◌<◌, length};
ghost use Rattle.refusal.specs.Answer.{first_of, Done};
ghost use Rattle.field.specs.declared.Level.{Level};
ghost use Rattle.field.specs.Level.{FIRST, level_at};
ghost use Rattle.layout.specs.declared.Row.{Row};
ghost use Rattle.layout.specs.Layout.{key_tests, group_tests, group_end, package_tests, check_file_tests};
ghost use Rattle.layout.specs.Tests.{part_of};
ghost use Rattle.layout.specs.Steps.{Whole, stepped};
ghost use Rattle.package.specs.Reading.{number_of, read_as, part_if, serial_of, contents_of, package_reader, check_file_reader, reading, field_part, IsPart};

use layout::{Part, Row};
use refusal::{Answer, Refusal};

// What a package or a check file says of itself.
#[derive(Clone, Copy, Debug, PartialEq, Eq)]
pub struct Contents {
    pub n: usize,
    pub m: usize,
    pub serial: u32,
}

// The answer's number: 0 for contents, else the refusal's.
pub fn number(answer: Result<Contents, Refusal>) -> u32
    ensures { result ≡ number_of answer }
{
    refusal::number(answer)
}

// The fields of a package, from the start: where they end, or the refusal.
fn read_fields(bytes: &[u8]) -> Result<usize, Refusal>
    ensures { result ≡ stepped (first_of (key_tests (level_at FIRST) bytes.now ++ group_tests (level_at FIRST) bytes.now)) (group_end (level_at FIRST) bytes.now) }
{
    let at = layout::read_key(bytes)?;
    layout::read_group(bytes, layout::key_at(bytes, layout::HEAD), at)
}

// The first refusal of a package that applies.
fn check_package(bytes: &[u8]) -> Answer
    ensures { result ≡ first_of (package_tests (level_at FIRST) bytes.now) }
{
    let at = read_fields(bytes)?;
    layout::read_end(bytes, at)
}

// The first refusal of a check file that applies.
fn check_file(bytes: &[u8]) -> Answer
    ensures { result ≡ first_of (check_file_tests (level_at FIRST) bytes.now) }
{
    let at = read_fields(bytes)?;
    let end = layout::read_check(bytes, layout::key_at(bytes, layout::HEAD), at)?;
    layout::read_end(bytes, end)
}

// n, m and the serial of bytes for which a reader has this answer, or its refusal.
fn read_as(bytes: &[u8], answer: Answer) -> Result<Contents, Refusal>
    ensures { (l : Level) (rows : List Row) → (answer ≡ Done → Whole l bytes.now rows) → serial_of bytes.now rows < 4294967296 → result ≡ read_as answer (contents_of bytes.now rows) }
{
    answer?;
    let key = layout::key_at(bytes, layout::HEAD);
    let serial = content(bytes, Row::SERIAL);
    Ok(Contents {
        n: key.n,
        m: key.m,
        serial: copying::from_bytes(serial),
    })
}

// Where the content of the field with a tag stands in bytes for which a reader has this answer, or the empty part.
fn located(bytes: &[u8], answer: Answer, tag: u8) -> Part
    ensures { ((l : Level) (rows : List Row) → (answer ≡ Done → Whole l bytes.now rows) → result ≡ part_if answer (part_of tag 0 rows)) × (result.start + result.len ≤ length bytes.now) }
{
    match answer {
        Err(_) => Part { start: 0, len: 0 },
        Ok(()) => layout::find(bytes, tag),
    }
}

// n, m and the serial of a package, or the refusal.
pub fn read_package(bytes: &[u8]) -> Result<Contents, Refusal>
    ensures { result ≡ reading (package_reader (level_at FIRST)) bytes.now }
{
    read_as(bytes, check_package(bytes))
}

// n, m and the serial of a check file, or the refusal.
pub fn read_check_file(bytes: &[u8]) -> Result<Contents, Refusal>
    ensures { result ≡ reading (check_file_reader (level_at FIRST)) bytes.now }
{
    read_as(bytes, check_file(bytes))
}

// Where the content stands that field hands back.
pub fn field_part(bytes: &[u8], tag: u8) -> Part
    ensures { result ≡ field_part (package_reader (level_at FIRST)) bytes.now tag }
{
    located(bytes, check_package(bytes), tag)
}

// The caller's own bytes of a field's content, or the empty part for a refused package or an absent tag.
pub fn field(bytes: &[u8], tag: u8) -> &[u8]
    ensures { IsPart result bytes.entry (field_part (package_reader (level_at FIRST)) bytes.now tag) }
{
    let p = located(bytes, check_package(bytes), tag);
    let start = p.start;
    let end = start + p.len;
    &bytes[start..end]
}

// The caller's own bytes of the content of the field with a tag, in bytes that a reader accepts; nothing is tested again.
pub fn content(bytes: &[u8], tag: u8) -> &[u8]
    ensures { (l : Level) (rows : List Row) → Whole l bytes.now rows → IsPart result bytes.entry (part_of tag 0 rows) }
{
    let p = layout::find(bytes, tag);
    let start = p.start;
    let end = start + p.len;
    &bytes[start..end]
}
