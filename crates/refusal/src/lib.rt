// The refusals of the specification, with their numbers, and the answers of its entries.
#![tactic(auto)]

ghost use Rattle.std.specs.Prelude.{◌≡◌};
ghost use Rattle.refusal.specs.Answer.{number, number_of};
ghost use Rattle.refusal.specs.Verdict.{verdict_number};

// A refusal; its discriminant is the specification's number.
#[derive(Clone, Copy, Debug, PartialEq, Eq)]
pub enum Refusal {
    // n below 2 or above the level's largest
    SizeN = 1,
    // m is 0, or at least n
    SizeM = 2,
    // a lent slice isn't of its stated length
    SliceLength = 3,
    // an element of H, x or y is above the limit
    KeyElement = 4,
    // a byte of u or t is above 1
    Bit = 5,
    // a coordinate of an element of K is above the limit
    Coordinate = 6,
    // a position is 2^d or more
    Position = 7,
    // some top coefficient isn't zero
    Top = 8,
    // fewer bytes remain than a head or a content needs
    BytesMissing = 9,
    // not the tag that comes next
    Tag = 10,
    // not the length stated for the field
    FieldLength = 11,
    // bytes follow the last field
    BytesFollow = 12,
    // the output is shorter than what is to be written
    ShortOutput = 13,
    // field 04 is present and all its elements are zero
    ZeroTarget = 14,
    // some coefficients from F, not all zero, combine the rows of H to zero
    DependentRows = 15,
    // a position is a spare code, and none is 2^d or more
    SpareCode = 16,
    // a four-byte serial is below 65,536
    LongSerial = 19,
    // a group's serial isn't above the one before
    SerialOrder = 20,
    // the key fields of two bundles differ
    OtherKey = 21,
    // groups with one serial differ in field 06 or 07
    GroupsDiffer = 22,
}

impl Refusal {
    // The number of the specification.
    pub fn number(self) -> u32
        ensures { result ≡ number self }
    {
        self as u32
    }
}

// What an entry that writes its results answers.
pub type Answer = Result<(), Refusal>;

// Whether verify's equation holds.
#[derive(Clone, Copy, Debug, PartialEq, Eq)]
pub enum Verdict {
    Accepted,
    Rejected,
}

// The answer's number: 0 where it is no refusal, else the refusal's.
pub fn number<T: Copy>(answer: Result<T, Refusal>) -> u32
    ensures { result ≡ number_of answer }
{
    match answer {
        Ok(_) => 0,
        Err(refusal) => refusal.number(),
    }
}

// The number of what verify answers: 0 for accepted, 255 for rejected, else the refusal's.
pub fn verdict_number(answer: Result<Verdict, Refusal>) -> u32
    ensures { result ≡ verdict_number answer }
{
    match answer {
        Ok(Verdict::Accepted) => 0,
        Ok(Verdict::Rejected) => 255,
        Err(_) => number(answer),
    }
}
