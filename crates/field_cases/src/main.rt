// Runs the cases on standard input through the functions of crate field and prints a line for each. docs/vectors.md has the forms.
#![tactic(auto)]

ghost use Rattle.std.specs.Prelude.{◌<◌, length, IfSome};

use answer::{Answer, LONGEST, coordinates};
use field::{Element, FIRST, SECOND};
use operation::{Operation, Refused};
use std::{fmt, io};

mod answer;
mod operation;

// The most words of a case.
const ROOM: usize = 320;

// A case: the numbers of its level and of its operation, and its words, the higher byte first.
#[derive(Clone, Copy)]
struct Case<'a> {
    level: u8,
    operation: u8,
    words: &'a [u8],
}

// The line of a case that is not refused.
#[derive(Clone, Copy)]
struct Line {
    level: usize,
    operation: Operation,
    answer: Answer,
}

// The level with this number.
fn level(number: u8) -> Result<usize, Refused> {
    match usize::from(number) {
        level @ (FIRST | SECOND) => Ok(level),
        _ => Err(Refused),
    }
}

impl<'a> Case<'a> {
    // The case at the start of the bytes, and the bytes after it; none where they end before it does.
    fn split(file: &'a [u8]) -> Option<(Case<'a>, &'a [u8])>
        ensures { IfSome result (λ p. length p.1.now < length file.now) }
    {
        let (&[level, operation, high, low], rest) = file.split_first_chunk::<4>()?;
        let count = usize::from(u16::from_be_bytes([high, low]));
        let (words, after) = rest.split_at_checked(2 * count)?;
        let case = Case {
            level,
            operation,
            words,
        };
        Some((case, after))
    }

    fn line(&self) -> Result<Line, Refused> {
        let level = level(self.level)?;
        let operation = Operation::try_from(self.operation)?;
        let (pairs, _) = self.words.as_chunks::<2>();
        if pairs.len() > ROOM {
            return Err(Refused);
        }
        let mut room = [0u16; ROOM];
        let words = &mut room[..pairs.len()];
        for (word, &pair) in words.iter_mut().zip(pairs) {
            *word = u16::from_be_bytes(pair);
        }
        if operation != Operation::Excess && field::excess(words, level) != 0 {
            return Err(Refused);
        }
        let answer = Answer::of(operation, words, level)?;
        Ok(Line {
            level,
            operation,
            answer,
        })
    }
}

impl fmt::Display for Line {
    fn fmt<W: fmt::Write>(&self, f: &mut fmt::Formatter<W>) -> fmt::Result {
        let level = self.level;
        write!(f, "{level} {}", self.operation)?;
        match self.answer {
            Answer::Word(word) => write!(f, " {word:x}"),
            Answer::Element(x) => {
                let mut room = [0u16; LONGEST];
                let words = &mut room[..coordinates(level)];
                x.store(words, 0, level);
                for word in words {
                    write!(f, " {word:x}")?;
                }
                Ok(())
            }
        }
    }
}

// A line for each case to the end of the bytes; a case that is cut there is the last.
fn print_lines(rt: &impl Print, file: &[u8]) -> io::Result<()> {
    let mut rest = file;
    // Each turn goes on by one case, as long as it states.
    while !rest.is_empty() {
        let Some((case, after)) = Case::split(rest) else {
            return rt.println(Refused);
        };
        match case.line() {
            Ok(line) => rt.println(line)?,
            Err(refused) => rt.println(refused)?,
        }
        rest = after;
    }
    Ok(())
}

fn main(rt: HostRuntime) -> io::Result<()> {
    let mut file = [0u8; 65536];
    let len = reading::read_full(&mut rt.stdin(), &mut file);
    print_lines(&rt, &file[..len])
}
