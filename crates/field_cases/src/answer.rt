// What the operations give for the words of a case.
ghost use Rattle.std.specs.Prelude.{◌≡◌, ◌≤◌};
ghost use Rattle.field.specs.Level.{level_at};
ghost use Rattle.field_cases.specs.declared.answer.TheConstants.{LONGEST};

use crate::operation::{Operation, Refused};
use field::{Element, Level, Multiples, combination, small};

// The most words of an element.
pub const LONGEST: usize = 23;

// The result of an operation.
#[derive(Clone, Copy)]
pub enum Answer {
    Element(Element),
    Word(u16),
}

// The words of an element.
pub fn coordinates(level: usize) -> usize
    ensures same { result ≡ (level_at level).coordinates }
    ensures few { result ≤ LONGEST }
{
    Level::of(level).coordinates
}

// Whether a number is other than zero.
fn truth(number: u16) -> Answer {
    Answer::Word(u16::from(number != 0))
}

// The element at the start of the words, and the words after it.
fn split_element(s: &[u16], level: usize) -> Result<(Element, &[u16]), Refused> {
    let (words, rest) = s.split_at_checked(coordinates(level)).ok_or(Refused)?;
    Ok((Element::load(words, 0, level), rest))
}

// N elements.
fn elements<const N: usize>(s: &[u16], level: usize) -> Result<[Element; N], Refused> {
    let mut all = [Element::ZERO; N];
    let mut rest = s;
    for x in &mut all {
        (*x, rest) = split_element(rest, level)?;
    }
    if rest.is_empty() {
        Ok(all)
    } else {
        Err(Refused)
    }
}

// An element and a word.
fn element_and_word(s: &[u16], level: usize) -> Result<(Element, u16), Refused> {
    let (&f, words) = s.split_last().ok_or(Refused)?;
    let [x] = elements::<1>(words, level)?;
    Ok((x, f))
}

// The element with this word in coordinate i.
fn term(i: u16, word: u16, level: usize) -> Result<Element, Refused> {
    let mut s = [0u16; LONGEST];
    let i = usize::from(i);
    if i >= coordinates(level) {
        return Err(Refused);
    }
    s[i] = word;
    Ok(Element::load(&s, 0, level))
}

// The product, by the table of multiples of a.
fn by_multiples(a: Element, b: Element, level: usize) -> Element {
    Multiples::of(a, level).times(b, level)
}

// No words.
fn of_none(s: &[u16], x: Element) -> Result<Answer, Refused> {
    let [] = s else { return Err(Refused) };
    Ok(Answer::Element(x))
}

// Two elements.
fn of_two<F: FnOnce(Element, Element) -> Element>(
    s: &[u16],
    level: usize,
    f: F,
) -> Result<Answer, Refused>
    requires { F.IsAlwaysCallable f }
{
    let [a, b] = elements::<2>(s, level)?;
    Ok(Answer::Element(f(a, b)))
}

// Two terms: the coordinate and the word of each.
fn of_terms<F: FnOnce(Element, Element) -> Element>(
    s: &[u16],
    level: usize,
    f: F,
) -> Result<Answer, Refused>
    requires { F.IsAlwaysCallable f }
{
    let &[i, a, j, b] = s else {
        return Err(Refused)
    };
    Ok(Answer::Element(f(term(i, a, level)?, term(j, b, level)?)))
}

fn nonzero(s: &[u16], level: usize) -> Result<Answer, Refused> {
    let [x] = elements::<1>(s, level)?;
    Ok(truth(x.nonzero(level)))
}

fn scaled(s: &[u16], level: usize) -> Result<Answer, Refused> {
    let (x, f) = element_and_word(s, level)?;
    Ok(Answer::Element(Multiples::of(x, level).scaled(f, level)))
}

fn masked(s: &[u16], level: usize) -> Result<Answer, Refused> {
    let (x, b) = element_and_word(s, level)?;
    if b > 1 {
        return Err(Refused);
    }
    Ok(Answer::Element(x.masked(u64::from(b), level)))
}

// Terms of a combination: an element and a word each.
fn combined(s: &[u16], level: usize) -> Result<Answer, Refused> {
    let mut parts = [0u64; field::TABLE];
    for term in s.chunks(coordinates(level) + 1) {
        let (x, f) = element_and_word(term, level)?;
        combination::add(&mut parts, x, f, level);
    }
    Ok(Answer::Element(combination::total(&parts, level)))
}

// Two elements of F.
fn product(s: &[u16], level: usize) -> Result<Answer, Refused> {
    let &[a, b] = s else { return Err(Refused) };
    Ok(Answer::Word(small::product(a, b, level)))
}

// Three elements. The product of the first two is used as it is, without being stored and loaded.
fn chain(s: &[u16], level: usize) -> Result<Answer, Refused> {
    let [a, b, other] = elements::<3>(s, level)?;
    Ok(Answer::Element(by_multiples(a.times(b, level), other, level)))
}

fn differs(s: &[u16], level: usize) -> Result<Answer, Refused> {
    let [a, b, other] = elements::<3>(s, level)?;
    Ok(truth(a.times(b, level).plus(other, level).nonzero(level)))
}

impl Answer {
    // The answer to an operation, whose words are within the level's limit but for Excess.
    pub fn of(operation: Operation, s: &[u16], level: usize) -> Result<Answer, Refused> {
        match operation {
            Operation::Plus => of_two(s, level, |a, b| a.plus(b, level)),
            Operation::Times => of_two(s, level, |a, b| a.times(b, level)),
            Operation::Multiples => of_two(s, level, |a, b| by_multiples(a, b, level)),
            Operation::Scaled => scaled(s, level),
            Operation::Masked => masked(s, level),
            Operation::Combination => combined(s, level),
            Operation::Nonzero => nonzero(s, level),
            Operation::Zero => of_none(s, Element::zero(level)),
            Operation::One => of_none(s, Element::one(level)),
            Operation::Y => of_none(s, Element::y(level)),
            Operation::Product => product(s, level),
            Operation::Excess => Ok(truth(field::excess(s, level))),
            Operation::TermTimes => of_terms(s, level, |a, b| a.times(b, level)),
            Operation::TermMultiples => of_terms(s, level, |a, b| by_multiples(a, b, level)),
            Operation::Chain => chain(s, level),
            Operation::Differs => differs(s, level),
        }
    }
}
