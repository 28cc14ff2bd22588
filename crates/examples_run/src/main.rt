// Prints what the entries answer and write for the examples of the specification and for its edges, a line each.
// An element of K is printed as its coordinate 0, then each other coordinate c that is not zero as +cY^i.
#![tactic(auto)]

use key::{Key, Lent};
use refusal::{Answer, Refusal, Verdict};
use std::{fmt, io};

// How many coordinates an element has.
const COORDINATES: usize = 12;

// Numbers, each after a space.
#[derive(Clone, Copy)]
struct Bytes<'a>(&'a [u8]);

// Elements, each after a space: the tops of polynomials of this degree, which for 0 are all of them.
#[derive(Clone, Copy)]
struct Elements<'a> {
    words: &'a [u16],
    degree: u8,
}

// An element, after a space.
#[derive(Clone, Copy)]
struct Coordinates<'a>(&'a [u16]);

// What the prover and the verifier are both lent: a key and the weights.
#[derive(Clone, Copy)]
struct Statement<'a> {
    lent: Lent<'a>,
    alpha: &'a [u16],
}

// What the prover is lent alone.
#[derive(Clone, Copy)]
struct Prover<'a> {
    positions: &'a [u8],
    u: &'a [u8],
    v: &'a [u16],
    r: &'a [u16],
    s: &'a [u16],
}

// What the verifier is lent alone, but for the proof.
#[derive(Clone, Copy)]
struct Verifier<'a> {
    t: &'a [u8],
    q: &'a [u16],
    delta: &'a [u16],
    masks: &'a [u16],
}

// Room for what constraints and prove write.
#[derive(Drop)]
struct Room<'a> {
    t: &'a mut [u8],
    polynomials: &'a mut [u16],
    a: &'a mut [u16],
}

// Key A of the specification with a prover, a verifier and a proof, or what differs from it in a few words.
#[derive(Clone, Copy)]
struct Example {
    key: Key,
    h: [u16; 2],
    x: [u16; 2],
    y: [u16; 1],
    alpha: [u16; 36],
    v: [u16; 24],
    q: [u16; 24],
    delta: [u16; 12],
    a: [u16; 12],
}

impl fmt::Display for Bytes<'_> {
    fn fmt<W: fmt::Write>(&self, f: &mut fmt::Formatter<W>) -> fmt::Result {
        for b in self.0 {
            write!(f, " {b}")?;
        }
        Ok(())
    }
}

impl fmt::Display for Coordinates<'_> {
    fn fmt<W: fmt::Write>(&self, f: &mut fmt::Formatter<W>) -> fmt::Result {
        for (power, &word) in self.0.iter().enumerate() {
            match (power, word) {
                (0, _) => write!(f, " {word}")?,
                (_, 0) => {}
                _ => write!(f, "+{word}Y^{power}")?,
            }
        }
        Ok(())
    }
}

impl fmt::Display for Elements<'_> {
    fn fmt<W: fmt::Write>(&self, f: &mut fmt::Formatter<W>) -> fmt::Result {
        let degree = usize::from(self.degree);
        for (i, element) in self.words.chunks_exact(COORDINATES).enumerate() {
            if i % (degree + 1) == degree {
                write!(f, "{}", Coordinates(element))?;
            }
        }
        Ok(())
    }
}

impl Statement<'_> {
    // Prints what constraints answers, and tells whether it has written.
    fn constraints(&self, rt: &impl Print, prover: &Prover, room: &mut Room) -> io::Result<bool> {
        let answer = constraints::constraints(
            &self.lent,
            prover.positions,
            prover.u,
            prover.v,
            room.t,
            room.polynomials,
        );
        done(rt, answer)
    }

    // The same of prove.
    fn prove(&self, rt: &impl Print, prover: &Prover, room: &mut Room) -> io::Result<bool> {
        let answer = prover::prove(
            &self.lent,
            prover.positions,
            prover.u,
            prover.v,
            prover.r,
            prover.s,
            self.alpha,
            room.t,
            room.a,
        );
        done(rt, answer)
    }

    // The same of values.
    fn values(&self, rt: &impl Print, verifier: &Verifier, values: &mut [u16]) -> io::Result<bool> {
        let Verifier { t, q, delta, .. } = *verifier;
        let answer = constraints::values(&self.lent, t, q, delta, values);
        done(rt, answer)
    }

    // Prints what verify answers for this proof.
    fn verify(&self, rt: &impl Print, verifier: &Verifier, a: &[u16]) -> io::Result<()> {
        let verdict = verifier::verify(
            &self.lent,
            verifier.t,
            verifier.q,
            verifier.delta,
            verifier.masks,
            self.alpha,
            a,
        );
        judged(rt, verdict)
    }
}

impl Room<'_> {
    // What constraints has written, for this d.
    fn print_polynomials(&self, rt: &impl Print, degree: u8) -> io::Result<()> {
        let words = &*self.polynomials;
        let tops = Elements { words, degree };
        print!(rt;
            ", t{}, polynomials{}, tops{tops}",
            Bytes(self.t),
            all(words)
        )
    }

    // What prove has written.
    fn print_proof(&self, rt: &impl Print) -> io::Result<()> {
        print!(rt; ", t{}, a{}", Bytes(self.t), all(self.a))
    }
}

impl Example {
    fn statement(&self) -> Statement<'_> {
        Statement {
            lent: Lent {
                key: self.key,
                h: &self.h,
                x: &self.x,
                y: &self.y,
            },
            alpha: &self.alpha,
        }
    }

    fn prover<'a>(&'a self, positions: &'a [u8]) -> Prover<'a> {
        Prover {
            positions,
            u: &[1, 0],
            v: &self.v,
            r: &[],
            s: &[],
        }
    }

    fn verifier<'a>(&'a self, t: &'a [u8]) -> Verifier<'a> {
        Verifier {
            t,
            q: &self.q,
            delta: &self.delta,
            masks: &[],
        }
    }
}

// Prints the answer, and tells whether it is done.
fn done(rt: &impl Print, answer: Answer) -> io::Result<bool> {
    match answer {
        Ok(()) => print!(rt; " done")?,
        Err(refusal) => print!(rt; " refused {}", refusal.number())?,
    }
    Ok(answer.is_ok())
}

fn judged(rt: &impl Print, answer: Result<Verdict, Refusal>) -> io::Result<()> {
    match answer {
        Ok(Verdict::Accepted) => print!(rt; " accepted"),
        Ok(Verdict::Rejected) => print!(rt; " rejected"),
        Err(refusal) => print!(rt; " refused {}", refusal.number()),
    }
}

// Numbers of F as elements of K, each in its coordinate 0.
fn embedded<const N: usize>(numbers: &[u16]) -> [u16; N] {
    let mut words = [0u16; N];
    for (element, &number) in words.chunks_exact_mut(COORDINATES).zip(numbers) {
        element[0] = number;
    }
    words
}

fn all(words: &[u16]) -> Elements<'_> {
    Elements { words, degree: 0 }
}

fn key_a() -> Example {
    Example {
        key: Key { n: 2, m: 1 },
        h: [2, 1],
        x: [1, 2],
        y: [0],
        alpha: embedded(&[1, 2, 1]),
        v: embedded(&[1, 4]),
        q: embedded(&[3, 4]),
        delta: embedded(&[2]),
        a: embedded(&[5]),
    }
}

// What product answers and writes.
fn product(rt: &impl Print, a: &[u16], b: &[u16]) -> io::Result<()> {
    let mut out = [0u16; 12];
    print!(rt; ":")?;
    if done(rt, arithmetic::product(a, b, &mut out))? {
        print!(rt; "{}", all(&out))?;
    }
    println!(rt)
}

// What constraints answers and writes, and then prove, a line each, for this d.
fn proving(
    rt: &impl Print,
    name: &str,
    statement: &Statement,
    prover: &Prover,
    room: &mut Room,
    degree: u8,
) -> io::Result<()> {
    let positions = Bytes(prover.positions);
    print!(rt; "{name}, positions{positions}, constraints:")?;
    if statement.constraints(rt, prover, room)? {
        room.print_polynomials(rt, degree)?;
    }
    print!(rt; "\n{name}, positions{positions}, prove:")?;
    if statement.prove(rt, prover, room)? {
        room.print_proof(rt)?;
    }
    println!(rt)
}

// Key A with this y and these positions.
fn prove_a(rt: &impl Print, name: &str, y: u16, positions: &[u8]) -> io::Result<()> {
    let example = Example { y: [y], ..key_a() };
    let mut room = Room {
        t: &mut [0; 2],
        polynomials: &mut [0; 72],
        a: &mut [0; 12],
    };
    proving(
        rt,
        name,
        &example.statement(),
        &example.prover(positions),
        &mut room,
        1,
    )
}

// Key A with this y and this t, by values, and by verify with a right and a wrong proof.
fn verify_a(rt: &impl Print, name: &str, y: u16, t: &[u8]) -> io::Result<()> {
    let example = Example { y: [y], ..key_a() };
    let statement = example.statement();
    let verifier = example.verifier(t);
    let mut values = [0u16; 36];
    print!(rt; "{name}, values:")?;
    if statement.values(rt, &verifier, &mut values)? {
        print!(rt; "{}", all(&values))?;
    }
    println!(rt)?;
    for number in [5, 4] {
        print!(rt; "{name}, a = {number}, verify:")?;
        statement.verify(rt, &verifier, &embedded::<12>(&[number]))?;
        println!(rt)?;
    }
    Ok(())
}

// n = 3, m = 1, H = 1 0 0 and x = 0 1 2 with this y and these positions.
fn prove_three(rt: &impl Print, name: &str, y: u16, positions: &[u8]) -> io::Result<()> {
    let statement = Statement {
        lent: Lent {
            key: Key { n: 3, m: 1 },
            h: &[1, 0, 0],
            x: &[0, 1, 2],
            y: &[y],
        },
        alpha: &embedded::<48>(&[1, 2, 3, 4]),
    };
    let prover = Prover {
        positions,
        u: &[0; 6],
        v: &embedded::<72>(&[1, 2, 3, 4, 5, 6]),
        r: &embedded::<12>(&[7]),
        s: &embedded::<12>(&[8]),
    };
    let mut room = Room {
        t: &mut [0; 6],
        polynomials: &mut [0; 144],
        a: &mut [0; 24],
    };
    proving(rt, name, &statement, &prover, &mut room, 2)
}

// The answers of constraints and prove.
fn prover_answers(
    rt: &impl Print,
    statement: &Statement,
    prover: &Prover,
    room: &mut Room,
) -> io::Result<()> {
    print!(rt; ": constraints")?;
    statement.constraints(rt, prover, room)?;
    print!(rt; ", prove")?;
    statement.prove(rt, prover, room)?;
    Ok(())
}

// Those of values and verify.
fn verifier_answers(
    rt: &impl Print,
    statement: &Statement,
    verifier: &Verifier,
    a: &[u16],
    values: &mut [u16],
) -> io::Result<()> {
    print!(rt; ", values")?;
    statement.values(rt, verifier, values)?;
    print!(rt; ", verify")?;
    statement.verify(rt, verifier, a)?;
    println!(rt)
}

// The answers of all four, with positions 0 1.
fn answers(rt: &impl Print, example: &Example) -> io::Result<()> {
    let statement = example.statement();
    let prover = example.prover(&[0, 1]);
    let verifier = example.verifier(&[1, 1]);
    let mut room = Room {
        t: &mut [0; 2],
        polynomials: &mut [0; 72],
        a: &mut [0; 12],
    };
    prover_answers(rt, &statement, &prover, &mut room)?;
    verifier_answers(rt, &statement, &verifier, &example.a, &mut [0; 36])
}

// The answers to key A where 2047, and where 2048, is set in a place of this name.
fn limits<F: Fn(&mut Example, u16)>(rt: &impl Print, name: &str, set: F) -> io::Result<()>
    requires { F.IsAlwaysCallable set }
{
    for word in [2047, 2048] {
        let mut example = key_a();
        set(&mut example, word);
        print!(rt; "{name} {word}")?;
        answers(rt, &example)?;
    }
    Ok(())
}

// The positions 0 to 63.
fn columns() -> [u8; 64] {
    let mut positions = [0u8; 64];
    for (position, i) in positions.iter_mut().zip(0..64u8) {
        *position = i;
    }
    positions
}

// H for n = 64 and m = 63: one at column e of row e, and zero elsewhere.
fn units() -> [u16; 4032] {
    let mut h = [0u16; 4032];
    for e in 0..63 {
        h[64 * e + e] = 1;
    }
    h
}

// n = 64, m = 63: x, y and u are zero, positions 0 to 63, and v and the weights have two words that are not zero.
fn largest(rt: &impl Print) -> io::Result<()> {
    let mut v = [0u16; 4608];
    v[0] = 1;
    v[4596] = 2;
    let mut alpha = [0u16; 1524];
    alpha[0] = 1;
    alpha[1512] = 2;
    let masks = [0u16; 60];
    let statement = Statement {
        lent: Lent {
            key: Key { n: 64, m: 63 },
            h: &units(),
            x: &[0; 64],
            y: &[0; 63],
        },
        alpha: &alpha,
    };
    let prover = Prover {
        positions: &columns(),
        u: &[0; 384],
        v: &v,
        r: &masks,
        s: &masks,
    };
    let mut t = [0u8; 384];
    let mut a = [0u16; 72];
    let mut room = Room {
        t: &mut t,
        polynomials: &mut [0; 10668],
        a: &mut a,
    };
    print!(rt; "n = 64, m = 63")?;
    prover_answers(rt, &statement, &prover, &mut room)?;
    let verifier = Verifier {
        t: &t,
        q: &v,
        delta: &embedded::<12>(&[2]),
        masks: &masks,
    };
    verifier_answers(rt, &statement, &verifier, &a, &mut [0; 1524])
}

// Products of two numbers.
fn products_of_numbers(rt: &impl Print, factors: &[(u16, u16)]) -> io::Result<()> {
    for &(a, b) in factors {
        print!(rt; "{a} times {b}")?;
        product(rt, &embedded::<12>(&[a]), &embedded::<12>(&[b]))?;
    }
    Ok(())
}

// Products of powers of Y.
fn products_of_powers(rt: &impl Print) -> io::Result<()> {
    let mut power_1 = [0u16; 12];
    power_1[1] = 1;
    let mut power_11 = [0u16; 12];
    power_11[11] = 1;
    print!(rt; "Y^11 times Y")?;
    product(rt, &power_11, &power_1)?;
    print!(rt; "Y^11 times Y^11")?;
    product(rt, &power_11, &power_11)
}

// Keys without a target.
fn without_target(rt: &impl Print) -> io::Result<()> {
    prove_a(rt, "key A", 0, &[0, 1])?;
    verify_a(rt, "key A", 0, &[1, 1])?;
    prove_three(rt, "n = 3", 0, &[1, 1, 1])?;
    prove_three(rt, "n = 3", 0, &[0, 1, 3])?;
    prove_a(rt, "key A", 0, &[1, 0])?;
    prove_three(rt, "n = 3", 0, &[0, 1, 4])
}

// Keys with a target.
fn with_target(rt: &impl Print) -> io::Result<()> {
    prove_a(rt, "key A, y = 5", 5, &[1, 0])?;
    verify_a(rt, "key A, y = 5", 5, &[0, 0])?;
    prove_a(rt, "key A, y = 5", 5, &[0, 1])?;
    prove_three(rt, "n = 3, y = 1", 1, &[1, 0, 2])?;
    prove_three(rt, "n = 3, y = 1", 1, &[0, 1, 2])
}

// Sizes at their edges.
fn sizes(rt: &impl Print) -> io::Result<()> {
    for (n, m) in [(1, 1), (65, 1), (2, 1), (2, 2)] {
        print!(rt; "n = {n}, m = {m}")?;
        let key = Key { n, m };
        answers(rt, &Example { key, ..key_a() })?;
    }
    Ok(())
}

// Words at the limit and above it.
fn words(rt: &impl Print) -> io::Result<()> {
    limits(rt, "H", |example, word| example.h[0] = word)?;
    limits(rt, "x", |example, word| example.x[0] = word)?;
    limits(rt, "y", |example, word| example.y[0] = word)?;
    limits(rt, "v", |example, word| example.v[0] = word)?;
    limits(rt, "q", |example, word| example.q[0] = word)?;
    limits(rt, "challenge", |example, word| example.delta[0] = word)?;
    limits(rt, "weights", |example, word| example.alpha[0] = word)?;
    limits(rt, "a", |example, word| example.a[0] = word)
}

fn main(rt: HostRuntime) -> io::Result<()> {
    products_of_numbers(&rt, &[(1024, 2), (1024, 1024), (2047, 2)])?;
    products_of_powers(&rt)?;
    without_target(&rt)?;
    with_target(&rt)?;
    sizes(&rt)?;
    products_of_numbers(&rt, &[(2047, 1), (2048, 1)])?;
    words(&rt)?;
    largest(&rt)
}
