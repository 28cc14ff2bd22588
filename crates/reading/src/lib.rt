// Reads an input into a lent buffer.
#![tactic(auto)]

ghost use Rattle.std.specs.Prelude.{◌≡◌, ◌≤◌, length, take};
ghost use Rattle.std.specs.Io.KnownBytes.{Consumes};

use std::io::Read;

// Reads until buf is full, the input ends or a read fails, and answers how many bytes stand at its start: those that were read, in order.
pub fn read_full<R: Read>(input: &mut R, buf: &mut [u8]) -> usize
    ensures start { (result ≤ length buf.new) × (result ≡ length (take result buf.new)) }
    ensures bytes { Consumes (R.remaining input.old) (R.remaining input.new) (take result buf.new) }
{
    let mut done = 0;
    // Each turn goes on by as many bytes as were read.
    while done < buf.len() {
        match input.read(&mut buf[done..]) {
            Ok(0) | Err(_) => break,
            Ok(count) => done += count,
        }
    }
    done
}
