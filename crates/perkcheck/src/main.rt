// perkcheck: reads a check file of at most 32,768 bytes from standard input and prints its line.
#![tactic(auto)]

use std::io;

fn main(rt: HostRuntime) -> io::Result<()> {
    let mut file = [0u8; 32768];
    let len = reading::read_full(&mut rt.stdin(), &mut file);
    let mut line = [0u8; checkfile::LINE];
    let line_len = checkfile::report(&file[..len], &mut line);
    rt.write_all(&line[..line_len])
}
