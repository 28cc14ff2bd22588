// Prints the line of perkcheck for each file that an argument names.
#![tactic(auto)]

use std::env::FillError;
use std::io::Read;
use std::rt::{Env, Files};
use std::{fs, io, str};

// What the main of perkcheck does, at any input: programs share no code but by a library, and four lines make none.
fn print_line(rt: &impl Print, input: &mut impl Read) -> io::Result<()> {
    let mut file = [0u8; 32768];
    let len = reading::read_full(input, &mut file);
    let mut line = [0u8; checkfile::LINE];
    let line_len = checkfile::report(&file[..len], &mut line);
    rt.write_all(&line[..line_len])
}

// The file of this name; none of a name that isn't text, which std opens no file by.
fn open_read<R: Files>(rt: &R, name: &[u8]) -> io::Result<R::File> {
    let path = str::from_utf8(name).map_err(|_| io::ErrorKind::InvalidInput)?;
    fs::open(rt, path)
}

// The line of a name that no file was opened by.
fn fail(errors: &impl Print, name: &[u8], error: io::Error) -> io::Result<()> {
    errors.write_all(name)?;
    println!(errors; ": {error}")
}

// Whether there is an argument i. A name that is longer than the room for it is taken as an empty one.
fn check_named<R: Env + Files + Print>(rt: &R, errors: &impl Print, i: usize) -> io::Result<bool> {
    let mut room = [0u8; 4096];
    let name = match rt.arg(i, &mut room) {
        Ok(len) => &room[..len],
        Err(FillError::TooLong) => &[],
        Err(FillError::NotPresent) => return Ok(false),
    };
    match open_read(rt, name) {
        Ok(mut file) => print_line(rt, &mut file)?,
        Err(error) => fail(errors, name, error)?,
    }
    Ok(true)
}

// The arguments by their numbers, since std's args allocates.
fn main(rt: HostRuntime) -> io::Result<()> {
    for i in 1..usize::MAX {
        if !check_named(&rt, &rt.stderr(), i)? {
            break;
        }
    }
    Ok(())
}
