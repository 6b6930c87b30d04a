// The bytes of a file.
ghost use Rattle.std.specs.Prelude.{◌≤◌, length, IfOk};

use std::fs::File;
use std::io::{ErrorKind, Read};
use std::rt::Files;
use std::{io, str};

// The system's number for an argument that it does not take.
const EINVAL: i32 = 22;

// Reads what a word names until it ends or buf is full, and answers how many bytes came: of standard input, where it is a hyphen, or of the
// file of that name.
pub fn read_named(rt: &(impl Files + Input), name: &[u8], buf: &mut [u8]) -> io::Result<usize>
    ensures { IfOk result (λ n. n ≤ length buf.new) }
{
    match name {
        b"-" => read_all(&mut rt.reader(), buf),
        _ => read_file(rt, name, buf),
    }
}

// Reads the file of that name until it ends or buf is full, and answers how many bytes came.
pub fn read_file(rt: &impl Files, name: &[u8], buf: &mut [u8]) -> io::Result<usize>
    ensures { IfOk result (λ n. n ≤ length buf.new) }
{
    let mut file = open(rt, name)?;
    read_all(&mut file, buf)
}

// Opens the file of that name. A name that no file can have, by a byte 0 in it, is refused as the system does.
fn open<R: Files>(rt: &R, name: &[u8]) -> io::Result<R::File> {
    if name.contains(&0) {
        return Err(io::Error::from_raw_os_error(EINVAL));
    }
    match str::from_utf8(name) {
        Ok(path) => File::open(rt, path),
        Err(_) => Err(io::Error::new(ErrorKind::InvalidInput, "the name is not UTF-8")),
    }
}

// Reads until the input ends or buf is full. An index, not an iterator: a read brings more than one byte.
fn read_all<R: Read>(input: &mut R, buf: &mut [u8]) -> io::Result<usize>
    ensures { IfOk result (λ n. n ≤ length buf.new) }
{
    let mut n = 0;
    while n < buf.len() {
        match input.read(&mut buf[n..])? {
            0 => break,
            more => n += more,
        }
    }
    Ok(n)
}
