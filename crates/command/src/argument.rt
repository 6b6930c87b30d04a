// The words that the program was started with, and the files that they name.
ghost use Rattle.std.specs.Prelude.{◌≤◌, length, IfOk};

use crate::TooLong;
use crate::file::read_named;
use std::env::FillError;
use std::io;
use std::rt::{Env, Files};

// The system's numbers for a word that is not there, and for one that is too long for a file's name.
const EINVAL: i32 = 22;

const ENAMETOOLONG: i32 = 36;

// How many bytes a file's name may have.
const NAME: usize = 4096;

// How many words there are, the program's name among them.
pub fn count_arguments(rt: &impl Env) -> usize {
    let mut start = [0u8; 1];
    for i in 0..usize::MAX {
        if let Err(FillError::NotPresent) = rt.arg(i, &mut start) {
            return i;
        }
    }
    usize::MAX
}

// Puts the program's arguments at the start of buf with a byte 0, which none of them can hold, between them, and
// answers how many bytes that takes.
pub fn arguments(rt: &impl Env, buf: &mut [u8]) -> Result<usize, TooLong>
    ensures { IfOk result (λ n. n ≤ length buf.old) }
{
    let mut at = 0;
    for i in 1..count_arguments(rt) {
        at = append(rt, buf, at, i)?;
    }
    Ok(at)
}

// Puts argument `index` into buf at index `at`, behind a byte 0 if it is not the first, and answers where it ends.
fn append(rt: &impl Env, buf: &mut [u8], at: usize, index: usize) -> Result<usize, TooLong>
    requires { at ≤ length buf.old }
    ensures { IfOk result (λ n. n ≤ length buf.old) }
{
    if index == 1 {
        return argument(rt, buf, at, index);
    }
    if at == buf.len() {
        return Err(TooLong);
    }
    buf[at] = 0;
    argument(rt, buf, at + 1, index)
}

// The same without the byte 0.
fn argument(rt: &impl Env, buf: &mut [u8], at: usize, index: usize) -> Result<usize, TooLong>
    requires { at ≤ length buf.old }
    ensures { IfOk result (λ n. n ≤ length buf.old) }
{
    match rt.arg(index, &mut buf[at..]) {
        Ok(n) => Ok(at + n),
        Err(_) => Err(TooLong),
    }
}

// A file that an argument names: how many bytes its name has, and how many the file holds; or why it cannot be read. Counts, not slices: no
// clause can speak of a buffer that a result borrows. `each_file` hands on slices.
#[derive(Clone, Copy)]
pub struct Named {
    pub name: usize,
    pub content: io::Result<usize>,
}

// Puts argument i at the start of one buffer, and what the file of that name holds, or standard input where it is a hyphen, at the start
// of the other, until it ends or the buffer is full. Of a name that is too long for a file's, as much is kept as fits.
pub fn read_argument(
    rt: &(impl Env + Files + Input),
    i: usize,
    name: &mut [u8],
    buf: &mut [u8],
) -> Named
    ensures name { result.name ≤ length name.old }
    ensures bytes { IfOk result.content (λ n. n ≤ length buf.old) }
{
    match rt.arg(i, name) {
        Ok(n) => Named {
            name: n,
            content: read_named(rt, &name[..n], buf),
        },
        Err(error) => Named {
            name: name.len(),
            content: Err(reason(error)),
        },
    }
}

// Hands each file that an argument names to `f`: its name, and what was read of it into the buffer, or why it cannot be read.
pub fn each_file<F: FnMut(&[u8], io::Result<&[u8]>)>(
    rt: &(impl Env + Files + Input),
    buf: &mut [u8],
    mut f: F,
)
    requires { F.IsAlwaysCallable f }
{
    let mut name = [0u8; NAME];
    for i in 1..count_arguments(rt) {
        let file = read_argument(rt, i, &mut name, buf);
        match file.content {
            Ok(n) => f(&name[..file.name], Ok(&buf[..n])),
            Err(error) => f(&name[..file.name], Err(error)),
        }
    }
}

// Why a word is not in its buffer, as the system says it.
fn reason(error: FillError) -> io::Error {
    match error {
        FillError::NotPresent => io::Error::from_raw_os_error(EINVAL),
        FillError::TooLong => io::Error::from_raw_os_error(ENAMETOOLONG),
    }
}
