// The lines of a list that is read through a buffer.
ghost use Rattle.std.specs.Prelude.{◌≡◌, ◌+◌, ◌≤◌, ◌<◌, length, eqb};
ghost use Rattle.std.specs.List.{position};
ghost use Rattle.command.specs.Within.{LineWithin, LinesWithin, PartWithin, no_line};

use crate::TooLong;
use std::io;
use std::io::Read;

// Where a line stands in the buffer: its bytes without its line end.
#[derive(Clone, Copy)]
pub struct Part {
    pub from: usize,
    pub to: usize,
}

// Why there is no next line, though the input has not ended.
#[derive(Clone, Copy)]
pub enum LineError {
    // The buffer cannot hold it. It is passed over.
    TooLong,
    // The input cannot be read.
    Unread(io::Error),
}

impl From<io::Error> for LineError {
    fn from(error: io::Error) -> LineError {
        LineError::Unread(error)
    }
}

// The line that runs up to `last`: without a carriage return that stands before a line feed.
fn without_return(buf: &[u8], from: usize, last: usize, end: u8) -> Part
    requires { PartWithin from last (length buf.now) }
    ensures start { result.from ≡ from }
    ensures end { PartWithin from result.to last }
{
    if end == b'\n' && from < last && buf[last - 1] == b'\r' {
        Part { from, to: last - 1 }
    } else {
        Part { from, to: last }
    }
}

// The number that stands for no line. The lines are counted in 64 bits, which no run uses up.
pub const NO_LINE: u64 = u64::MAX;

// The bytes of the buffer that are read and not used yet: from `from` up to, not including, `to`; and the byte that ends a line.
#[derive(Clone, Copy)]
pub struct Lines {
    // The number of the line that was asked for last, from 1 on; 0 before the first.
    pub number: u64,
    from: usize,
    to: usize,
    end: u8,
}

impl Lines {
    // Nothing is read yet.
    pub fn ended_by(end: u8) -> Lines
        ensures within { LinesWithin result 0 }
        ensures number { result.number ≡ 0 }
    {
        Lines {
            number: 0,
            from: 0,
            to: 0,
            end,
        }
    }

    // The next line of the input; none at its end. It is in the buffer already, or what the buffer holds is moved to its front and more is
    // read behind it. A last line needs no line end, and one of two bytes, as CRLF, is one.
    pub fn next(&mut self, rt: &impl Input, buf: &mut [u8]) -> Result<Option<Part>, LineError>
        requires { LinesWithin self.old (length buf.old) }
        ensures lines { LinesWithin self.new (length buf.old) }
        ensures line { LineWithin result (length buf.old) }
        ensures later { self.old.number < no_line → self.new.number ≡ self.old.number + 1 }
    {
        self.number = self.number.saturating_add(1);
        let from = self.from;
        let to = self.to;
        if let Some(n) = find(&buf[from..to], self.end) {
            return Ok(Some(self.cut(buf, from, from + n, to)));
        }
        buf.copy_within(from..to, 0);
        self.read_line(rt, buf, to - from)
    }

    // The line from `from` on that ends at `found`. What stands behind its end, up to `to`, is left.
    fn cut(&mut self, buf: &[u8], from: usize, found: usize, to: usize) -> Part
        requires start { from ≤ found }
        requires end { found + 1 ≤ to }
        requires inside { to ≤ length buf.now }
        ensures lines { LinesWithin self.new to }
        ensures number { self.new.number ≡ self.old.number }
        ensures rest { self.new.to ≡ to }
        ensures start { result.from ≡ from }
        ensures part { PartWithin result.from result.to to }
    {
        self.from = found + 1;
        self.to = to;
        without_return(buf, from, found, self.end)
    }

    // Reads on behind the buffer's first `held` bytes, which hold no line end, until a line is whole. The turns are
    // counted, since nothing says that an input ends; no run uses them up.
    fn read_line(
        &mut self,
        rt: &impl Input,
        buf: &mut [u8],
        held: usize,
    ) -> Result<Option<Part>, LineError>
        requires lines { LinesWithin self.old (length buf.old) }
        requires held { held ≤ length buf.old }
        ensures lines { LinesWithin self.new (length buf.old) }
        ensures number { self.new.number ≡ self.old.number }
        ensures line { LineWithin result (length buf.old) }
    {
        let mut to = held;
        for _ in 0..u64::MAX {
            if to == buf.len() {
                self.skip_line(rt, buf);
                return Err(LineError::TooLong);
            }
            let more = rt.reader().read(&mut buf[to..])?;
            if more == 0 {
                return Ok(self.last_line(buf, to));
            }
            if let Some(n) = find(&buf[to..to + more], self.end) {
                return Ok(Some(self.cut(buf, 0, to + n, to + more)));
            }
            to += more;
        }
        Ok(None)
    }

    // What the end of the input leaves: a last line without a line end, or nothing.
    fn last_line(&mut self, buf: &[u8], to: usize) -> Option<Part>
        requires { to ≤ length buf.now }
        ensures lines { LinesWithin self.new to }
        ensures number { self.new.number ≡ self.old.number }
        ensures line { LineWithin (Ok result) to }
    {
        self.from = to;
        self.to = to;
        if to == 0 {
            None
        } else {
            Some(without_return(buf, 0, to, self.end))
        }
    }

    // Reads on to the end of a line. Where the input cannot be read, the next line says so.
    fn skip_line(&mut self, rt: &impl Input, buf: &mut [u8])
        ensures lines { LinesWithin self.new (length buf.old) }
        ensures number { self.new.number ≡ self.old.number }
    {
        for _ in 0..u64::MAX {
            let to = rt.reader().read(buf).unwrap_or(0);
            if to == 0 {
                break;
            }
            if let Some(n) = find(&buf[..to], self.end) {
                self.from = n + 1;
                self.to = to;
                return;
            }
        }
        self.from = 0;
        self.to = 0;
    }
}

// The first place where this byte stands.
fn find(bytes: &[u8], byte: u8) -> Option<usize>
    ensures { result ≡ position (λ b. eqb b byte) bytes.now }
{
    bytes.iter().position(|b| *b == byte)
}

// Hands each line of standard input to `f`, with its number, from 1 on; a line that the buffer cannot hold as an error. The lines end with
// this byte.
pub fn each_line<F: FnMut(u64, Result<&[u8], TooLong>)>(
    rt: &impl Input,
    buf: &mut [u8],
    end: u8,
    mut f: F,
) -> io::Result<()>
    requires { F.IsAlwaysCallable f }
{
    let mut lines = Lines::ended_by(end);
    for _ in 1..NO_LINE {
        match lines.next(rt, buf) {
            Ok(Some(part)) => f(lines.number, Ok(&buf[part.from..part.to])),
            Ok(None) => return Ok(()),
            Err(LineError::TooLong) => f(lines.number, Err(TooLong)),
            Err(LineError::Unread(error)) => return Err(error),
        }
    }
    Ok(())
}
