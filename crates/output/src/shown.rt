// Bytes that a file, a device or a user chose. Control bytes among them are not to reach a terminal, nor to break a line of a list.
ghost use Rattle.std.specs.Prelude.{◌+◌, ◌*◌, ◌≤◌, length};
ghost use Rattle.output.specs.Status.{Printed};

use crate::Output;
use std::io;
use std::io::Write;
use visible::{Manner, WIDEST, write_visible};

// As many bytes are made visible at a time as have room in a buffer, whatever they are.
const CHUNK: usize = 1024;

impl Output {
    // How bytes are shown: where standard output is a terminal, without control bytes.
    pub fn manner(&self) -> Manner {
        Manner {
            line: false,
            terminal: self.terminal,
        }
    }

    // Writes bytes to standard output; at a terminal, control bytes as \xNN.
    pub fn show(&mut self, bytes: &[u8])
        ensures { Printed self.old self.new }
    {
        if self.terminal {
            self.show_by(bytes, self.manner());
        } else {
            self.print(bytes);
        }
    }

    // Writes bytes to a line of a list: control bytes and the backslash as \xNN, so that they end no line.
    pub fn show_in_list(&mut self, bytes: &[u8])
        ensures { Printed self.old self.new }
    {
        let manner = Manner {
            line: true,
            terminal: self.terminal,
        };
        self.show_by(bytes, manner);
    }

    fn show_by(&mut self, bytes: &[u8], manner: Manner)
        ensures { Printed self.old self.new }
    {
        if !self.lost {
            let written = write_by(&self.stdout, bytes, manner);
            self.note(written);
        }
    }
}

// Writes bytes to a terminal.
pub fn write_at_terminal(to: &impl Print, bytes: &[u8]) {
    let manner = Manner {
        line: false,
        terminal: true,
    };
    let _ = write_by(to, bytes, manner);
}

// Writes what is seen of bytes. An index, not `chunks`: what is seen of a byte depends on those before it too.
fn write_by(to: &impl Print, bytes: &[u8], manner: Manner) -> io::Result<()> {
    let mut i = 0;
    while i < bytes.len() {
        let count = CHUNK.min(bytes.len() - i);
        let mut space = [0u8; WIDEST * CHUNK];
        write_chunk(to, bytes, i, count, manner, &mut space)?;
        i += count;
    }
    Ok(())
}

fn write_chunk(
    to: &impl Print,
    bytes: &[u8],
    from: usize,
    count: usize,
    manner: Manner,
    space: &mut [u8],
) -> io::Result<()>
    requires inside { from + count ≤ length bytes.now }
    requires room { 4 * count ≤ length space.old }
{
    let n = write_visible(bytes, from, count, manner, space);
    to.write_all(&space[..n])
}
