// What a program writes: its standard output, messages on standard error, and the status that it ends with. Nothing here knows of SMI.
#![tactic(auto)]

ghost use Rattle.std.specs.Prelude.{◌≡◌, false};
ghost use Rattle.output.specs.Status.{accepted, refused, rank, rating, larger, Rated, Printed};

mod by_value;
mod cause;
mod message;
mod shown;
mod status;

pub use by_value::{
    end_line, fail, finish, manner, print, print_number, print_tab, refuse, show, start_on_files,
};
use cause::write_cause;
pub use message::{Misfit, say_waiting};
pub use status::Status;
use status::write_status;
use std::io;
use std::io::{IsTerminal, Stderr, Stdout, Write};
use std::rt::Files;

// A program as its users call it, and how it is used. A complaint is lent it: stored, it would have to live as long as the output.
#[derive(Clone, Copy)]
pub struct Program<'a> {
    pub name: &'a [u8],
    pub usage: &'a [u8],
}

// How the output went so far.
#[derive(Clone, Copy)]
pub struct Output {
    pub status: Status,
    // A write failed. It was said once, and nothing is written after it.
    pub lost: bool,
    // Whether standard output is a terminal, and whether standard error is one.
    pub terminal: bool,
    pub console: bool,
    pub stdout: Stdout,
    pub stderr: Stderr,
}

impl Output {
    pub fn start(rt: &HostRuntime) -> Output
        ensures status { rank result.status ≡ accepted }
        ensures lost { result.lost ≡ false }
    {
        let stdout = rt.stdout();
        let stderr = rt.stderr();
        Output {
            status: Status::Accepted,
            lost: false,
            terminal: stdout.is_terminal(),
            console: stderr.is_terminal(),
            stdout,
            stderr,
        }
    }

    // Something was refused. That hides no complaint.
    pub fn refuse(&mut self)
        ensures { Rated self.old (larger (rank self.old.status) refused) self.new }
    {
        if self.status == Status::Accepted {
            self.status = Status::Refused;
        }
    }

    // Something was refused, unless the number is 0.
    pub fn judge(&mut self, number: u64)
        ensures { Rated self.old (larger (rank self.old.status) (rating number)) self.new }
    {
        if number != 0 {
            self.refuse();
        }
    }

    // Writes bytes to standard output, as they are.
    pub fn print(&mut self, bytes: &[u8])
        ensures { Printed self.old self.new }
    {
        if !self.lost {
            let written = self.stdout.write_all(bytes);
            self.note(written);
        }
    }

    // Writes a number in decimal.
    pub fn print_number(&mut self, n: u64)
        ensures { Printed self.old self.new }
    {
        if !self.lost {
            let written = self.stdout.print(n);
            self.note(written);
        }
    }

    // What stands between the words of a line, and behind the last.
    pub fn print_tab(&mut self)
        ensures { Printed self.old self.new }
    {
        self.print(b"\t");
    }

    pub fn end_line(&mut self)
        ensures { Printed self.old self.new }
    {
        self.print(b"\n");
    }

    // How the output went with one write more. Why one failed is said at once.
    fn note(&mut self, written: io::Result<()>)
        ensures { Printed self.old self.new }
    {
        if let Err(error) = written {
            self.say(b"mib: standard output");
            write_cause(&self.stderr, error);
            self.status = Status::Complaint;
            self.lost = true;
        }
    }

    // Says the status. It is the last thing that a program does.
    pub fn finish(self, rt: &impl Files) {
        let _ = write_status(rt, self.status);
    }
}
