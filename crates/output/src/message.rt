// Messages on standard error.
ghost use Rattle.std.specs.Prelude.{cond, is_some, ◌≡◌, ◌<◌, ◌≤◌};
ghost use Rattle.output.specs.Status.{accepted, complaint, rank, Rated};

use crate::cause::write_cause;
use crate::shown::write_at_terminal;
use crate::{Output, Program, Status};
use std::io;
use std::io::{IsTerminal, Write};

// A word that does not fit, and why.
#[derive(Clone, Copy)]
pub struct Misfit<'a> {
    pub word: &'a [u8],
    pub why: &'a [u8],
}

impl Output {
    // Starts a program that is to have the names of files as its arguments. `count` is one more than there are; none is a complaint.
    pub fn start_on_files(rt: &HostRuntime, count: usize, program: Program) -> Output
        ensures some { 1 < count → rank result.status ≡ accepted }
        ensures none { count ≤ 1 → rank result.status ≡ complaint }
    {
        let mut out = Output::start(rt);
        if count <= 1 {
            out.complain(
                program,
                None,
                Misfit {
                    word: b"",
                    why: b"is no file",
                },
            );
        }
        out
    }

    // Writes bytes to standard error, as they are. Where that fails, there is nowhere to say it.
    pub fn say(&self, bytes: &[u8]) {
        let _ = self.stderr.write_all(bytes);
    }

    // Writes a number in decimal to standard error.
    pub fn say_number(&self, n: u64) {
        let _ = self.stderr.print(n);
    }

    // There was a complaint.
    fn blame(&mut self)
        ensures { Rated self.old complaint self.new }
    {
        self.status = Status::Complaint;
    }

    // Says why a call of the system failed; `what` is what it was asked for.
    pub fn fail(&mut self, error: io::Error, what: &[u8])
        ensures { Rated self.old complaint self.new }
    {
        self.say_shown(what);
        write_cause(&self.stderr, error);
        self.blame();
    }

    // The same, unless it did not fail.
    pub fn fail_if(&mut self, failure: Option<io::Error>, what: &[u8])
        ensures { Rated self.old (cond (is_some failure) complaint (rank self.old.status)) self.new }
    {
        if let Some(error) = failure {
            self.fail(error, what);
        }
    }

    // Says that a word does not fit, in one line: the program, the line of the list if there is one, the word in quotes, why it does not
    // fit, and how the program is used.
    pub fn complain(&mut self, program: Program, line: Option<u64>, misfit: Misfit)
        ensures { Rated self.old complaint self.new }
    {
        self.say(program.name);
        self.say_line(line);
        self.say(b": '");
        self.say_shown(misfit.word);
        self.say(b"' ");
        self.say(misfit.why);
        self.say(b"; usage: ");
        self.say(program.usage);
        self.say(b"\n");
        self.blame();
    }

    // The same of a case. In a list the case gives a line all the same, so that what is printed can be paired with what was asked.
    pub fn misfit(&mut self, program: Program, line: Option<u64>, misfit: Misfit)
        ensures { rank self.new.status ≡ complaint }
    {
        self.complain(program, line, misfit);
        if line.is_some() {
            self.print(b"misfit\n");
        }
    }

    fn say_line(&self, line: Option<u64>) {
        if let Some(number) = line {
            self.say(b": line ");
            self.say_number(number);
        }
    }

    // Bytes that a file or a user chose: where standard error is a terminal, without control bytes.
    fn say_shown(&self, bytes: &[u8]) {
        if self.console {
            write_at_terminal(&self.stderr, bytes);
        } else {
            self.say(bytes);
        }
    }
}

// Says what is waited for, where a list is to be typed at a terminal.
pub fn say_waiting(rt: &HostRuntime, what: &[u8]) {
    if rt.stdin().is_terminal() {
        let _ = rt.stderr().write_all(what);
    }
}
