// The same for programs that take the output as a value and answer it.
ghost use Rattle.std.specs.Prelude.{◌≡◌, ◌<◌, ◌≤◌};
ghost use Rattle.output.specs.Status.{accepted, complaint, larger, rank, refused, Printed, Rated};

use crate::{Output, Program};
use std::io;
use std::rt::Files;
use visible::Manner;

pub fn start_on_files(rt: &HostRuntime, count: usize, name: &[u8], usage: &[u8]) -> Output
    ensures some { 1 < count → rank result.status ≡ accepted }
    ensures none { count ≤ 1 → rank result.status ≡ complaint }
{
    Output::start_on_files(rt, count, Program { name, usage })
}

pub fn refuse(out: Output) -> Output
    ensures { Rated out (larger (rank out.status) refused) result }
{
    let mut next = out;
    next.refuse();
    next
}

pub fn print(out: Output, bytes: &[u8]) -> Output
    ensures { Printed out result }
{
    let mut next = out;
    next.print(bytes);
    next
}

pub fn print_number(out: Output, n: u64) -> Output
    ensures { Printed out result }
{
    let mut next = out;
    next.print_number(n);
    next
}

pub fn print_tab(out: Output) -> Output
    ensures { Printed out result }
{
    print(out, b"\t")
}

pub fn end_line(out: Output) -> Output
    ensures { Printed out result }
{
    print(out, b"\n")
}

pub fn show(out: Output, bytes: &[u8]) -> Output
    ensures { Printed out result }
{
    let mut next = out;
    next.show(bytes);
    next
}

pub fn manner(out: Output) -> Manner {
    out.manner()
}

pub fn fail(out: Output, error: io::Error, what: &[u8]) -> Output
    ensures { Rated out complaint result }
{
    let mut next = out;
    next.fail(error, what);
    next
}

pub fn finish(rt: &impl Files, out: Output) {
    out.finish(rt);
}
