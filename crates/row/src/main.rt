// What may be done next to a row: prints how an agent answers a set of the row's RowStatus.
//
// row STATE COMPLETE WILLING [VALUE] prints a line for each set value, or for the one value given. Without a case it
// reads the same words from standard input, a case a line, with tabs between them. After the word --words it says answers and
// states in words.
#![tactic(auto)]

mod case;

use case::{Case, SetValue, Spelling};
use command::TooLong;
use output::{Misfit, Output, Program};

// How many bytes the arguments, or a line of the list, may have.
const SPACE: usize = 65536;

// What separates the words of a case: the arguments are joined by a byte that none of them can hold, and a line has tabs.
const BETWEEN_ARGUMENTS: u8 = 0;

const ROW: Program<'static> = Program {
    name: b"mib row",
    usage: b"mib row [--words] STATE yes|no yes|no [VALUE]",
};

// The message for a line, or for arguments, that the buffer cannot hold.
const LONG: Misfit = Misfit {
    word: b"..",
    why: b"is too long",
};

fn main(rt: HostRuntime) {
    let mut space = [0u8; SPACE];
    let mut out = Output::start(&rt);
    answer(&rt, &mut space, &mut out);
    out.finish(&rt);
}

// Answers the case that the arguments are; without one, the list on standard input.
fn answer(rt: &HostRuntime, space: &mut [u8], out: &mut Output) {
    if command::count_arguments(rt) <= 1 {
        return answer_list(rt, space, Spelling::Numbers, out);
    }
    let Ok(n) = command::arguments(rt, space) else {
        return out.misfit(ROW, None, LONG);
    };
    match space[..n].strip_prefix(b"--words") {
        Some([]) => answer_list(rt, space, Spelling::Words, out),
        Some([BETWEEN_ARGUMENTS, case @ ..]) => {
            answer_case(case, BETWEEN_ARGUMENTS, None, Spelling::Words, out);
        }
        _ => answer_case(&space[..n], BETWEEN_ARGUMENTS, None, Spelling::Numbers, out),
    }
}

fn answer_list(rt: &HostRuntime, space: &mut [u8], spelling: Spelling, out: &mut Output) {
    output::say_waiting(
        rt,
        b"mib row: waiting for cases, a line each, tabs between the words: STATE yes|no yes|no [VALUE]; Ctrl-D ends them\n",
    );
    let read = command::each_line(rt, space, b'\n', |number, line| {
        answer_line(number, line, spelling, out)
    });
    out.fail_if(read.err(), b"mib row: standard input");
}

fn answer_line(number: u64, line: Result<&[u8], TooLong>, spelling: Spelling, out: &mut Output) {
    match line {
        Ok(case) => answer_case(case, b'\t', Some(number), spelling, out),
        Err(TooLong) => out.misfit(ROW, Some(number), LONG),
    }
}

// Answers one case, or says which of its words does not fit.
fn answer_case(
    case: &[u8],
    separator: u8,
    line: Option<u64>,
    spelling: Spelling,
    out: &mut Output,
) {
    match case::read_case(case, separator) {
        Ok(case) => print_case(&case, spelling, out),
        Err(misfit) => out.misfit(ROW, line, misfit),
    }
}

// The line of the set value that the case has, which is refused unless the set succeeds; or of each that RFC 2579 names. What is refused is
// part of the answer then, and only a state that does not exist is not.
fn print_case(case: &Case, spelling: Spelling, out: &mut Output) {
    if let Some(value) = case.value {
        print_set(case, value, spelling, out);
        out.judge(row_status::number(case.set(value)));
        return;
    }
    for number in 1..=case::LAST_VALUE {
        print_set(case, SetValue::of(number), spelling, out);
    }
    if !case.state.exists() {
        out.refuse();
    }
}

// The line of a set value: its number as it was given, its name, the answer and the next state.
fn print_set(case: &Case, value: SetValue, spelling: Spelling, out: &mut Output) {
    let answer = case.set(value);
    let next = row_status::next(answer, case.state.number);
    out.print(value.word);
    out.print(value.column());
    match spelling {
        Spelling::Numbers => out.print_number(row_status::number(answer)),
        Spelling::Words => out.print(case::answer_name(answer)),
    }
    out.print_tab();
    match spelling {
        _ if !case.state.exists() => out.print(case.state.word),
        Spelling::Numbers => out.print_number(next),
        Spelling::Words => out.print(case::name(next)),
    }
    out.end_line();
}
