// What a value looks like under a DISPLAY-HINT.
//
// hint_tool octets HINT HEX and hint_tool integer HINT NUMBER print one line: `printed` and the text, or `refused`, the
// refusal's number and its place, tabs between; a bad hint is explained on standard error. Without arguments it reads the same
// words from standard input, a case a line, with tabs between them, and answers each in one line.
#![tactic(auto)]

mod reason;

ghost use Rattle.std.specs.Prelude.{◌≤◌, length};
ghost use Rattle.hint.specs.Answer.{length_of};

use command::TooLong;
use hint::Refusal;
use hint_form::Fault;
use output::{Misfit, Output, Program};
use words::NumberError;

// How many bytes the arguments, a line of the list, or the octets of a value may have.
const SPACE: usize = 65536;

// How many bytes a printed text may have.
const TEXT: usize = 4096;

// What separates the words of a case: the arguments are joined by a byte that none of them can hold, and a line has tabs.
const BETWEEN_ARGUMENTS: u8 = 0;

const BETWEEN_WORDS: u8 = b'\t';

// What stands for an integer of more than 18 digits. A number, since `hint::integer` answers it as any that is out of range.
const OUT_OF_RANGE: i64 = 4_294_967_296;

const HINT: Program<'static> = Program {
    name: b"mib hint",
    usage: b"mib hint octets HINT HEX, or mib hint integer HINT NUMBER",
};

// The message for a line, or for arguments, that the buffer cannot hold.
const LONG: Misfit = Misfit {
    word: b"..",
    why: b"is too long",
};

fn main(rt: HostRuntime) {
    let mut space = [0u8; SPACE];
    let mut out = Output::start(&rt);
    answer(&rt, &mut space, &mut out);
    out.finish(&rt);
}

// Answers the case that the arguments are; without arguments, the list on standard input.
fn answer(rt: &HostRuntime, space: &mut [u8], out: &mut Output) {
    if command::count_arguments(rt) <= 1 {
        return answer_list(rt, space, out);
    }
    match command::arguments(rt, space) {
        Ok(n) => answer_case(&space[..n], BETWEEN_ARGUMENTS, None, out),
        Err(TooLong) => out.misfit(HINT, None, LONG),
    }
}

fn answer_list(rt: &HostRuntime, space: &mut [u8], out: &mut Output) {
    output::say_waiting(
        rt,
        b"mib hint: waiting for cases, a line each, tabs between the words: octets HINT HEX, or integer HINT NUMBER; Ctrl-D ends them\n",
    );
    let read = command::each_line(
        rt,
        space,
        b'\n',
        |number, line| answer_line(number, line, out),
    );
    out.fail_if(read.err(), b"mib hint: standard input");
}

fn answer_line(number: u64, line: Result<&[u8], TooLong>, out: &mut Output) {
    match line {
        Ok(case) => answer_case(case, BETWEEN_WORDS, Some(number), out),
        Err(TooLong) => out.misfit(HINT, Some(number), LONG),
    }
}

// Answers one case, or says which of its words does not fit.
fn answer_case(case: &[u8], separator: u8, line: Option<u64>, out: &mut Output) {
    if let Err(misfit) = print_case(case, separator, line, out) {
        out.misfit(HINT, line, misfit);
    }
}

// Answers one case, unless one of its words does not fit.
fn print_case<'a>(
    case: &'a [u8],
    separator: u8,
    line: Option<u64>,
    out: &mut Output,
) -> Result<(), Misfit<'a>> {
    let count = words::count_words(case, separator);
    if count < 3 {
        return Err(Misfit {
            word: words::part(case, separator, count - 1),
            why: b"is the last word, and a case has three",
        });
    }
    if 3 < count {
        return Err(Misfit {
            word: words::part(case, separator, 3),
            why: b"is a word too many",
        });
    }
    let kind = words::part(case, separator, 0);
    let hint = words::part(case, separator, 1);
    let value = words::part(case, separator, 2);
    match kind {
        b"octets" => answer_octets(hint, value, line, out),
        b"integer" => answer_integer(hint, value, line, out),
        _ => Err(Misfit {
            word: kind,
            why: b"is neither octets nor integer",
        }),
    }
}

// Prints octets, which are written in hexadecimal as tools print them, by a hint.
fn answer_octets<'a>(
    hint: &[u8],
    hex: &'a [u8],
    line: Option<u64>,
    out: &mut Output,
) -> Result<(), Misfit<'a>> {
    let mut space = [0u8; SPACE];
    let Some(n) = words::read_octets(hex, &mut space) else {
        return Err(Misfit {
            word: hex,
            why: b"is no octets in hex digits, as mib help hint has them",
        });
    };
    print_octets(hint, &space[..n], line, out);
    Ok(())
}

// Not one function with `print_integer`, and a closure for the call: the clause of each call bounds its own text.
fn print_octets(hint: &[u8], octets: &[u8], line: Option<u64>, out: &mut Output) {
    let mut text = [0u8; TEXT];
    let answer = hint::octets(hint, octets, &mut text);
    if is_explained(answer, line) {
        explain(hint, hint_form::octets_fault(hint), out);
    }
    print_answer(answer, &text, line, out);
}

// Prints an integer by a hint.
fn answer_integer<'a>(
    hint: &[u8],
    number: &'a [u8],
    line: Option<u64>,
    out: &mut Output,
) -> Result<(), Misfit<'a>> {
    match words::read_number(number) {
        Ok(value) => print_integer(hint, value, line, out),
        Err(NumberError::NoNumber) => {
            return Err(Misfit {
                word: number,
                why: b"is no number",
            });
        }
        Err(_) => print_integer(hint, OUT_OF_RANGE, line, out),
    }
    Ok(())
}

fn print_integer(hint: &[u8], value: i64, line: Option<u64>, out: &mut Output) {
    let mut text = [0u8; TEXT];
    let answer = hint::integer(hint, value, &mut text);
    if is_explained(answer, line) {
        explain(hint, hint_form::integer_fault(hint), out);
    }
    print_answer(answer, &text, line, out);
}

// Whether what is wrong with a hint is said: not in a list, where thousands of cases may have the same hint.
fn is_explained(answer: Result<usize, Refusal>, line: Option<u64>) -> bool {
    line.is_none() && matches!(answer, Err(Refusal::BadHint))
}

// Says what is wrong with a hint, if anything is.
fn explain(hint: &[u8], fault: Option<Fault>, out: &Output) {
    if let Some(fault) = fault {
        reason::explain(hint, fault, out);
    }
}

// Prints the text that was printed, or the refusal.
fn print_answer(answer: Result<usize, Refusal>, text: &[u8], line: Option<u64>, out: &mut Output)
    requires { length_of answer ≤ length text.now }
{
    match answer {
        Ok(n) => print_text(&text[..n], line, out),
        Err(refusal) => print_refusal(refusal, out),
    }
}

// Prints a text: in a list so that it is one line, whatever its bytes are.
fn print_text(text: &[u8], line: Option<u64>, out: &mut Output) {
    out.print(b"printed\t");
    match line {
        Some(_) => out.show_in_list(text),
        None => out.show(text),
    }
    out.end_line();
}

fn print_refusal(refusal: Refusal, out: &mut Output) {
    out.refuse();
    out.print(b"refused\t");
    out.print_number(refusal.number());
    out.print_tab();
    out.print_number(refusal.place() as u64);
    out.end_line();
}
