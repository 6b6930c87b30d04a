// What may stand where the grammar refuses a text.
ghost use Rattle.std.specs.Prelude.{◌<◌, length};

use crate::class_name::class_name;
use crate::tokens::collect_tokens;
use crate::word::print_word;
use output::{Output, print};
use outside::Left;
use terminal::TERMINALS;
use token::LONGEST_TEXT;

// The most classes that are named.
const MOST: usize = 5;

// By the grammar: a word that is left out, one that may not stand there, or an end that comes too early.
pub fn print_misplaced(text: &[u8], place: usize, out: Output) -> Output {
    match outside::left_out(text, place) {
        None => print_expected(text, place, out),
        Some(Left::Conformance) => print_left_out(text, place, b"no conformance macros", out),
        Some(Left::Macros) => print(
            out,
            b"'MACRO' is left out: this reader knows no macro definitions",
        ),
        Some(Left::FirstVersion) => print_left_out(text, place, b"SMIv2 alone", out),
        Some(Left::Exports) => print_left_out(text, place, b"no exports", out),
        Some(Left::Choices) => print_left_out(text, place, b"no types by CHOICE", out),
    }
}

fn print_left_out(text: &[u8], place: usize, known: &[u8], out: Output) -> Output {
    let out = print_word(text, place, out);
    let out = print(out, b" is left out: this reader knows ");
    print(out, known)
}

fn print_expected(text: &[u8], place: usize, out: Output) -> Output {
    let mut allowed = Allowed {
        classes: [false; TERMINALS],
    };
    collect_allowed(text, &mut allowed.classes);
    if text.len() <= place {
        let out = print(out, b"the text ends here, and the module does not; ");
        let out = allowed.print(out);
        return print(out, b" may follow");
    }
    let out = print_word(text, place, out);
    if allowed.count() == 0 {
        return print(out, b" stands behind the module's END");
    }
    let out = print(out, b" may not stand here; ");
    let out = allowed.print(out);
    print(out, b" may")
}

// Which classes the grammar allows in the place of the token at fault.
fn collect_allowed(text: &[u8], allowed: &mut [bool; TERMINALS]) {
    let mut classes = [0u8; LONGEST_TEXT];
    let mut starts = [0u32; LONGEST_TEXT];
    let count = collect_tokens(text, &mut classes, &mut starts);
    if let Err(fault) = grammar::recognise(&classes[..count])
        && fault.0 < LONGEST_TEXT
    {
        mark_allowed(&mut classes, fault.0, allowed);
    }
}

fn mark_allowed(classes: &mut [u8], n: usize, allowed: &mut [bool; TERMINALS])
    requires { n < length classes.old }
{
    for class in 0..TERMINALS {
        allowed[class] = grammar::allows(classes, n, class as u8);
    }
}

// The classes that the grammar allows.
#[derive(Drop)]
struct Allowed {
    classes: [bool; TERMINALS],
}

impl Allowed {
    fn allows(&self, class: usize) -> bool {
        self.classes.get(class).copied().unwrap_or(false)
    }

    // Whether a class is named: negative numbers are numbers, and status and access words are lower, where that is allowed.
    fn names(&self, class: usize) -> bool {
        class != terminal::NEGATIVE as usize
            && !(is_lower_word(class) && self.allows(terminal::LOWER as usize))
            && self.allows(class)
    }

    fn count(&self) -> usize {
        (0..TERMINALS).filter(|class| self.names(*class)).count()
    }

    // The first of the classes that are named, words before names and names before marks.
    fn print(&self, out: Output) -> Output {
        let count = self.count();
        let mut next = out;
        let named = (0..TERMINALS).rev().filter(|class| self.names(*class));
        for (i, class) in named.take(MOST).enumerate() {
            next = print(next, between(i, count));
            next = print(next, class_name(class));
        }
        if MOST < count {
            print(next, b" and others")
        } else {
            next
        }
    }
}

fn is_lower_word(class: usize) -> bool {
    (terminal::CURRENT as usize..=terminal::READ_CREATE as usize).contains(&class)
}

// What stands before the class i of those that are named.
fn between(i: usize, count: usize) -> &'static [u8] {
    match (i, count.saturating_sub(i)) {
        (0, _) | (_, 0) => b"",
        (_, 1) => b" or ",
        _ => b", ",
    }
}
