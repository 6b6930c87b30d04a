// Ranges, sizes and items of enumerations.
use crate::fault::Fault;
use crate::reason::print_and_other;
use crate::tokens::{Tokens, collect_tokens};
use index::wide;
use output::{Output, print};
use token::LONGEST_TEXT;

// A range that stands against none is wrong in itself.
pub fn print_range(fault: Fault, out: Output) -> Output {
    match fault.other() {
        Some(_) => print(
            out,
            b" starts a range that shares a number with an earlier one",
        ),
        None => print(
            out,
            b" starts a range whose low number is not below its high one",
        ),
    }
}

// A range or a size that the type does not allow.
pub fn print_limits(fault: Fault, out: Output) -> Output {
    let size = is_size(fault.text, fault.place());
    match (size, fault.refusal.clause) {
        (true, 1) => print(out, b" starts a size, and none may stand on this type"),
        (true, _) => print(out, b" starts a size outside 0 to 65535"),
        (false, 1) => print(out, b" starts a range, and none may stand on this type"),
        (false, _) => print(
            out,
            b" starts a range outside the limits of its type: -2147483648 to 2147483647, or 0 to 4294967295 for Gauge32 and Unsigned32",
        ),
    }
}

// Whether the range at a place is one of sizes.
fn is_size(text: &[u8], place: usize) -> bool {
    let mut classes = [0u8; LONGEST_TEXT];
    let mut starts = [0u32; LONGEST_TEXT];
    let count = collect_tokens(text, &mut classes, &mut starts);
    let tokens = Tokens {
        classes: &classes[..count],
        starts: &starts[..count],
    };
    stands_in_sizes(tokens, place)
}

// Whether SIZE stands before the last bracket before the place.
fn stands_in_sizes(tokens: Tokens, place: usize) -> bool {
    let mut sized = false;
    let mut before = terminal::NUMBER;
    for (class, start) in tokens.classes.iter().zip(tokens.starts) {
        if place <= wide(*start) {
            return sized;
        }
        if *class == terminal::LEFT_PAREN {
            sized = before == terminal::SIZE;
        }
        before = *class;
    }
    sized
}

// An item of an enumeration.
pub fn print_item(fault: Fault, out: Output) -> Output {
    match fault.refusal.clause {
        1 => print(out, b" is the label of an earlier item"),
        2 => print_and_other(fault, b" has the number of an earlier item", out),
        _ => print(
            out,
            b" has a number out of range: an INTEGER's may be -2147483648 to 2147483647, and none of BITS is negative",
        ),
    }
}
