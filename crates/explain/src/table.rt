// Tables, access and notifications.
use crate::fault::Fault;
use crate::reason::{print_and_other, print_other_word};
use output::{Output, print};

// The clause of the rules on tables.
pub fn print_table(fault: Fault, out: Output) -> Output {
    match fault.refusal.clause {
        1 => print(
            out,
            b" is a table whose SEQUENCE type has not exactly one row, at the table's OID followed by 1",
        ),
        2 => print(
            out,
            b" is a row, and not at the OID, followed by 1, of a table of its type",
        ),
        3 => print(out, b" is a row with neither INDEX nor AUGMENTS"),
        4 => print(out, b" is no row, and has INDEX or AUGMENTS"),
        5 => print_repeated(fault, out),
        6 => print_stray(fault, out),
        7 => print_unlisted(fault, out),
        _ => print_augments(fault, out),
    }
}

// The name at fault in the list of a row's SEQUENCE type.
fn print_listed(fault: Fault, out: Output) -> Output {
    let out = print(out, b" is a row whose SEQUENCE type lists ");
    print_other_word(fault, out)
}

fn print_repeated(fault: Fault, out: Output) -> Output {
    let out = print_listed(fault, out);
    print(out, b" twice")
}

fn print_stray(fault: Fault, out: Output) -> Output {
    let out = print_listed(fault, out);
    print(
        out,
        b", which is no object at the row's OID plus one number",
    )
}

fn print_unlisted(fault: Fault, out: Output) -> Output {
    let out = print(out, b" is at the OID of the row ");
    let out = print_other_word(fault, out);
    print(
        out,
        b" plus one number, and the row's SEQUENCE type does not list it",
    )
}

fn print_augments(fault: Fault, out: Output) -> Output {
    if fault.other().is_some() {
        let out = print(out, b" augments ");
        let out = print_other_word(fault, out);
        return print(out, b", which is no row with INDEX");
    }
    print(out, b" augments itself, and is no row with INDEX")
}

// What the other one is, by the clause.
pub fn table_other(clause: u8) -> &'static [u8] {
    match clause {
        5 | 6 => b" is listed here",
        _ => b" is what it stands against",
    }
}

// The clause of the rules on access.
pub fn print_access(fault: Fault, out: Output) -> Output {
    match fault.refusal.clause {
        1 => print_and_other(
            fault,
            b" is a read-write column in a row that has a read-create one",
            out,
        ),
        2 => print(out, b" is a table or a row, and these are not-accessible"),
        3 => print(out, b" is read-create, and no column"),
        _ => print(
            out,
            b" is a counter, and these are read-only or accessible-for-notify, without DEFVAL",
        ),
    }
}

// The clause of the rules on notifications.
pub fn print_notification(fault: Fault, out: Output) -> Output {
    match fault.refusal.clause {
        1 => print(
            out,
            b" is a notification whose next-to-last number is not 0",
        ),
        _ => print_and_other(
            fault,
            b" is a notification that lists a not-accessible object",
            out,
        ),
    }
}
