// The definitions of a module, counted by kind.
ghost use Rattle.std.specs.Prelude.{◌≤◌};

use output::{Output, print, print_number};
use reader::RECORD_WORDS;

// The most records that there are.
const RECORDS: usize = RECORD_WORDS / records::WIDTH;

// What stands before the count of each kind, from the first on.
static KINDS: [&[u8]; 7] = [
    b", identity ",
    b", plain OID ",
    b", object identity ",
    b", object ",
    b", textual convention ",
    b", SEQUENCE type ",
    b", notification ",
];

// How many records are of this kind. Words that are not used are 0, which is no kind.
fn count_kind(records: &[u32], kind: u32) -> usize
    ensures { result ≤ 512 }
{
    records
        .chunks(records::WIDTH)
        .take(RECORDS)
        .filter(|words| words.first().copied().unwrap_or(0) == kind)
        .count()
}

// Behind the file's name: that the module is accepted, and how many definitions of each kind it has.
pub fn print_accepted(records: &[u32], definitions: usize, out: Output) -> Output {
    let out = print(out, b": accepted: definitions ");
    let mut next = print_number(out, definitions as u64);
    for (i, what) in KINDS.iter().enumerate() {
        next = print_count(count_kind(records, i as u32 + 1), what, next);
    }
    output::end_line(next)
}

fn print_count(count: usize, what: &[u8], out: Output) -> Output {
    if count == 0 {
        return out;
    }
    let out = print(out, what);
    print_number(out, count as u64)
}
