// Columns: with a tab behind each, or at a terminal with blanks up to the next.
use crate::{Card, LINE};
use output::{Output, print};

// How wide each column is.
#[derive(Clone, Copy)]
pub struct Widths {
    pub kind: usize,
    pub name: usize,
    pub oid: usize,
    pub class: usize,
    pub access: usize,
    pub status: usize,
}

// The widths of the longest words.
const KIND: usize = 18;

const CLASS: usize = 10;

const ACCESS: usize = 21;

const STATUS: usize = 10;

// So many blanks at most stand behind a word: no OID has more bytes.
const BLANKS: usize = 1536;

// The widths of a card's columns; those of names and OIDs are the longest's.
pub fn measure(card: Card) -> Widths {
    let mut widths = Widths {
        kind: KIND,
        name: 0,
        oid: 0,
        class: CLASS,
        access: ACCESS,
        status: STATUS,
    };
    for words in card.records.chunks(records::WIDTH) {
        let record = card.record(words);
        let mut line = [0u8; LINE];
        let oid = record.write_oid(&mut line, 0);
        widths.name = widths.name.max(record.name().len());
        widths.oid = widths.oid.max(oid);
    }
    widths
}

// A word and what stands behind it: a tab where columns have no widths, or blanks up to two behind the longest.
pub fn print_column(word: &[u8], width: Option<usize>, out: Output) -> Output {
    let out = print(out, word);
    match width {
        Some(width) => print_blanks(width.saturating_sub(word.len()), out),
        None => output::print_tab(out),
    }
}

// So many blanks, and two more.
fn print_blanks(count: usize, out: Output) -> Output {
    let blanks = [b' '; BLANKS];
    let out = print(out, b"  ");
    if BLANKS < count {
        return out;
    }
    print(out, &blanks[..count])
}

// The last word of a line.
pub fn print_last(word: &[u8], out: Output) -> Output {
    output::end_line(print(out, word))
}
