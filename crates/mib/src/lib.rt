// The library for C and for Rust: the questions as functions, which `mib_c` exports. Nothing is asked of what is lent. An answer goes over the first
// words of a slice that the caller lends, as far as it reaches; words beyond the answer stay as they were.
#![tactic(auto)]

ghost use Rattle.std.specs.Prelude.{◌≡◌, ◌∷◌, []};
ghost use Rattle.reader.specs.Buffers.{number_of, place_of, answered_count};
ghost use Rattle.hint.specs.Answer.{number_of as printed_number, place_of as printed_place, length_of as printed_length};
ghost use Rattle.row_status.specs.RowStatus.{outcome};
ghost use Rattle.mib.specs.Raw.{laid, step_words, ReadRaw, OctetsRaw, IntegerRaw, SetRaw};

use reader::PlainRefusal;
use row_status::State;

// Lays words over the first of a slice, as far as it reaches.
fn lay(words: &[usize], answer: &mut [usize])
    ensures { answer.new ≡ laid words.now answer.old }
{
    let count = words.len().min(answer.len());
    answer[..count].copy_from_slice(&words[..count]);
}

// Lays number, place and count of the reader's answer.
fn lay_reading(reading: Result<usize, PlainRefusal>, answer: &mut [usize])
    ensures { answer.new ≡ laid (number_of reading ∷ place_of reading ∷ answered_count reading ∷ [])
        answer.old }
{
    match reading {
        Ok(count) => lay(&[0, 0, count], answer),
        Err(refusal) => lay(&[refusal.number as usize, refusal.place.0, 0], answer),
    }
}

// Lays number, place and length of a printer's answer.
fn lay_printing(printing: Result<usize, hint::Refusal>, answer: &mut [usize])
    ensures { answer.new ≡ laid (printed_number printing ∷ printed_place printing ∷ printed_length printing ∷ [])
        answer.old }
{
    match printing {
        Ok(length) => lay(&[0, 0, length], answer),
        Err(refusal) => lay(&[refusal.number() as usize, refusal.place(), 0], answer),
    }
}

// Lays the number of a row's answer, and the next state of a row in the state.
fn lay_step(step: Result<State, row_status::Refusal>, state: u64, answer: &mut [usize])
    ensures { answer.new ≡ laid (step_words (outcome state step)) answer.old }
{
    let number = row_status::number(step) as usize;
    let next = row_status::next(step, state) as usize;
    lay(&[number, next], answer);
}

// Reads a module, and lays number, place and count.
pub fn mib_read_raw(text: &[u8], records: &mut [u32], numbers: &mut [u32], answer: &mut [usize])
    ensures { ReadRaw text.now records.old records.new numbers.old numbers.new
        answer.old answer.new }
{
    lay_reading(reader::read(text, records, numbers), answer);
}

// Prints octets by a hint, and lays number, place and length.
pub fn mib_print_octets_raw(hint: &[u8], octets: &[u8], out: &mut [u8], answer: &mut [usize])
    ensures { OctetsRaw hint.now octets.now out.old out.new
        answer.old answer.new }
{
    lay_printing(hint::octets(hint, octets, out), answer);
}

// Prints an integer by a hint, and lays the same.
pub fn mib_print_integer_raw(hint: &[u8], value: i64, out: &mut [u8], answer: &mut [usize])
    ensures { IntegerRaw hint.now value out.old out.new
        answer.old answer.new }
{
    lay_printing(hint::integer(hint, value, out), answer);
}

// Answers a set of RowStatus, and lays the number and the row's next state. A flag is yes when it isn't 0.
pub fn mib_set_row_raw(state: u64, value: i64, complete: u32, willing: u32, answer: &mut [usize])
    ensures { SetRaw state value complete willing answer.old answer.new }
{
    let step = row_status::set(state, value, complete != 0, willing != 0);
    lay_step(step, state, answer);
}
