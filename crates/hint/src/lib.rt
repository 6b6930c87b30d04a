// Prints a value by its DISPLAY-HINT: octets by octet-format pieces, integers by one integer format (RFC 2579, 3.1).
// The caller lends the output buffer. Nothing is asked of the arguments: what cannot be printed is refused.
#![tactic(auto)]

mod pieces;

ghost use Rattle.std.specs.Prelude.{◌≡◌, Err};
ghost use Rattle.hint.specs.Answer.{number_of, place_of, PrintedOctets, PrintedInteger};

use buffer::clear;
use hint_form::is_hint;
use hint_integer::{form_of, in_range, print_signed};
use hint_piece::BadOctet;
use pieces::print_pieces;

// Why a call prints nothing. specs/Answer.antt gives the number and place of each case.
#[derive(Clone, Copy, PartialEq, Eq)]
pub enum Refusal {
    // The output buffer is shorter than the part that the call works on.
    ShortBuffer,
    // A value of more than 1,024 octets.
    LongValue,
    BadHint,
    // The first octet that isn't of its format, or its character's start.
    BadOctet(usize),
    OutOfRange,
}

impl Refusal {
    // The paper's number, 30 to 34.
    pub fn number(self) -> u64
        ensures { result ≡ number_of (Err self) }
    {
        match self {
            Refusal::ShortBuffer => 30,
            Refusal::LongValue => 31,
            Refusal::BadHint => 32,
            Refusal::BadOctet(_) => 33,
            Refusal::OutOfRange => 34,
        }
    }

    // The place of refusal 33, and 0 for any other.
    pub fn place(self) -> usize
        ensures { result ≡ place_of (Err self) }
    {
        match self {
            Refusal::BadOctet(place) => place,
            _ => 0,
        }
    }
}

// Prints octets by a hint for octets, and answers the text's length. Works on the first 4,096 bytes of the output: the text, then
// zeros. A refusal zeroes them too, but for a buffer that is shorter, of which nothing changes.
pub fn octets(hint: &[u8], value: &[u8], out: &mut [u8]) -> Result<usize, Refusal>
    ensures { PrintedOctets hint.now value.now result out.old out.new }
{
    if out.len() < 4096 {
        return Err(Refusal::ShortBuffer);
    }
    clear(out, 4096);
    if 1024 < value.len() {
        return Err(Refusal::LongValue);
    }
    if !is_hint(hint) {
        return Err(Refusal::BadHint);
    }
    // No `?`: the part is zeroed before the fault is told.
    match print_pieces(hint, value, &mut out[..4096]) {
        Ok(n) => Ok(n),
        Err(BadOctet(place)) => {
            clear(out, 4096);
            Err(Refusal::BadOctet(place))
        }
    }
}

// Prints an integer by a hint for integers, likewise in the first 64 bytes of the output.
pub fn integer(hint: &[u8], value: i64, out: &mut [u8]) -> Result<usize, Refusal>
    ensures { PrintedInteger hint.now value result out.old out.new }
{
    if out.len() < 64 {
        return Err(Refusal::ShortBuffer);
    }
    clear(out, 64);
    let Some(form) = form_of(hint) else {
        return Err(Refusal::BadHint);
    };
    if !in_range(value) {
        return Err(Refusal::OutOfRange);
    }
    Ok(print_signed(Some(form), value, &mut out[..64]))
}
