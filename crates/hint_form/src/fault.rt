// What is wrong with a hint, and at which byte, for people.
ghost use Rattle.std.specs.Prelude.{◌≡◌};
ghost use Rattle.hint_form.specs.Fault.{format_fault, length_fault, longer, octets_fault, pieces_fault, is_sound, integer_fault};
ghost use Rattle.hint_form.specs.Hint.{is_pieces, read_hint};

use crate::{LONGEST, first_stuck, is_digit, length_place, longest_of, number_at};
use buffer::byte_at;

// What is wrong, with its place, counted from 0.
#[derive(Clone, Copy)]
pub enum Fault {
    // The hint ends here, and more is missing.
    Early(usize),
    // Here a length should start, and no digit stands.
    NoLength(usize),
    // A length starts with a zero.
    Zero(usize),
    // With this digit a length is over 255.
    Large(usize),
    // Behind a length stands no format.
    NoFormat(usize),
    // This format allows a length of 8 at most.
    Wide(usize),
    // Nothing is wrong but that there is a byte 255.
    Long,
    // No hint for integers goes on so.
    NoForm(usize),
}

// What is wrong behind a length, with which no piece starts.
#[tactic(auto, using(std::proofs::lemmas::Bool::Decides::nat_tests), unfolding(crate::specs::Fault::format_fault))]
fn format_fault(hint: &[u8], place: usize) -> Fault
    ensures { result ≡ format_fault hint.now place }
{
    if hint.len() <= place {
        Fault::Early(hint.len())
    } else if longest_of(byte_at(hint, place)) == 0 {
        Fault::NoFormat(place)
    } else {
        Fault::Wide(place)
    }
}

// What is wrong from the place on at which the length of a piece should start that is none.
#[tactic(auto, using(std::proofs::lemmas::Bool::Decides::nat_tests), unfolding(crate::specs::Fault::length_fault))]
fn length_fault(hint: &[u8], start: usize) -> Fault
    ensures { result ≡ length_fault hint.now start }
{
    if hint.len() <= start {
        return Fault::Early(hint.len());
    }
    let first = byte_at(hint, start);
    if first == b'0' {
        return Fault::Zero(start);
    }
    if !is_digit(first) {
        return Fault::NoLength(start);
    }
    let number = number_at(hint, start);
    if LONGEST < number.value {
        return Fault::Large(start + 2);
    }
    format_fault(hint, number.next)
}

// What is wrong with bytes that should be pieces, if anything is.
fn pieces_fault(hint: &[u8]) -> Option<Fault>
    ensures { result ≡ pieces_fault hint.now }
{
    let i = first_stuck(hint)?;
    Some(length_fault(hint, length_place(hint, i)))
}

// What is wrong with a hint that goes on behind bytes with this fault, and is too long.
fn longer(fault: Option<Fault>) -> Fault
    ensures { result ≡ longer fault }
{
    match fault {
        None | Some(Fault::Early(_)) => Fault::Long,
        Some(other) => other,
    }
}

// What is wrong with a hint for octets: nothing, where it is one.
pub fn octets_fault(hint: &[u8]) -> Option<Fault>
    ensures fault { result ≡ octets_fault hint.now }
    ensures told { is_sound result ≡ is_pieces (read_hint hint.now) }
{
    if hint.is_empty() {
        return Some(Fault::Early(0));
    }
    if hint.len() <= LONGEST {
        return pieces_fault(hint);
    }
    Some(longer(pieces_fault(&hint[..LONGEST])))
}

// What is wrong with a hint for integers: x, o, b, d, or d-1 to d-10.
#[tactic(auto, using(std::proofs::lemmas::Bool::Decides::nat_tests), unfolding(crate::specs::Fault::integer_fault, crate::specs::Fault::integer_letter, crate::specs::Fault::point_fault, crate::specs::Fault::places_fault, crate::specs::Hint::digit))]
pub fn integer_fault(hint: &[u8]) -> Option<Fault>
    ensures { result ≡ integer_fault hint.now }
{
    match hint {
        [] => Some(Fault::Early(0)),
        [b'x' | b'o' | b'b' | b'd'] => None,
        [b'd', b'-'] => Some(Fault::Early(2)),
        [b'd', b'-', b'1'..=b'9'] | [b'd', b'-', b'1', b'0'] => None,
        [b'd', b'-', b'1', b'0', ..] => Some(Fault::NoForm(4)),
        [b'd', b'-', b'1'..=b'9', ..] => Some(Fault::NoForm(3)),
        [b'd', b'-', ..] => Some(Fault::NoForm(2)),
        [b'x' | b'o' | b'b' | b'd', ..] => Some(Fault::NoForm(1)),
        _ => Some(Fault::NoForm(0)),
    }
}
