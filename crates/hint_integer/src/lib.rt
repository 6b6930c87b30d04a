// Reads hints for integers, and prints integers by them: a minus below zero, and then the magnitude.
#![tactic(auto)]

ghost use Rattle.std.specs.Prelude.{◌+◌, ◌≤◌, ◌≡◌, true, nat_abs, length};
ghost use Rattle.buffer.specs.Buffer.{Wrote};
ghost use Rattle.hint_integer.specs.Form.{Usable, read_form, read_point};
ghost use Rattle.hint_integer.specs.Signed.{in_range, magnitude, signed};

use buffer::{byte_at, put};
use digit::{print_digits, print_pointed};
use hint_form::{base_of, is_allowed, number_at};

// A hint for integers: a base, or a decimal point before so many digits.
#[derive(Clone, Copy)]
pub enum Form {
    Base(u64),
    Point(u64),
}

// The point of a hint d-N, if it is one.
#[tactic(auto, using(std::proofs::lemmas::Bool::Decides::nat_tests), unfolding(crate::specs::Form::read_point, hint_form::specs::Hint::bounded))]
fn point_of(hint: &[u8]) -> Option<Form>
    ensures { result ≡ read_point hint.now }
{
    let [b'd', b'-', ..] = hint else {
        return None;
    };
    let number = number_at(hint, 2);
    if is_allowed(byte_at(hint, 2), number.value, 10) && number.next == hint.len() {
        Some(Form::Point(number.value as u64))
    } else {
        None
    }
}

// The form that a hint for integers asks, if it is one.
#[tactic(auto, using(std::proofs::lemmas::Bool::Decides::nat_tests), unfolding(crate::specs::Form::read_form, crate::specs::Form::integer_format, hint_form::specs::Hint::base_of))]
pub fn form_of(hint: &[u8]) -> Option<Form>
    ensures { result ≡ read_form hint.now }
{
    match hint {
        [letter @ (b'x' | b'o' | b'b' | b'd')] => Some(Form::Base(base_of(*letter))),
        _ => point_of(hint),
    }
}

// Whether an integer is from -2147483648 to 4294967295.
#[tactic(auto, using(std::proofs::lemmas::Bool::Decides::nat_tests), unfolding(crate::specs::Signed::in_range))]
pub fn in_range(value: i64) -> bool
    ensures { result ≡ in_range value }
{
    (-2147483648..=4294967295).contains(&value)
}

// The magnitude of an integer in the range: below zero it is negated first, within its bounds. `unsigned_abs` would not be that
// form, which docs/DECISIONS.md keeps.
fn magnitude_of(value: i64) -> u64
    requires { in_range value ≡ true }
    ensures { result ≡ nat_abs value }
{
    if value < 0 {
        (-value) as u64
    } else {
        value as u64
    }
}

// Writes the digits of a number in a form, and answers the place after them; by no form it writes none.
#[tactic(auto, using(buffer::proofs::Writing::wrote_none), unfolding(crate::specs::Signed::magnitude))]
fn print_magnitude(form: Option<Form>, n: u64, out: &mut [u8], at: usize) -> usize
    requires usable { Usable form }
    requires room { at + length (magnitude form n) ≤ length out.old }
    ensures { Wrote (magnitude form n) at result out.old out.new }
{
    match form {
        Some(Form::Base(base)) => print_digits(n, base, out, at),
        Some(Form::Point(places)) => print_pointed(n, places, out, at),
        None => at,
    }
}

// Writes an integer in a form from the start of the output, and answers the text's length. By no form it writes a minus alone below
// zero, and else nothing.
pub fn print_signed(form: Option<Form>, value: i64, out: &mut [u8]) -> usize
    requires usable { Usable form }
    requires range { in_range value ≡ true }
    requires room { 64 ≤ length out.old }
    ensures { Wrote (signed form value) 0 result out.old out.new }
{
    let n = magnitude_of(value);
    if value < 0 {
        let at = put(out, 0, b'-');
        return print_magnitude(form, n, out, at);
    }
    print_magnitude(form, n, out, 0)
}
