// Octets as tools print them: hex digits, with or without something between two octets.
ghost use Rattle.std.specs.Prelude.{◌≡◌, ◌≤◌, ◌<◌, length};
ghost use Rattle.words.specs.Octets.{alone, count, digit_step, first_step, mark, mark_step, octets_from, said, step, to_say};

use crate::heading::{front, is_blank};
use crate::hex::hex_digit;

// What stands directly before a byte.
#[derive(Clone, Copy, PartialEq, Eq)]
pub enum Before {
    // The start, or a blank.
    Nothing,
    // A colon or a hyphen.
    Mark,
    // The end of an octet.
    Octet,
    // The first digit of an octet that was put with both.
    Digit,
}

// What a byte does, and what then stands before the next one.
#[derive(Clone, Copy)]
pub enum Step {
    // Nothing is put for it.
    Pass(Before),
    // An octet is put.
    Put(u8, Before),
}

#[tactic(auto, unfolding(crate::specs::Octets::mark))]
fn is_mark(b: u8) -> bool
    ensures { result ≡ mark b }
{
    b == b':' || b == b'-'
}

// Whether a digit that no other follows is an octet by itself.
fn is_alone(before: Before, next: u8) -> bool
    ensures { result ≡ alone before next }
{
    match before {
        Before::Nothing => is_mark(next),
        Before::Mark => true,
        Before::Octet | Before::Digit => false,
    }
}

// What a digit of this value does: with the next digit it is an octet, or by itself. Else it is one too many, and the word no octets.
#[tactic(auto, unfolding(crate::specs::Octets::digit_step, crate::specs::Hex::value_of))]
fn digit_step(before: Before, value: u8, next: u8) -> Option<Step>
    requires { value < 16 }
    ensures { result ≡ digit_step before value next }
{
    match hex_digit(next) {
        Some(low) => Some(Step::Put(value * 16 + low, Before::Digit)),
        None if is_alone(before, next) => Some(Step::Put(value, Before::Octet)),
        None => None,
    }
}

// What a mark does: it is passed directly behind an octet.
fn mark_step(before: Before) -> Option<Step>
    ensures { result ≡ mark_step before }
{
    match before {
        Before::Octet => Some(Step::Pass(Before::Mark)),
        _ => None,
    }
}

// What a byte does that is no second digit.
#[tactic(auto, unfolding(crate::specs::Octets::first_step, crate::specs::Hex::value_of))]
fn first_step(before: Before, b: u8, next: u8) -> Option<Step>
    ensures { result ≡ first_step before b next }
{
    if is_blank(b) {
        Some(Step::Pass(Before::Nothing))
    } else if is_mark(b) {
        mark_step(before)
    } else {
        digit_step(before, hex_digit(b)?, next)
    }
}

// What a byte does. The second digit of an octet was put with its first.
#[tactic(auto, unfolding(crate::specs::Octets::step))]
fn byte_step(before: Before, b: u8, next: u8) -> Option<Step>
    ensures { result ≡ step before b next }
{
    if before == Before::Digit {
        Some(Step::Pass(Before::Octet))
    } else {
        first_step(before, b, next)
    }
}

// Puts the octets that a word writes at the start of the buffer, and answers how many; or the word writes none of this form. A word of
// more bytes than the buffer has is none.
pub fn read_octets(word: &[u8], out: &mut [u8]) -> Option<usize>
    ensures fits { count result ≤ length out.new }
    ensures octets { said result out.new ≡ to_say word.now out.old }
{
    if out.len() < word.len() {
        return None;
    }
    put_octets(&word[front(word)..], out)
}

// The same of a word without what stands in front of its octets, and of a buffer with room for them.
fn put_octets(word: &[u8], out: &mut [u8]) -> Option<usize>
    requires { length word.now ≤ length out.old }
    ensures fits { count result ≤ length out.new }
    ensures octets { said result out.new ≡ octets_from Before.Nothing word.now }
{
    let mut before = Before::Nothing;
    let mut n = 0;
    for (i, b) in word.iter().enumerate() {
        let next = word.get(i + 1).copied().unwrap_or(0);
        match byte_step(before, *b, next)? {
            Step::Pass(then) => before = then,
            Step::Put(octet, then) => {
                out[n] = octet;
                n += 1;
                before = then;
            }
        }
    }
    Some(n)
}
