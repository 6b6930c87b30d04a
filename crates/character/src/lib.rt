// Characters of UTF-8 and of ASCII among octets. Where none starts its size is 0, as `cut` of specs/Cut.antt takes it.
#![tactic(auto)]

ghost use Rattle.std.specs.Prelude.{ℕ, ◌+◌, ◌^◌, ◌<◌, ◌≡◌, length};
ghost use Rattle.character.specs.Cut.{cut, stuck_at};
ghost use Rattle.character.specs.Character.{between, tail, tails, lead_size, second_low, second_high, sequence_size, character_size, characters};

use buffer::byte_at;

// How many octets a sequence with this first octet has; 0: none starts with it.
#[tactic(auto, unfolding(crate::specs::Character::lead_size, crate::specs::Character::between))]
fn lead_size(b: u8) -> usize
    ensures { result ≡ lead_size b }
{
    match b {
        0..=0x7F => 1,
        0xC2..=0xDF => 2,
        0xE0..=0xEF => 3,
        0xF0..=0xF4 => 4,
        _ => 0,
    }
}

// The least second octet after a first one.
#[tactic(auto, unfolding(crate::specs::Character::second_low))]
fn second_low(lead: u8) -> u8
    ensures { result ≡ second_low lead }
{
    match lead {
        0xE0 => 0xA0,
        0xF0 => 0x90,
        _ => 0x80,
    }
}

// The greatest second octet after a first one.
#[tactic(auto, unfolding(crate::specs::Character::second_high))]
fn second_high(lead: u8) -> u8
    ensures { result ≡ second_high lead }
{
    match lead {
        0xED => 0x9F,
        0xF4 => 0x8F,
        _ => 0xBF,
    }
}

// Whether an octet may be the third or fourth of a sequence.
#[tactic(auto, unfolding(crate::specs::Character::tail, crate::specs::Character::between))]
fn is_tail(b: u8) -> bool
    ensures { result ≡ tail b }
{
    (0x80..=0xBF).contains(&b)
}

// Whether an octet may be the second of a sequence that starts with the lead.
#[tactic(auto, unfolding(crate::specs::Character::between))]
fn is_second(lead: u8, b: u8) -> bool
    ensures { result ≡ between (second_low lead) (second_high lead) b }
{
    (second_low(lead)..=second_high(lead)).contains(&b)
}

// Whether the octets after the one at i are as that one asks.
#[tactic(auto, using(std::proofs::lemmas::Bool::Decides::nat_tests), unfolding(crate::specs::Character::tails))]
fn has_tails(s: &[u8], i: usize) -> bool
    requires { i < length s.now }
    ensures { result ≡ tails s.now i }
{
    let lead = byte_at(s, i);
    let size = lead_size(lead);
    (size <= 1 || is_second(lead, byte_at(s, i + 1)))
        && (size <= 2 || is_tail(byte_at(s, i + 2)))
        && (size <= 3 || is_tail(byte_at(s, i + 3)))
}

// How many octets the well-formed sequence at i has, 0 where there is none.
#[tactic(auto, unfolding(crate::specs::Character::sequence_size))]
pub fn sequence_size(s: &[u8], i: usize) -> usize
    requires { i < length s.now }
    ensures { result ≡ sequence_size s.now i }
{
    if has_tails(s, i) {
        lead_size(byte_at(s, i))
    } else {
        0
    }
}

// How many octets the character at i has under a format, 0 where there is none.
#[tactic(auto, using(std::proofs::lemmas::Bool::Decides::nat_tests), unfolding(crate::specs::Character::character_size))]
fn character_size(format: u8, s: &[u8], i: usize) -> usize
    requires { i < length s.now }
    ensures { result ≡ character_size format s.now i }
{
    if format != b'a' {
        sequence_size(s, i)
    } else if byte_at(s, i) < 0x80 {
        1
    } else {
        0
    }
}

// The first place up to the end at which no item starts, if there is one. Items stand one behind the other, and `size` says how
// many bytes the item at a place has, 0 where none starts. An index, not an iterator: the step is an item's size.
pub fn first_stuck<F: Fn(usize) -> usize>(end: usize, size: F) -> Option<usize>
    ghost sizes: { ℕ → ℕ }
    requires callable { (i : ℕ) → i < end → F.pre size i }
    requires sized { (i n : ℕ) → i < end → F.post size i n → n ≡ sizes i }
    requires fits { (i : ℕ) → i < end → i + sizes i < 2 ^ 64 }
    ensures { result ≡ stuck_at (cut sizes end) }
{
    let mut i = 0;
    while i < end {
        let step = size(i);
        if step == 0 {
            return Some(i);
        }
        i += step;
    }
    None
}

// Where the first character that isn't of the format starts, if there is one.
pub fn first_fault(format: u8, s: &[u8]) -> Option<usize>
    ensures { result ≡ stuck_at (characters format s.now) }
{
    first_stuck(s.len(), |i| character_size(format, s, i))
}
