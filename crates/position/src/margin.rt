// What stands below a line, so that a mark behind it stands below a place.
ghost use Rattle.std.specs.Prelude.{◌≡◌, ◌+◌, ◌≤◌, ◌<◌, length, take};
ghost use Rattle.position.specs.Margin.{reaches, is_inside, below, margin};

use character::sequence_size;

// Whether a character that starts so many bytes before byte k reaches over it.
#[tactic(auto, unfolding(crate::specs::Margin::reaches))]
fn reaches(text: &[u8], k: usize, back: usize) -> bool
    requires index { k < length text.now }
    ensures { result ≡ reaches text.now k back }
{
    back <= k && back < sequence_size(text, k - back)
}

// Whether byte k is one of a character's further bytes.
#[tactic(auto, unfolding(crate::specs::Margin::is_inside))]
pub fn is_inside(text: &[u8], k: usize) -> bool
    requires index { k < length text.now }
    ensures { result ≡ is_inside text.now k }
{
    reaches(text, k, 1) || (reaches(text, k, 2) || reaches(text, k, 3))
}

// What stands below a character that starts with this byte.
#[tactic(auto, unfolding(crate::specs::Margin::below))]
fn below(b: u8) -> u8
    ensures { result ≡ below b }
{
    match b {
        9..=13 => b,
        _ => b' ',
    }
}

// Lays what stands below the `count` bytes from `start` on into the buffer, and answers how many bytes that takes.
#[tactic(auto, using(crate::proofs::MarginLaws::margin_steps))]
pub fn write_margin(text: &[u8], start: usize, count: usize, out: &mut [u8]) -> usize
    requires inside { start + count ≤ length text.now }
    requires room { count ≤ length out.old }
    ensures size { result ≤ length out.new }
    ensures bytes { take result out.new ≡ margin text.now start count }
{
    let mut n = 0;
    for i in 0..count {
        let k = start + i;
        if !is_inside(text, k) {
            out[n] = below(text[k]);
            n += 1;
        }
    }
    n
}
