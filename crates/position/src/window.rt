// The part of a line that is shown around a place.
ghost use Rattle.std.specs.Prelude.{◌≡◌, ◌+◌, ◌-◌, ◌≤◌, ◌<◌, length};
ghost use Rattle.position.specs.Window.{reach, first_start, shown_from, shown_to};

use crate::line::{line_end, locate};
use crate::margin::is_inside;

// How many bytes are shown on either side of the place at most.
pub const REACH: usize = 100;

// A part of a text, up to `to`.
#[derive(Clone, Copy)]
pub struct Part {
    pub from: usize,
    pub to: usize,
}

// The first place from k on that is not inside a character.
fn first_start(text: &[u8], k: usize) -> usize
    requires { k + 3 ≤ length text.now }
    ensures is { result ≡ first_start text.now k }
    ensures low { k ≤ result }
    ensures high { result ≤ k + 3 }
{
    for i in k..k + 3 {
        if !is_inside(text, i) {
            return i;
        }
    }
    k + 3
}

// Where the part starts that is shown of the line that a place stands in.
#[tactic(auto, unfolding(crate::specs::Window::shown_from))]
fn shown_from(text: &[u8], place: usize) -> usize
    requires { place ≤ length text.now }
    ensures is { result ≡ shown_from text.now place }
    ensures low { place ≤ result + reach }
    ensures high { result ≤ place }
{
    let start = locate(text, place).start;
    if place - start <= REACH {
        return start;
    }
    first_start(text, place - REACH)
}

// Where it ends. The first place from three bytes before the limit on is not past it.
#[tactic(auto, unfolding(crate::specs::Window::shown_to))]
fn shown_to(text: &[u8], place: usize) -> usize
    requires { place ≤ length text.now }
    ensures is { result ≡ shown_to text.now place }
    ensures low { place ≤ result }
    ensures high { result ≤ length text.now }
{
    let end = line_end(text, place);
    if end - place <= REACH {
        return end;
    }
    first_start(text, place + REACH - 3)
}

// The part that is shown of the line that a place stands in.
pub fn shown_part(text: &[u8], place: usize) -> Part
    requires { place ≤ length text.now }
    ensures start { result.from ≡ shown_from text.now place }
    ensures end { result.to ≡ shown_to text.now place }
    ensures near { place ≤ result.from + reach }
    ensures before { result.from ≤ place }
    ensures behind { place ≤ result.to }
    ensures inside { result.to ≤ length text.now }
{
    let from = shown_from(text, place);
    let to = shown_to(text, place);
    Part { from, to }
}
