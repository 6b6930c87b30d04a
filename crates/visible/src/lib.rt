// Bytes as people may see them: control bytes, which would break a list's lines or move a terminal's cursor, as \xNN. All others stay as
// they are.
#![tactic(auto)]

ghost use Rattle.std.specs.Prelude.{◌≡◌, ◌+◌, ◌*◌, ◌≤◌, ◌<◌, length};
ghost use Rattle.buffer.specs.Buffer.{Wrote};
ghost use Rattle.visible.specs.Visible.{is_control, byte_before, is_late_control, breaks_line, breaks_terminal, is_hidden, escaped, seen, visible};

use buffer::{byte_at, put};
use digit::glyph_of;
use position::is_inside;

// Where bytes go: into a line of a list, to a terminal, to both or to neither.
#[derive(Clone, Copy)]
pub struct Manner {
    pub line: bool,
    pub terminal: bool,
}

// How many bytes stand for one, at most.
pub const WIDEST: usize = 4;

// Whether a byte is a control byte of ASCII.
#[tactic(auto, unfolding(crate::specs::Visible::is_control))]
fn is_control(b: u8) -> bool
    ensures { result ≡ is_control b }
{
    b < 32 || b == 127
}

// The byte before byte k, or 0 where k is the first.
#[tactic(auto, unfolding(crate::specs::Visible::byte_before))]
fn byte_before(bytes: &[u8], k: usize) -> u8
    ensures { result ≡ byte_before bytes.now k }
{
    if k == 0 { 0 } else { byte_at(bytes, k - 1) }
}

// Whether byte k is one of the later control bytes, 128 to 159: alone, or as the character of that number.
#[tactic(auto, unfolding(crate::specs::Visible::is_late_control))]
fn is_late_control(bytes: &[u8], k: usize) -> bool
    requires { k < length bytes.now }
    ensures { result ≡ is_late_control bytes.now k }
{
    match byte_at(bytes, k) {
        128..=159 => !is_inside(bytes, k) || byte_before(bytes, k) == 0xC2,
        _ => false,
    }
}

// Whether byte k would break a line of a list, or be taken for the escape of one that does.
#[tactic(auto, unfolding(crate::specs::Visible::breaks_line))]
fn breaks_line(bytes: &[u8], k: usize) -> bool
    ensures { result ≡ breaks_line bytes.now k }
{
    let b = byte_at(bytes, k);
    is_control(b) || b == b'\\'
}

// Whether byte k would do more at a terminal than be seen.
#[tactic(auto, unfolding(crate::specs::Visible::breaks_terminal))]
fn breaks_terminal(bytes: &[u8], k: usize) -> bool
    requires { k < length bytes.now }
    ensures { result ≡ breaks_terminal bytes.now k }
{
    let b = byte_at(bytes, k);
    (is_control(b) && b != b'\t') || is_late_control(bytes, k)
}

// Whether byte k is written as its number.
#[tactic(auto, unfolding(crate::specs::Visible::is_hidden))]
fn is_hidden(bytes: &[u8], k: usize, manner: Manner) -> bool
    requires { k < length bytes.now }
    ensures { result ≡ is_hidden manner bytes.now k }
{
    (manner.line && breaks_line(bytes, k)) || (manner.terminal && breaks_terminal(bytes, k))
}

// Writes a byte as its number, and answers the place after it.
fn write_escaped(b: u8, out: &mut [u8], at: usize) -> usize
    requires { at + 4 ≤ length out.old }
    ensures { Wrote (escaped b) at result out.old out.new }
{
    let next = put(out, at, b'\\');
    let next = put(out, next, b'x');
    let next = put(out, next, glyph_of((b / 16) as u64));
    put(out, next, glyph_of((b % 16) as u64))
}

// Writes what is seen of byte k, and answers the place after it.
fn write_seen(bytes: &[u8], k: usize, manner: Manner, out: &mut [u8], at: usize) -> usize
    requires byte { k < length bytes.now }
    requires room { at + 4 ≤ length out.old }
    ensures bytes { Wrote (seen manner bytes.now k) at result out.old out.new }
    ensures short { result ≤ at + 4 }
{
    if is_hidden(bytes, k, manner) {
        return write_escaped(byte_at(bytes, k), out, at);
    }
    put(out, at, byte_at(bytes, k))
}

// Writes what is seen of the `count` bytes from `from` on to the start of the output, and answers how many bytes that takes.
pub fn write_visible(
    bytes: &[u8],
    from: usize,
    count: usize,
    manner: Manner,
    out: &mut [u8],
) -> usize
    requires inside { from + count ≤ length bytes.now }
    requires room { 4 * count ≤ length out.old }
    ensures bytes { Wrote (visible manner bytes.now from count) 0 result out.old out.new }
    ensures inside { result ≤ length out.new }
{
    let mut next = 0;
    for i in 0..count {
        next = write_seen(bytes, from + i, manner, out, next);
    }
    next
}
