// Digits of a number, most significant first.
#![tactic(auto)]

ghost use Rattle.std.specs.Prelude.{◌+◌, ◌≤◌, ◌<◌, ◌≡◌, length};
ghost use Rattle.buffer.specs.Buffer.{Wrote};
ghost use Rattle.digit.specs.Digits.{glyph, digits, pointed, big_endian};

use buffer::put;

// The byte of one digit: `0` to `9`, and from ten on `a` to `f`.
#[tactic(auto, unfolding(crate::specs::Digits::glyph))]
pub fn glyph_of(d: u64) -> u8
    requires { d < 16 }
    ensures { result ≡ glyph d }
{
    if d < 10 {
        b'0' + d as u8
    } else {
        b'a' + (d - 10) as u8
    }
}

// Writes the digits of n: those of the quotient by the base, then the remainder's. Answers the place after them.
pub fn print_digits(n: u64, base: u64, out: &mut [u8], at: usize) -> usize
    requires least { 2 ≤ base }
    requires most { base ≤ 16 }
    requires room { at + length (digits base n) ≤ length out.old }
    ensures { Wrote (digits base n) at result out.old out.new }
{
    if n < base {
        return put(out, at, glyph_of(n));
    }
    let next = print_digits(n / base, base, out, at);
    put(out, next, glyph_of(n % base))
}

// Writes the decimal digits of n with a point before the last ones. Answers the place after them.
pub fn print_pointed(n: u64, places: u64, out: &mut [u8], at: usize) -> usize
    requires { at + length (pointed places n) ≤ length out.old }
    ensures { Wrote (pointed places n) at result out.old out.new }
{
    if places == 0 {
        let next = print_digits(n, 10, out, at);
        return put(out, next, b'.');
    }
    let next = print_pointed(n / 10, places - 1, out, at);
    put(out, next, glyph_of(n % 10))
}

// Octets as a big-endian number.
pub fn big_endian(s: &[u8]) -> u64
    requires { length s.now ≤ 8 }
    ensures { result ≡ big_endian 0 s.now }
{
    let mut n: u64 = 0;
    for octet in s {
        n = n * 256 + *octet as u64;
    }
    n
}
