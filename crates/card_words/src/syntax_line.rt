// A syntax in one line.
ghost use Rattle.std.specs.Prelude.{◌≡◌, ◌≤◌, ◌<◌, length};

use piece::{Found, piece_at};

// What stands at a place: a token or a gap, and where it ends.
#[derive(Clone, Copy)]
struct Step {
    gap: bool,
    end: usize,
}

// Lays a syntax with one blank for what stands between two tokens: blanks, ends of lines and comments. Answers how many bytes that takes.
pub fn lay(syntax: &[u8], out: &mut [u8]) -> usize
    ensures { result ≤ length out.new }
{
    let mut n = 0;
    let mut at = 0;
    // An index, not an iterator: a step passes a whole token or gap.
    while at < syntax.len() {
        let step = step_at(syntax, at);
        let end = step.end;
        if step.gap {
            n = lay_gap(out, n);
        } else {
            n = lay_token(&syntax[at..end], out, n);
        }
        at = end;
    }
    n
}

// The token or the gap at a place. The syntax of a module that is accepted has no other bytes; one would be passed as a token.
fn step_at(syntax: &[u8], at: usize) -> Step
    requires { at < length syntax.now }
    ensures later { at < result.end }
    ensures inside { result.end ≤ length syntax.now }
{
    match piece_at(syntax, at) {
        Ok(Found::Gap(end)) => Step {
            gap: true,
            end: end.max(at + 1).min(syntax.len()),
        },
        Ok(Found::Token(_, end)) => Step {
            gap: false,
            end: end.max(at + 1).min(syntax.len()),
        },
        Err(_) => Step {
            gap: false,
            end: at + 1,
        },
    }
}

// A blank, unless one stands there already.
fn lay_gap(out: &mut [u8], n: usize) -> usize
    requires { n ≤ length out.old }
    ensures inside { result ≤ length out.new }
    ensures size { length out.new ≡ length out.old }
{
    if 0 < n && out[n - 1] == b' ' {
        return n;
    }
    lay_token(b" ", out, n)
}

// The bytes of a token, as far as there is room for them.
fn lay_token(token: &[u8], out: &mut [u8], n: usize) -> usize
    requires { n ≤ length out.old }
    ensures inside { result ≤ length out.new }
    ensures size { length out.new ≡ length out.old }
{
    let end = n + token.len().min(out.len() - n);
    out[n..end].copy_from_slice(&token[..end - n]);
    end
}
