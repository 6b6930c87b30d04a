// The numbers of a definition's own parts: how many there are, and the numbers themselves.
ghost use Rattle.std.specs.Prelude.{◌≡◌, ◌≤◌, length, get_or};
ghost use Rattle.oid_number.specs.Number.{is_number, number_tokens, parts_in};
ghost use Rattle.overlay.specs.Writing.{Written};

use definition::Span;

// Whether token i is a number; past the last there is none.
fn is_number(classes: &[u8], i: usize) -> bool
    ensures { result ≡ is_number classes.now i }
{
    if i < classes.len() {
        return classes[i] == terminal::NUMBER;
    }
    false
}

// How many numbers stand in a span.
pub fn count_parts(classes: &[u8], span: Span) -> usize
    ensures { result ≡ length (number_tokens classes.now span) }
{
    let to = span.to;
    let mut count = 0;
    let mut i = span.from;
    while i < to {
        if is_number(classes, i) {
            count += 1;
            i += 1;
        } else {
            i += 1;
        }
    }
    count
}

// The value of token i; past the last 0.
fn value_at(values: &[u32], i: usize) -> u32
    ensures { result ≡ get_or values.now i 0 }
{
    if i < values.len() {
        return values[i];
    }
    0
}

// Writes the numbers that stand in an OID's span to the start of what is left of the number buffer, and answers how many there are.
pub fn write_parts(classes: &[u8], values: &[u32], numbers: &mut [u32], span: Span) -> usize
    requires { length (parts_in classes.now values.now span) ≤ length numbers.old }
    ensures { Written (parts_in classes.now values.now span) result numbers.old numbers.new }
{
    let to = span.to;
    let mut i = span.from;
    let mut count = 0;
    while i < to {
        if is_number(classes, i) {
            numbers[count] = value_at(values, i);
            count += 1;
            i += 1;
        } else {
            i += 1;
        }
    }
    count
}
