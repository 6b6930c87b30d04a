// What is wrong with a hint, in words on standard error. The words are the program's; the place is that of the fault's definition.
use hint_form::Fault;
use output::Output;

// Says in one line what is wrong with a hint, and at which byte.
pub fn explain(hint: &[u8], fault: Fault, out: &Output) {
    match fault {
        Fault::Early(0) => say_fault(0, b"it is empty\n", out),
        Fault::Early(place) => say_fault(place, b"it ends too early\n", out),
        Fault::NoLength(place) => say_byte(hint, place, b"stands where a length must stand\n", out),
        Fault::Zero(place) => say_fault(
            place,
            b"a length is not 0, and has no leading zero\n",
            out,
        ),
        Fault::Large(place) => say_fault(place, b"a length is at most 255\n", out),
        Fault::NoFormat(place) => say_byte(hint, place, b"is no format (x d o a t)\n", out),
        Fault::Wide(place) => say_byte(hint, place, b"takes a length of at most 8\n", out),
        Fault::Long => say_fault(255, b"a hint has at most 255 bytes\n", out),
        Fault::NoForm(place) => {
            say_byte(
                hint,
                place,
                b"fits no hint for integers (x o b d d-1 to d-10)\n",
                out,
            )
        }
    }
}

fn say_fault(place: usize, why: &[u8], out: &Output) {
    say_place(place, out);
    out.say(why);
}

fn say_place(place: usize, out: &Output) {
    out.say(b"mib hint: the hint is bad at byte ");
    out.say_number(place as u64);
    out.say(b": ");
}

// The same of the byte there.
fn say_byte(hint: &[u8], place: usize, why: &[u8], out: &Output) {
    say_place(place, out);
    if let Some(b) = hint.get(place) {
        say_value(*b, out);
    }
    out.say(why);
}

// A byte in quotes, or its value where it is no character of ASCII that is seen.
fn say_value(b: u8, out: &Output) {
    if (32..=126).contains(&b) {
        out.say(&[b'\'', b, b'\'', b' ']);
    } else {
        out.say(b"the value ");
        out.say_number(b as u64);
        out.say(b" ");
    }
}
