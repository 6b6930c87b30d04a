// The exported functions of the library for C and for Rust, each with the clauses of the function of `mib` that it calls.
#![tactic(auto)]

ghost use Rattle.mib.specs.Raw.{ReadRaw, OctetsRaw, IntegerRaw, SetRaw};

// Reads a module, and lays number, place and count.
#[unsafe(no_mangle)]
pub extern "C" fn mib_read_raw(
    text: &[u8],
    records: &mut [u32],
    numbers: &mut [u32],
    answer: &mut [usize],
)
    ensures { ReadRaw text.now records.old records.new numbers.old numbers.new
        answer.old answer.new }
{
    mib::mib_read_raw(text, records, numbers, answer);
}

// Prints octets by a hint, and lays number, place and length.
#[unsafe(no_mangle)]
pub extern "C" fn mib_print_octets_raw(
    hint: &[u8],
    octets: &[u8],
    out: &mut [u8],
    answer: &mut [usize],
)
    ensures { OctetsRaw hint.now octets.now out.old out.new
        answer.old answer.new }
{
    mib::mib_print_octets_raw(hint, octets, out, answer);
}

// Prints an integer by a hint, and lays the same.
#[unsafe(no_mangle)]
pub extern "C" fn mib_print_integer_raw(
    hint: &[u8],
    value: i64,
    out: &mut [u8],
    answer: &mut [usize],
)
    ensures { IntegerRaw hint.now value out.old out.new
        answer.old answer.new }
{
    mib::mib_print_integer_raw(hint, value, out, answer);
}

// Answers a set of RowStatus, and lays the number and the row's next state. A flag is yes when it isn't 0.
#[unsafe(no_mangle)]
pub extern "C" fn mib_set_row_raw(
    state: u64,
    value: i64,
    complete: u32,
    willing: u32,
    answer: &mut [usize],
)
    ensures { SetRaw state value complete willing answer.old answer.new }
{
    mib::mib_set_row_raw(state, value, complete, willing, answer);
}
