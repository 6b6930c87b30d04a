// The numbers of built-in names: how many they are, and the numbers themselves, written to the start of what is left of the buffer.
ghost use Rattle.std.specs.Prelude.{◌≡◌, ◌≤◌, length};
ghost use Rattle.symbol.specs.Symbol.{iso_oid, numbers_of};
ghost use Rattle.overlay.specs.Writing.{Written};

use symbol::SYMBOLS;

// The one number of `iso`.
const ISO: u32 = 1;

// How many numbers built-in symbol k has; past the last symbol there are none.
pub fn symbol_length(k: usize) -> usize
    ensures { result ≡ length (numbers_of k) }
{
    if k < SYMBOLS {
        return symbol::oid_length(k);
    }
    0
}

// Writes the OID of `iso`, and answers how many numbers it has.
pub fn write_iso(numbers: &mut [u32]) -> usize
    requires { length iso_oid ≤ length numbers.old }
    ensures { Written iso_oid result numbers.old numbers.new }
{
    numbers[0] = ISO;
    1
}

// Writes the OID of built-in symbol k, and answers how many numbers it has: none where there is no such symbol.
pub fn write_symbol(numbers: &mut [u32], k: usize) -> usize
    requires { length (numbers_of k) ≤ length numbers.old }
    ensures { Written (numbers_of k) result numbers.old numbers.new }
{
    if SYMBOLS <= k {
        return 0;
    }
    let count = symbol::oid_length(k);
    let mut j = 0;
    while j < count {
        numbers[j] = symbol::oid_number(k, j);
        j += 1;
    }
    count
}
