// Decimal numbers with an optional minus.
ghost use Rattle.std.specs.Prelude.{◌≡◌, true, ◌&&◌, ltb, ◌+◌, ◌-◌, ◌*◌, ◌≤◌, min, length};
ghost use Rattle.words.specs.Decimal.{Small, above, all_digits, below, decimal_after, limit, natural_of, number_of};

// Why a word is no number of at most 18 digits.
#[derive(Clone, Copy, PartialEq, Eq)]
pub enum NumberError {
    // It has more digits.
    TooLarge,
    // It has more digits, and a minus.
    TooSmall,
    // It is none.
    NoNumber,
}

// The least number of 19 digits.
const LIMIT: u64 = 1_000_000_000_000_000_000;

// The number that a word is: decimal digits, at least one, with a minus before them or not.
pub fn read_number(word: &[u8]) -> Result<i64, NumberError>
    ensures { result ≡ number_of word.now }
{
    match word.strip_prefix(b"-") {
        Some(digits) => below_zero(read_natural(digits)),
        None => from_zero_on(read_natural(word)),
    }
}

// The number with a minus.
fn below_zero(natural: Result<u64, NumberError>) -> Result<i64, NumberError>
    requires { Small natural }
    ensures { result ≡ below natural }
{
    match natural {
        Ok(n) => Ok(-(n as i64)),
        Err(NumberError::TooLarge) => Err(NumberError::TooSmall),
        Err(error) => Err(error),
    }
}

// The number without a minus.
fn from_zero_on(natural: Result<u64, NumberError>) -> Result<i64, NumberError>
    requires { Small natural }
    ensures { result ≡ above natural }
{
    Ok(natural? as i64)
}

// The number without a sign that a word is: at least one byte, and each a digit.
pub fn read_natural(word: &[u8]) -> Result<u64, NumberError>
    ensures { result ≡ natural_of word.now }
{
    if !are_digits(word) {
        return Err(NumberError::NoNumber);
    }
    let n = value(word);
    if n < LIMIT {
        Ok(n)
    } else {
        Err(NumberError::TooLarge)
    }
}

// At least one byte, and each a digit.
fn are_digits(word: &[u8]) -> bool
    ensures { result ≡ (ltb 0 (length word.now) && all_digits word.now) }
{
    !word.is_empty() && word.iter().all(|b| b.is_ascii_digit())
}

// The value of digits, or the limit where it is larger.
fn value(digits: &[u8]) -> u64
    requires { all_digits digits.now ≡ true }
    ensures { result ≡ min (decimal_after 0 digits.now) limit }
{
    let mut n: u64 = 0;
    for digit in digits {
        n = more(n, *digit);
    }
    n
}

// The value of digits behind which one more digit stands, or the limit where it is larger.
fn more(n: u64, byte: u8) -> u64
    requires limited { n ≤ limit }
    requires digit { 48 ≤ byte }
    ensures { result ≡ min (n * 10 + (byte - 48)) limit }
{
    let next = n * 10 + (byte - b'0') as u64;
    next.min(LIMIT)
}
