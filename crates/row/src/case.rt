// The words of a case: a row's state, whether it is complete and its agent willing, and a set value.
ghost use Rattle.std.specs.Prelude.{◌≤◌};

use output::Misfit;
use row_status::Refusal;
use words::NumberError;

// Whether answers and states are said by their numbers or in words.
#[derive(Clone, Copy)]
pub enum Spelling {
    Numbers,
    Words,
}

// The names of RFC 2579 at their numbers. Those up to notReady are states too, and none is not a set value; the RFC has no name for the
// state of a row that does not exist.
static NAMES: [&str; 7] = [
    "none",
    "active",
    "notInService",
    "notReady",
    "createAndGo",
    "createAndWait",
    "destroy",
];

// The columns that a set value's name makes, between tabs, so that each is one write; a hyphen for what is no set value with a name.
static COLUMNS: [&[u8]; 7] = [
    b"\t-\t",
    b"\tactive\t",
    b"\tnotInService\t",
    b"\tnotReady\t",
    b"\tcreateAndGo\t",
    b"\tcreateAndWait\t",
    b"\tdestroy\t",
];

pub const LAST_VALUE: usize = 6;

// The last that is a state.
const NOT_READY: u64 = 3;

// What stands for a state of more digits than a number here can have. A number, since `row_status::set` answers it as any over 3.
const LONG_STATE: u64 = u64::MAX;

// What stands for such a set value, likewise: one without a name.
const LONG_VALUE: i64 = 0;

#[derive(Clone, Copy)]
pub struct State<'a> {
    // As it was given.
    pub word: &'a [u8],
    pub number: u64,
}

#[derive(Clone, Copy)]
pub struct SetValue<'a> {
    // As it was given, or its digit where it was given by its name.
    pub word: &'a [u8],
    number: i64,
}

#[derive(Clone, Copy)]
pub struct Case<'a> {
    pub state: State<'a>,
    complete: bool,
    willing: bool,
    pub value: Option<SetValue<'a>>,
}

impl State<'_> {
    pub fn exists(&self) -> bool {
        row_status::State::try_from(self.number).is_ok()
    }
}

impl SetValue<'_> {
    // The set value of this number, which has a name.
    pub fn of(number: usize) -> SetValue<'static>
        requires { number ≤ 6 }
    {
        SetValue {
            word: digit(number),
            number: number as i64,
        }
    }

    // The name that RFC 2579 gives it, or a hyphen, between tabs.
    pub fn column(&self) -> &'static [u8] {
        if (1..=6).contains(&self.number) {
            COLUMNS[self.number as usize]
        } else {
            COLUMNS[0]
        }
    }
}

impl Case<'_> {
    // What a set value does to the row.
    pub fn set(&self, value: SetValue) -> Result<row_status::State, Refusal> {
        row_status::set(self.state.number, value.number, self.complete, self.willing)
    }
}

// The digit of a number that has a name.
fn digit(number: usize) -> &'static [u8]
    requires { number ≤ 6 }
{
    let digits: &'static [u8] = b"0123456";
    &digits[number..number + 1]
}

// The name of a state.
pub fn name(state: u64) -> &'static [u8] {
    if state <= NOT_READY {
        NAMES[state as usize].as_bytes()
    } else {
        b"-"
    }
}

pub fn answer_name(answer: Result<row_status::State, Refusal>) -> &'static [u8] {
    match answer {
        Ok(_) => b"noError",
        Err(Refusal::WrongValue) => b"wrongValue",
        Err(Refusal::InconsistentValue) => b"inconsistentValue",
        Err(Refusal::NoSuchState) => b"no such state",
    }
}

// Whether a word is the name of a number, by itself or with the number in brackets.
fn is_name(word: &[u8], number: usize) -> bool
    requires { number ≤ 6 }
{
    match word.strip_prefix(NAMES[number].as_bytes()) {
        Some([]) => true,
        Some([b'(', given, b')']) => *given == b'0' + number as u8,
        _ => false,
    }
}

// The words of a case, or the first that does not fit.
pub fn read_case(case: &[u8], separator: u8) -> Result<Case, Misfit> {
    let count = words::count_words(case, separator);
    if count < 3 {
        return Err(Misfit {
            word: words::part(case, separator, count - 1),
            why: b"is the last word, and a case has three or four",
        });
    }
    if 4 < count {
        return Err(Misfit {
            word: words::part(case, separator, 4),
            why: b"is a word too many",
        });
    }
    let complete = read_flag(words::part(case, separator, 1))?;
    let willing = read_flag(words::part(case, separator, 2))?;
    let state = read_state(words::part(case, separator, 0))?;
    let value = if count == 3 {
        None
    } else {
        Some(read_value(words::part(case, separator, 3))?)
    };
    Ok(Case {
        state,
        complete,
        willing,
        value,
    })
}

fn read_flag(word: &[u8]) -> Result<bool, Misfit> {
    words::read_flag(word).ok_or(Misfit {
        word,
        why: b"is neither yes nor no",
    })
}

fn read_state(word: &[u8]) -> Result<State, Misfit> {
    if let Some(number) = (0..=3).find(|number| is_name(word, *number)) {
        return Ok(State {
            word,
            number: number as u64,
        });
    }
    match words::read_natural(word) {
        Ok(number) => Ok(State { word, number }),
        Err(NumberError::NoNumber) => Err(Misfit {
            word,
            why: b"is no state",
        }),
        Err(_) => Ok(State {
            word,
            number: LONG_STATE,
        }),
    }
}

fn read_value(word: &[u8]) -> Result<SetValue, Misfit> {
    for number in 1..=LAST_VALUE {
        if is_name(word, number) {
            return Ok(SetValue::of(number));
        }
    }
    match words::read_number(word) {
        Ok(number) => Ok(SetValue { word, number }),
        Err(NumberError::NoNumber) => Err(Misfit {
            word,
            why: b"is no set value",
        }),
        Err(_) => Ok(SetValue {
            word,
            number: LONG_VALUE,
        }),
    }
}
