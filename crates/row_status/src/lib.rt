// What may be done next to a conceptual row, by its RowStatus (RFC 2579).
#![tactic(auto)]

ghost use Rattle.std.specs.Prelude.{◌≡◌, ℕ};
ghost use Rattle.row_status.specs.RowStatus.{Decodes, number_of, next_of, state_number, outcome, Sets};
ghost use Rattle.row_status.specs.RowStatus.{if_complete, set_active, set_not_in_service, createAndGo, createAndWait};

// The states of a row. A set value of the same name has the same number.
#[derive(Clone, Copy, PartialEq, Eq)]
pub enum State {
    // There is no row.
    Absent,
    Active,
    NotInService,
    NotReady,
}

impl State {
    // The state's number, 0 to 3.
    pub fn number(self) -> u64
        ensures { result ≡ state_number self }
    {
        match self {
            State::Absent => 0,
            State::Active => 1,
            State::NotInService => 2,
            State::NotReady => 3,
        }
    }
}

impl TryFrom<u64> for State {
    type Error = Refusal;

    ghost try_from_gives = { Decodes };

    fn try_from(number: u64) -> Result<Self, Refusal> {
        match number {
            0 => Ok(State::Absent),
            1 => Ok(State::Active),
            2 => Ok(State::NotInService),
            3 => Ok(State::NotReady),
            _ => Err(Refusal::NoSuchState),
        }
    }
}

// Why a set of a row's RowStatus fails; the row keeps its state. `outcome` of specs/RowStatus.antt gives each case its number.
#[derive(Clone, Copy, PartialEq, Eq)]
pub enum Refusal {
    // The value is refused.
    WrongValue,
    // The value does not fit the row's state.
    InconsistentValue,
    // The row was handed in with a state that does not exist.
    NoSuchState,
}

// The number of an answer, 0 where the set succeeds.
pub fn number(answer: Result<State, Refusal>) -> u64
    ensures { result ≡ number_of answer }
{
    match answer {
        Ok(_) => 0,
        Err(Refusal::WrongValue) => 10,
        Err(Refusal::InconsistentValue) => 12,
        Err(Refusal::NoSuchState) => 40,
    }
}

// The number of the state of a row that was in `state` before this answer.
pub fn next(answer: Result<State, Refusal>, state: u64) -> u64
    ensures { result ≡ next_of state answer }
{
    match answer {
        Ok(next) => next.number(),
        Err(_) => state,
    }
}

// Answers a set of RowStatus to `value` on a row in `state` by the state that the row is in then. `complete`: no required column is
// lacking after this set. `willing`: the agent is willing to take the row out of service, or to create it so.
pub fn set(state: u64, value: i64, complete: bool, willing: bool) -> Result<State, Refusal>
    ensures { Sets state value complete willing result }
{
    let state = State::try_from(state)?;
    match value {
        1 => set_active(state, complete),
        2 => set_not_in_service(state, complete, willing),
        4 => create_and_go(state, complete),
        5 => create_and_wait(state, complete, willing),
        6 => Ok(State::Absent),
        _ => Err(Refusal::WrongValue),
    }
}

// A complete row moves to `next`; one that lacks a required column does not.
fn if_complete(complete: bool, next: State) -> Result<State, Refusal>
    ensures { (state : ℕ) → outcome state result ≡ if_complete state complete (state_number next) }
{
    if complete {
        Ok(next)
    } else {
        Err(Refusal::InconsistentValue)
    }
}

fn set_active(state: State, complete: bool) -> Result<State, Refusal>
    ensures { outcome (state_number state) result ≡ set_active (state_number state) complete }
{
    match state {
        State::Active | State::NotInService => Ok(State::Active),
        State::NotReady => if_complete(complete, State::Active),
        State::Absent => Err(Refusal::InconsistentValue),
    }
}

fn set_not_in_service(state: State, complete: bool, willing: bool) -> Result<State, Refusal>
    ensures { outcome (state_number state) result
        ≡ set_not_in_service (state_number state) complete willing }
{
    match state {
        State::NotInService => Ok(State::NotInService),
        State::Active if willing => Ok(State::NotInService),
        State::Active => Err(Refusal::WrongValue),
        State::NotReady => if_complete(complete, State::NotInService),
        State::Absent => Err(Refusal::InconsistentValue),
    }
}

fn create_and_go(state: State, complete: bool) -> Result<State, Refusal>
    ensures { outcome (state_number state) result ≡ createAndGo (state_number state) complete }
{
    match state {
        State::Absent => if_complete(complete, State::Active),
        _ => Err(Refusal::InconsistentValue),
    }
}

fn create_and_wait(state: State, complete: bool, willing: bool) -> Result<State, Refusal>
    ensures { outcome (state_number state) result
        ≡ createAndWait (state_number state) complete willing }
{
    if state != State::Absent {
        return Err(Refusal::InconsistentValue);
    }
    if !willing {
        return Err(Refusal::WrongValue);
    }
    Ok(if complete {
        State::NotInService
    } else {
        State::NotReady
    })
}
