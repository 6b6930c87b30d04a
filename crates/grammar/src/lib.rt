// The grammar: whether a sequence of token classes is a module and, where it is none, the token at fault. One load of the
// transition table for each token. A class is the number that crate `terminal` gives a terminal of the grammar, and a state its row of the
// table. Numbers, not enums: specs/Automaton.antt and the theorem, `Answers`, speak of sequences of numbers.
#![tactic(auto)]

ghost use Rattle.std.specs.Prelude.{◌≡◌, true, ◌↔◌, ◌++◌, ◌∷◌, [], ◌<◌, length, take, set};
ghost use Rattle.grammar.specs.Allowed.{allowed};
ghost use Rattle.grammar.specs.Answer.{Answers, Begins};
ghost use Rattle.grammar.specs.Automaton.{next, run};
ghost use Rattle.grammar.specs.Grammar.{smi_module};
ghost use Rattle.grammar.specs.Reading.{verdict};
ghost use Rattle.grammar.specs.Table.{module_automaton};

mod table;

use index::TokenIndex;
use table::{ACCEPTING, DEAD, START, TABLE};
use terminal::TERMINALS;

// The state after a token of this class: DEAD where no derived sequence goes on so, as with a class that is no terminal's.
fn step(state: u8, class: u8) -> u8
    requires { state < module_automaton.states }
    ensures leads { result ≡ next module_automaton state class }
    ensures state { result < module_automaton.states }
{
    let row = state as usize;
    let column = class as usize;
    if column < TERMINALS {
        TABLE[row * TERMINALS + column]
    } else {
        DEAD
    }
}

// What the grammar says of a sequence: that it is derived, or else which token is at fault. That is the first with which no derived
// sequence goes on, or the end, where the sequence is only the beginning of one.
pub fn recognise(classes: &[u8]) -> Result<(), TokenIndex>
    ensures ran { verdict result ≡ run module_automaton classes.now }
    ensures right { Answers smi_module classes.now (verdict result) }
{
    let mut state = START;
    for (i, &class) in classes.iter().enumerate() {
        state = step(state, class);
        if state == DEAD {
            return Err(TokenIndex(i));
        }
    }
    if state == ACCEPTING {
        Ok(())
    } else {
        Err(TokenIndex(classes.len()))
    }
}

// Whether some derived sequence begins with the first n classes and then this one, whose place behind them is lent.
pub fn allows(classes: &mut [u8], n: usize, class: u8) -> bool
    requires { n < length classes.old }
    ensures ran { result ≡ allowed (take n classes.old ++ class ∷ []) }
    ensures right { (result ≡ true) ↔ Begins smi_module (take n classes.old ++ class ∷ []) }
    ensures lent { classes.new ≡ set classes.old n class }
{
    classes[n] = class;
    match recognise(&classes[..n + 1]) {
        Ok(()) => true,
        Err(fault) => n < fault.0,
    }
}
