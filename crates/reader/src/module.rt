// A module whose tokens the grammar derives, read stage by stage: each stage judges its rules, and the first that refuses is the answer.
ghost use Rattle.std.specs.Prelude.{◌≡◌, ◌≤◌, ◌*◌, length, get_or};
ghost use Rattle.rule.specs.Rule.{judge};
ghost use Rattle.token.specs.Token.{class_of_token};
ghost use Rattle.token.specs.Cut.{cut, meanings_in};
ghost use Rattle.grammar.specs.Grammar.{smi_module};
ghost use Rattle.grammar.specs.Derivation.{DerivesTokens};
ghost use Rattle.scope.specs.Token.{TokensHeld};
ghost use Rattle.token.specs.Table.{longest_text};
ghost use Rattle.module_table.specs.Definition.{definitions_in, width};
ghost use Rattle.module_table.specs.Module.{most_definitions};
ghost use Rattle.oid_tree.specs.Refusal.{most_numbers, counts_before};
ghost use Rattle.reader.specs.Reading.{judged, rules};
ghost use Rattle.reader.specs.Buffers.{record_words, number_words, examined_to, refusal_by, counted, Laid};

use crate::Refusal;
use crate::objects::judge_objects;
use crate::syntaxes::judge_syntaxes;
use index::{Place, RecordIndex, TokenIndex};
use module_table::{MOST_DEFINITIONS, WIDTH, definition_at};
use naming::read_names;
use oid_holder::judge_twins;
use oid_tree::collect_oids;
use records::write_records;
use rule::Finding;
use token::LONGEST_TEXT;

// How many words the most definitions have.
const TABLE_WORDS: usize = MOST_DEFINITIONS * WIDTH;

// The place of a start.
fn place_of(start: u32) -> Place
    ensures { result.0 ≡ start }
{
    Place(start as usize)
}

// Where token i starts; 0 past the last token.
fn start_of(starts: &[u32], i: TokenIndex) -> Place
    ensures { result.0 ≡ get_or starts.now i.0 0 }
{
    let at = i.0;
    if at < starts.len() {
        return place_of(starts[at]);
    }
    Place(0)
}

// What there is to say of a broken rule, by the places of its tokens.
fn refusal_by(starts: &[u32], finding: Finding) -> Refusal
    ensures { result ≡ refusal_by starts.now finding }
{
    let token = finding.token;
    let other = finding.other;
    Refusal {
        number: finding.number,
        clause: finding.clause,
        place: start_of(starts, token),
        other: start_of(starts, other),
    }
}

// How many numbers the OIDs of all definitions have.
fn numbers_used(definitions: &[usize]) -> usize
    requires { counts_before (definitions_in definitions.now) (length (definitions_in definitions.now)) ≤ most_numbers }
    ensures { result ≡ counts_before (definitions_in definitions.now) (length (definitions_in definitions.now)) }
{
    let count = module_table::count(definitions);
    let mut used = 0;
    let mut k = 0;
    while k < count {
        let d = definition_at(definitions, RecordIndex(k));
        used += d.count;
        k += 1;
    }
    used
}

// Room for the value of each token, and for the words of the most definitions.
fn blank_values() -> [u32; LONGEST_TEXT]
    ensures { length result ≡ longest_text }
{
    [0u32; LONGEST_TEXT]
}

fn blank_table() -> [usize; TABLE_WORDS]
    ensures { length result ≡ most_definitions * width }
{
    [0usize; TABLE_WORDS]
}

// Judges a module, each stage where those before it keep their rules, and lays its records where all are kept: so many definitions it has.
// The slices hold the text's tokens, which the grammar derives; where a rule is broken the record buffer is as it was.
fn judge_module(
    text: &[u8],
    classes: &[u8],
    starts: &[u32],
    ends: &[u32],
    records: &mut [u32],
    numbers: &mut [u32],
) -> Result<usize, Finding>
    requires tokens { TokensHeld text.now classes.now starts.now ends.now }
    requires records { record_words ≤ length records.old }
    requires numbers { number_words ≤ length numbers.old }
    requires grammar { DerivesTokens class_of_token smi_module (cut text.now).tokens }
    ensures told { result ≡ counted (meanings_in text.now) (judge (rules (meanings_in text.now))) }
    ensures laid { Laid (judged (cut text.now).tokens (judge (rules (meanings_in text.now)))) records.old records.new numbers.old numbers.new }
{
    let n = classes.len();
    let mut values = blank_values();
    let mut table = blank_table();
    let count = read_names(text, classes, starts, ends, &mut values[..n], &mut table)?;
    let words = count * WIDTH;
    let values = &values[..n];
    let definitions = &mut table[..words];
    collect_oids(classes, values, definitions, numbers)?;
    let used = numbers_used(definitions);
    let numbers = &numbers[..used];
    judge_twins(definitions, numbers)?;
    judge_syntaxes(text, starts, ends, classes, values, definitions)?;
    judge_objects(values, definitions, numbers)?;
    write_records(starts, ends, definitions, records);
    Ok(count)
}

// Reads a module. The slices hold the text's tokens, which the grammar derives; after a refusal the record buffer is as it was.
pub fn read_derived(
    text: &[u8],
    classes: &[u8],
    starts: &[u32],
    ends: &[u32],
    records: &mut [u32],
    numbers: &mut [u32],
) -> Result<usize, Refusal>
    requires tokens { TokensHeld text.now classes.now starts.now ends.now }
    requires records { record_words ≤ length records.old }
    requires numbers { number_words ≤ length numbers.old }
    requires derived { DerivesTokens class_of_token smi_module (cut text.now).tokens }
    ensures answered { result ≡ examined_to (judged (cut text.now).tokens (judge (rules (meanings_in text.now)))) }
    ensures laid { Laid (judged (cut text.now).tokens (judge (rules (meanings_in text.now)))) records.old records.new numbers.old numbers.new }
{
    judge_module(text, classes, starts, ends, records, numbers).map_err(|finding| refusal_by(
        starts, finding,
    ))
}
