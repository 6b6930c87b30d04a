// Refusals 41 and 42: names that aren't known in the kind needed; and the values of the tokens behind the imports.
ghost use Rattle.std.specs.Prelude.{◌≡◌, ◌*◌, ◌≤◌, ◌<◌, length, take};
ghost use Rattle.rule.specs.Rule.{judge};
ghost use Rattle.token.specs.Cut.{meanings_in};
ghost use Rattle.module_table.specs.Definition.{definitions_in};
ghost use Rattle.module_table.specs.Module.{most_definitions};
ghost use Rattle.outline.specs.Outline.{outline};
ghost use Rattle.scope.specs.Token.{classes_of, TokensHeld};
ghost use Rattle.scope.specs.Import.{imports_end};
ghost use Rattle.scope.specs.Held.{ImportsHeld, Distinct};
ghost use Rattle.scope.specs.Tag.{name_words};
ghost use Rattle.naming.specs.Rules.{use_rules};
ghost use Rattle.naming.specs.Values.{is_name_need};
ghost use Rattle.naming.specs.Told.{UsesFilled};

use crate::number::magnitude_at;
use crate::unfit::unfit_finding;
use index::{RecordIndex, TokenIndex};
use module_table::{Lead, MOST_DEFINITIONS, count, word_for};
use name_kind::{Need, enclosing_at, need_at, next_enclosing, serves};
use rule::Finding;
use scope::{NAME_WORDS, Sought, collect_names, imports_end, leads_to, name_at, name_tag};

// Whether it is a use of a name.
fn is_name_need(need: Need) -> bool
    ensures { result ≡ is_name_need need }
{
    match need {
        Need::NoName => false,
        Need::Macro => true,
        Need::TypeName => true,
        Need::ObjectType => true,
        Need::Head => true,
        Need::Object => true,
        Need::Sequence => true,
    }
}

// Where names are looked for first: at the definition that the last name with the same last byte led to, as far as 64 of them are told
// apart. The columns of a row stand in order, and one head serves many definitions.
const SLOTS: usize = 64;

// The slot of a name of this tag.
fn slot_of(tag: u32) -> usize
    ensures { result < 64 }
{
    (tag / 65536 % 64) as usize
}

// No name has led anywhere.
fn blank_recent() -> [usize; SLOTS]
    ensures { length result ≡ 64 }
{
    [0usize; SLOTS]
}

// Where the next name of a slot is looked for first, when this was the last: near where it leads, if that is to a definition.
fn nearest(lead: Lead, last: usize) -> usize {
    match lead {
        Lead::Definition(d) => d.0,
        Lead::Iso => last,
        Lead::Import(_) => last,
        Lead::Nothing => last,
    }
}

// Room for the names of the most definitions.
fn blank_names() -> [u32; MOST_DEFINITIONS * NAME_WORDS]
    ensures { length result ≡ most_definitions * name_words }
{
    [0u32; MOST_DEFINITIONS * NAME_WORDS]
}

// Refusals 41 and 42, at the first token from the imports' end on that is used as a name that isn't known in the kind needed. Each use is
// looked up once: where the rules are kept, the tokens behind the imports have their values.
pub fn judge_uses(
    text: &[u8],
    classes: &[u8],
    starts: &[u32],
    ends: &[u32],
    values: &mut [u32],
    definitions: &[usize],
) -> Result<(), Finding>
    requires tokens { TokensHeld text.now classes.now starts.now ends.now }
    requires values { length values.old ≡ length classes.now }
    requires imports { ImportsHeld (meanings_in text.now) (take (imports_end classes.now) values.old) }
    requires outlined { definitions_in definitions.now ≡ outline (classes_of (meanings_in text.now)) }
    requires few { length (definitions_in definitions.now) ≤ most_definitions }
    requires distinct { Distinct (meanings_in text.now) }
    ensures long { length values.new ≡ length values.old }
    ensures judged { result ≡ judge (use_rules (meanings_in text.now)) }
    ensures filled { UsesFilled (meanings_in text.now) result values.old values.new }
{
    let end = imports_end(classes);
    let size = count(definitions) * NAME_WORDS;
    let mut names = blank_names();
    collect_names(text, starts, ends, definitions, &mut names[..size]);
    let mut word = enclosing_at(classes, classes.len(), end);
    let mut recent = blank_recent();
    let mut i = end;
    while i < classes.len() {
        let need = need_at(classes, classes.len(), word, i);
        if is_name_need(need) {
            let name = name_at(classes, starts, ends, TokenIndex(i));
            let tag = name_tag(text, name);
            let slot = slot_of(tag);
            let near = RecordIndex(recent[slot]);
            let lead = leads_to(
                text,
                starts,
                ends,
                &values[..end],
                &names[..size],
                Sought { name, tag, near },
            );
            if !serves(definitions, lead, need) {
                return Err(unfit_finding(text, classes, starts, ends, lead, i));
            }
            recent[slot] = nearest(lead, recent[slot]);
            let found = word_for(lead);
            values[i] = found;
            word = next_enclosing(classes, classes.len(), word, i);
            i += 1;
        } else {
            values[i] = magnitude_at(text, classes, starts, ends, i);
            word = next_enclosing(classes, classes.len(), word, i);
            i += 1;
        }
    }
    Ok(())
}
