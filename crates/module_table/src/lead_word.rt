// What names lead to, as words: the value of a token that is used as a name.
ghost use Rattle.std.specs.Prelude.{◌≡◌};
ghost use Rattle.module_table.specs.Lead.{lead_in, word_of, lead_at, Small};

use crate::Lead;
use index::{RecordIndex, TokenIndex};

// The words: for a name that leads nowhere, for `iso`, and the first for a definition and for a symbol.
const NOTHING: u32 = 0;

const ISO: u32 = 1;

const DEFINITION: u32 = 2;

const SYMBOL: u32 = 514;

// What a word says.
pub fn lead_in(word: u32) -> Lead
    ensures { result ≡ lead_in word }
{
    if word == NOTHING {
        return Lead::Nothing;
    }
    if word == ISO {
        return Lead::Iso;
    }
    if word < SYMBOL {
        return Lead::Definition(RecordIndex((word - DEFINITION) as usize));
    }
    Lead::Import((word - SYMBOL) as usize)
}

// The word that says where a name leads.
pub fn word_for(lead: Lead) -> u32
    requires { Small lead }
    ensures { result ≡ word_of lead }
{
    match lead {
        Lead::Nothing => NOTHING,
        Lead::Iso => ISO,
        Lead::Definition(d) => DEFINITION + d.0 as u32,
        Lead::Import(k) => SYMBOL + k as u32,
    }
}

// What the name at token i leads to, by the values of all tokens; nothing past the last.
pub fn lead_at(values: &[u32], i: TokenIndex) -> Lead
    ensures { result ≡ lead_at values.now i.0 }
{
    let at = i.0;
    if at < values.len() {
        return lead_in(values[at]);
    }
    Lead::Nothing
}
