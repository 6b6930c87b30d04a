// Refusal 10: symbols that the module named doesn't offer; and the values of the imports.
ghost use Rattle.std.specs.Prelude.{◌≡◌, ◌<◌, length};
ghost use Rattle.rule.specs.Rule.{judge_one};
ghost use Rattle.token.specs.Cut.{meanings_in};
ghost use Rattle.scope.specs.Token.{TokensHeld};
ghost use Rattle.scope.specs.Import.{imports_end};
ghost use Rattle.naming.specs.Rules.{offer_clause, not_offered};
ghost use Rattle.naming.specs.Told.{offer_at, missing, ImportsFilled};

use index::TokenIndex;
use module_table::{Lead, word_for};
use rule::Finding;
use scope::{imports_end, is_import, is_offered, name_at, source};
use symbol::part::{names_module, symbol_named};

// The value of token i, of a module whose imports end at `end`; none where it is a symbol that its module doesn't offer. Its symbol is found
// here and nowhere else.
fn offer_at(
    text: &[u8],
    classes: &[u8],
    starts: &[u32],
    ends: &[u32],
    end: usize,
    i: usize,
) -> Option<u32>
    requires tokens { TokensHeld text.now classes.now starts.now ends.now }
    requires end { end ≡ imports_end classes.now }
    requires index { i < length classes.now }
    ensures { result ≡ offer_at (meanings_in text.now) i }
{
    if !is_import(classes, end, i) {
        return Some(0);
    }
    let name = name_at(classes, starts, ends, TokenIndex(i));
    let k = symbol_named(text, name.start, name.end);
    if !is_offered(text, classes, starts, ends, TokenIndex(i), k) {
        return None;
    }
    Some(word_for(Lead::Import(k)))
}

// The clause of refusal 10, by the token that names the module: whether that one is built in.
fn offer_clause(text: &[u8], classes: &[u8], starts: &[u32], ends: &[u32], at: usize) -> u8
    requires { TokensHeld text.now classes.now starts.now ends.now }
    ensures { result ≡ offer_clause (meanings_in text.now) at }
{
    if classes.len() <= at {
        return 2;
    }
    let name = name_at(classes, starts, ends, TokenIndex(at));
    if names_module(text, name.start, name.end) {
        return 1;
    }
    2
}

// What there is to say of token i, an import that its module doesn't offer.
fn missing_finding(text: &[u8], classes: &[u8], starts: &[u32], ends: &[u32], i: usize) -> Finding
    requires tokens { TokensHeld text.now classes.now starts.now ends.now }
    requires index { i < length classes.now }
    ensures { result ≡ missing (meanings_in text.now) i }
{
    let module = source(classes, i);
    Finding {
        number: 10,
        clause: offer_clause(text, classes, starts, ends, module),
        token: TokenIndex(i),
        other: TokenIndex(module),
    }
}

// Refusal 10, at the first import that its module doesn't offer. Where it is kept, the imports have their values.
pub fn judge_offers(
    text: &[u8],
    classes: &[u8],
    starts: &[u32],
    ends: &[u32],
    values: &mut [u32],
) -> Result<(), Finding>
    requires tokens { TokensHeld text.now classes.now starts.now ends.now }
    requires values { length values.old ≡ length classes.now }
    ensures long { length values.new ≡ length values.old }
    ensures judged { result ≡ judge_one (not_offered (meanings_in text.now)) }
    ensures filled { ImportsFilled (meanings_in text.now) result values.new }
{
    let end = imports_end(classes);
    for i in 0..end {
        let Some(word) = offer_at(text, classes, starts, ends, end, i) else {
            return Err(missing_finding(text, classes, starts, ends, i));
        };
        values[i] = word;
    }
    Ok(())
}
