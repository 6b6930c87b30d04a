// What there is to say of a use that isn't known in the kind needed: refusals 41 and 42.
ghost use Rattle.std.specs.Prelude.{◌≡◌, ◌<◌, length};
ghost use Rattle.rule.specs.Rule.{finding};
ghost use Rattle.token.specs.Cut.{meanings_in};
ghost use Rattle.scope.specs.Token.{spelled, TokensHeld};
ghost use Rattle.scope.specs.Lead.{leads_to};
ghost use Rattle.scope.specs.Held.{AllOffered};
ghost use Rattle.naming.specs.Rules.{introducer, unfit_use};
ghost use Rattle.naming.specs.Told.{lead_number};

use crate::again::introduces;
use index::TokenIndex;
use module_table::Lead;
use name_kind::use_clause;
use rule::Finding;
use scope::{imports_end, is_named, name_at};

// 41 where the name leads to nothing, and is not known; 42 where it leads to something of another kind.
fn lead_number(lead: Lead) -> u8
    ensures { result ≡ lead_number lead }
{
    match lead {
        Lead::Iso => 42,
        Lead::Import(_) => 42,
        Lead::Definition(_) => 42,
        Lead::Nothing => 41,
    }
}

// The first token that introduces the name of token i; i itself where none does.
fn introducer(text: &[u8], classes: &[u8], starts: &[u32], ends: &[u32], i: usize) -> usize
    requires tokens { TokensHeld text.now classes.now starts.now ends.now }
    requires index { i < length classes.now }
    ensures { result ≡ introducer (meanings_in text.now) i }
{
    let end = imports_end(classes);
    let name = name_at(classes, starts, ends, TokenIndex(i));
    let mut j = 0;
    while j < classes.len() {
        if introduces(classes, end, j) {
            if is_named(text, starts, ends, j, name) {
                return j;
            }
        }
        j += 1;
    }
    i
}

// Of token i, whose name leads here.
pub fn unfit_finding(
    text: &[u8],
    classes: &[u8],
    starts: &[u32],
    ends: &[u32],
    lead: Lead,
    i: usize,
) -> Finding
    requires tokens { TokensHeld text.now classes.now starts.now ends.now }
    requires offers { AllOffered (meanings_in text.now) }
    requires lead { lead ≡ leads_to (meanings_in text.now) (spelled (meanings_in text.now) i) }
    requires index { i < length classes.now }
    ensures { result ≡ finding (unfit_use (meanings_in text.now) i) i }
{
    Finding {
        number: lead_number(lead),
        clause: use_clause(classes, classes.len(), i),
        token: TokenIndex(i),
        other: TokenIndex(introducer(text, classes, starts, ends, i)),
    }
}
