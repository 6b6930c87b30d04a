// How the restriction of a definition is tested.
ghost use Rattle.std.specs.Prelude.{◌≡◌, ◌≤◌, length};
ghost use Rattle.module_table.specs.Definition.{definitions_in};
ghost use Rattle.syntax_check.specs.Refusal.{restriction_of, place_test, limit_test, enumeration_test, item_test, leads_to_indirect};
ghost use Rattle.syntax_check.specs.Refusal.{is_untested, range_test, items_of};

use crate::{Demand, RangeTest};
use definition::{Restriction, Syntax, kind};
use enumeration::Enumeration;
use module_table::{Definition, Lead, definition_at};
use sub_type::{Limits, range_limits, size_limits};
use type_class::{has_syntax, is_indirect, lead_of, syntax_in};

// The restriction of a syntax.
fn restriction_of(syntax: Syntax) -> Restriction
    ensures { result ≡ restriction_of syntax }
{
    match syntax {
        Syntax::Integer(restriction) => restriction,
        Syntax::Named(_, restriction) => restriction,
        Syntax::Octets(restriction) => restriction,
        Syntax::ObjectIdentifier => Restriction::Free,
        Syntax::Bits(restriction) => restriction,
        Syntax::SequenceOf(_) => Restriction::Free,
    }
}

// Refusal 16 on a restriction.
fn place_test(restriction: Restriction) -> RangeTest
    ensures { result ≡ place_test restriction }
{
    match restriction {
        Restriction::Free => RangeTest::Untested,
        Restriction::Ranges(span) => RangeTest::Placed(span),
        Restriction::Sizes(span) => RangeTest::Placed(span),
        Restriction::Enumeration(_) => RangeTest::Untested,
    }
}

// Refusal 17 on a restriction of a syntax of this class.
fn limit_test(class: usize, restriction: Restriction) -> RangeTest
    ensures { result ≡ limit_test class restriction }
{
    match restriction {
        Restriction::Free => RangeTest::Untested,
        Restriction::Ranges(span) => RangeTest::Within(range_limits(class), span),
        Restriction::Sizes(span) => RangeTest::Within(size_limits(class), span),
        Restriction::Enumeration(_) => RangeTest::Untested,
    }
}

// Refusal 18 on a restriction, with the limits of its numbers.
fn enumeration_test(limits: Limits, restriction: Restriction) -> Option<Enumeration>
    ensures { result ≡ enumeration_test limits restriction }
{
    match restriction {
        Restriction::Free => None,
        Restriction::Ranges(_) => None,
        Restriction::Sizes(_) => None,
        Restriction::Enumeration(span) => Some(Enumeration { span, limits }),
    }
}

// Refusal 18 on a syntax.
fn item_test(syntax: Syntax) -> Option<Enumeration>
    ensures { result ≡ item_test syntax }
{
    match syntax {
        Syntax::Integer(restriction) => enumeration_test(Limits::Integer, restriction),
        Syntax::Named(_, _) => None,
        Syntax::Octets(_) => None,
        Syntax::ObjectIdentifier => None,
        Syntax::Bits(restriction) => enumeration_test(Limits::Unsigned, restriction),
        Syntax::SequenceOf(_) => None,
    }
}

// Whether a name leads to a convention that breaches 19.
fn leads_to_indirect(classes: &[u8], values: &[u32], definitions: &[usize], lead: Lead) -> bool
    requires { length classes.now ≤ 65536 }
    ensures { result ≡ leads_to_indirect classes.now values.now (definitions_in definitions.now) lead }
{
    match lead {
        Lead::Iso => false,
        Lead::Import(_) => false,
        Lead::Definition(k) => is_indirect(classes, values, definition_at(definitions, k)),
        Lead::Nothing => false,
    }
}

// Whether refusal 17 isn't tested in a definition.
fn is_untested(classes: &[u8], values: &[u32], definitions: &[usize], d: Definition) -> bool
    requires { length classes.now ≤ 65536 }
    ensures { result ≡ is_untested classes.now values.now (definitions_in definitions.now) d }
{
    let indirect = is_indirect(classes, values, d);
    let lead = lead_of(values, syntax_in(classes, d.syntax));
    let named = leads_to_indirect(classes, values, definitions, lead);
    indirect | ((d.kind == kind::OBJECT as usize) & named)
}

// How the ranges of a definition are tested.
pub fn range_test(
    classes: &[u8],
    values: &[u32],
    definitions: &[usize],
    demand: Demand,
    d: Definition,
) -> RangeTest
    requires { length classes.now ≤ 65536 }
    ensures { result ≡ range_test classes.now values.now (definitions_in definitions.now) demand d }
{
    let has = has_syntax(d);
    let restriction = restriction_of(syntax_in(classes, d.syntax));
    let Demand::Places = demand else {
        if has & !is_untested(classes, values, definitions, d) {
            return limit_test(d.class, restriction);
        }
        return RangeTest::Untested;
    };
    if has {
        return place_test(restriction);
    }
    RangeTest::Untested
}

// The items of a definition that are tested, if it has them.
pub fn items_of(classes: &[u8], d: Definition) -> Option<Enumeration>
    requires { length classes.now ≤ 65536 }
    ensures { result ≡ items_of classes.now d }
{
    if has_syntax(d) {
        return item_test(syntax_in(classes, d.syntax));
    }
    None
}
