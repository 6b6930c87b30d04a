// The class of a syntax, by its first word or by what its name leads to.
ghost use Rattle.std.specs.Prelude.{◌≡◌, ◌≤◌};
ghost use Rattle.module_table.specs.Definition.{definitions_in};
ghost use Rattle.module_table.specs.Lead.{definition_number};
ghost use Rattle.type_class.specs.Class.{integer_class, syntax_class, built_in_class, convention_class};
ghost use Rattle.type_class.specs.Class.{class_given, lead_class, object_class, sequence_number};

use crate::type_name::{lead_of, names_another};
use crate::{ROW, TABLE, UNSETTLED};
use definition::{Restriction, Syntax, kind};
use module_table::{Definition, Lead, definition_at};
use symbol::class;

// The class of INTEGER: enumerated where it has an enumeration.
fn integer_class(restriction: Restriction) -> usize
    ensures { result ≡ integer_class restriction }
{
    match restriction {
        Restriction::Free => class::INTEGER as usize,
        Restriction::Ranges(_) => class::INTEGER as usize,
        Restriction::Sizes(_) => class::INTEGER as usize,
        Restriction::Enumeration(_) => class::ENUMERATED as usize,
    }
}

// The class of a syntax whose name, if it has one, has this class.
fn syntax_class(syntax: Syntax, named: usize) -> usize
    ensures { result ≡ syntax_class syntax named }
{
    match syntax {
        Syntax::Integer(restriction) => integer_class(restriction),
        Syntax::Named(_, _) => named,
        Syntax::Octets(_) => class::OCTETS as usize,
        Syntax::ObjectIdentifier => class::OBJECT_IDENTIFIER as usize,
        Syntax::Bits(_) => class::BITS as usize,
        Syntax::SequenceOf(_) => TABLE,
    }
}

// The class of the symbol k, where it is a type.
fn symbol_class(k: usize) -> usize
    ensures { result ≡ built_in_class (Lead.Import k) }
{
    symbol::type_class(k) as usize
}

// The class of a built-in type; 0 where a name leads to none.
fn built_in_class(lead: Lead) -> usize
    ensures { result ≡ built_in_class lead }
{
    match lead {
        Lead::Iso => 0,
        Lead::Import(k) => symbol_class(k),
        Lead::Definition(_) => 0,
        Lead::Nothing => 0,
    }
}

// The class of a convention with this syntax.
pub fn convention_class(values: &[u32], syntax: Syntax) -> usize
    ensures { result ≡ convention_class values.now syntax }
{
    if names_another(values, syntax) {
        return UNSETTLED;
    }
    syntax_class(syntax, built_in_class(lead_of(values, syntax)))
}

// The class that a definition gives an object that names it.
fn class_given(d: Definition) -> usize
    ensures { result ≡ class_given d }
{
    if d.kind == kind::CONVENTION as usize {
        return d.class;
    }
    if d.kind == kind::SEQUENCE_TYPE as usize {
        return ROW;
    }
    0
}

// The class of an object whose name leads there.
fn lead_class(definitions: &[usize], lead: Lead) -> usize
    ensures { result ≡ lead_class (definitions_in definitions.now) lead }
{
    match lead {
        Lead::Iso => 0,
        Lead::Import(k) => symbol_class(k),
        Lead::Definition(k) => class_given(definition_at(definitions, k)),
        Lead::Nothing => 0,
    }
}

// The class of an object with this syntax.
pub fn object_class(values: &[u32], definitions: &[usize], syntax: Syntax) -> usize
    ensures { result ≡ object_class values.now (definitions_in definitions.now) syntax }
{
    syntax_class(syntax, lead_class(definitions, lead_of(values, syntax)))
}

// The number of the definition that a name leads to, counted from 1; 0 where it leads to none.
fn definition_number(lead: Lead) -> usize
    requires { definition_number lead ≤ 512 }
    ensures { result ≡ definition_number lead }
{
    match lead {
        Lead::Iso => 0,
        Lead::Import(_) => 0,
        Lead::Definition(d) => d.0 + 1,
        Lead::Nothing => 0,
    }
}

// The SEQUENCE type of an object with this class and syntax, by its number; 0 for what is neither a table nor a row.
pub fn sequence_number(values: &[u32], class: usize, syntax: Syntax) -> usize
    ensures { result ≡ sequence_number values.now class syntax }
{
    if (class == TABLE) | (class == ROW) {
        return definition_number(lead_of(values, syntax));
    }
    0
}
