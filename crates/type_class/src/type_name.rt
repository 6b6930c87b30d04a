// The syntax of a definition, and what the name of a type in it leads to.
ghost use Rattle.std.specs.Prelude.{◌≡◌, ◌≤◌, length};
ghost use Rattle.type_class.specs.Class.{has_syntax, syntax_in, is_named, lead_of, is_smi_lead, names_another, is_indirect};

use definition::{Span, Syntax, kind, syntax_at};
use module_table::{Definition, Lead, lead_at};

// Whether a definition has a syntax: an object or a convention.
pub fn has_syntax(d: Definition) -> bool
    ensures { result ≡ has_syntax d }
{
    (d.kind == kind::OBJECT as usize) | (d.kind == kind::CONVENTION as usize)
}

// The syntax that stands in a span of tokens.
pub fn syntax_in(classes: &[u8], span: Span) -> Syntax
    requires { length classes.now ≤ 65536 }
    ensures { result ≡ syntax_in classes.now span }
{
    let from = span.from;
    if from < classes.len() {
        return syntax_at(classes, classes.len(), from, span.to);
    }
    Syntax::ObjectIdentifier
}

// Whether a syntax is a type's name.
pub fn is_named(syntax: Syntax) -> bool
    ensures { result ≡ is_named syntax }
{
    match syntax {
        Syntax::Integer(_) => false,
        Syntax::Named(_, _) => true,
        Syntax::Octets(_) => false,
        Syntax::ObjectIdentifier => false,
        Syntax::Bits(_) => false,
        Syntax::SequenceOf(_) => false,
    }
}

// What the name of a type in a syntax leads to: the syntax is that name, or it stands after OF.
pub fn lead_of(values: &[u32], syntax: Syntax) -> Lead
    ensures { result ≡ lead_of values.now syntax }
{
    match syntax {
        Syntax::Integer(_) => Lead::Nothing,
        Syntax::Named(name, _) => lead_at(values, name),
        Syntax::Octets(_) => Lead::Nothing,
        Syntax::ObjectIdentifier => Lead::Nothing,
        Syntax::Bits(_) => Lead::Nothing,
        Syntax::SequenceOf(name) => lead_at(values, name),
    }
}

// Whether a name leads to one of SMI's eight types, imported.
fn is_smi_lead(lead: Lead) -> bool
    ensures { result ≡ is_smi_lead lead }
{
    match lead {
        Lead::Iso => false,
        Lead::Import(k) => symbol::is_smi_type(k),
        Lead::Definition(_) => false,
        Lead::Nothing => false,
    }
}

// Whether a syntax is a name that isn't one of SMI's eight types, imported.
pub fn names_another(values: &[u32], syntax: Syntax) -> bool
    ensures { result ≡ names_another values.now syntax }
{
    is_named(syntax) & !is_smi_lead(lead_of(values, syntax))
}

// Refusal 19: whether a definition is a convention whose SYNTAX name isn't one of SMI's eight types, imported.
pub fn is_indirect(classes: &[u8], values: &[u32], d: Definition) -> bool
    requires { length classes.now ≤ 65536 }
    ensures { result ≡ is_indirect classes.now values.now d }
{
    let syntax = syntax_in(classes, d.syntax);
    (d.kind == kind::CONVENTION as usize) & names_another(values, syntax)
}
