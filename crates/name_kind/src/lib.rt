// What each token is needed as, where it is used as a name; and whether what its name leads to is of that kind: it serves the need.
#![tactic(auto)]

ghost use Rattle.std.specs.Prelude.{◌≡◌};
ghost use Rattle.symbol.specs.Symbol.{what_is, sort_of};
ghost use Rattle.name_kind.specs.declared.need.Need.TheVariants.{ObjectType};
ghost use Rattle.module_table.specs.Definition.{definitions_in};
ghost use Rattle.name_kind.specs.Serve.{iso_serves, nothing_serves, symbol_serves, kind_serves, serves};
ghost use Rattle.name_kind.specs.Serve.{is_oid_sort, is_type_sort, is_macro_sort};

mod clause;
mod need;

pub use clause::use_clause;
use definition::{has_oid, kind};
use module_table::{Lead, definition_at};
pub use need::{Need, enclosing_at, need_at, next_enclosing};
use symbol::{SYMBOLS, Sort};

// `iso` serves as a head.
fn iso_serves(need: Need) -> bool
    ensures { result ≡ iso_serves need }
{
    match need {
        Need::NoName => true,
        Need::Macro => false,
        Need::TypeName => false,
        Need::ObjectType => false,
        Need::Head => true,
        Need::Object => false,
        Need::Sequence => false,
    }
}

// A name that leads nowhere serves where no name is needed.
fn nothing_serves(need: Need) -> bool
    ensures { result ≡ nothing_serves need }
{
    match need {
        Need::NoName => true,
        Need::Macro => false,
        Need::TypeName => false,
        Need::ObjectType => false,
        Need::Head => false,
        Need::Object => false,
        Need::Sequence => false,
    }
}

// Whether a symbol has an OID, is a type, is a macro.
fn is_oid_sort(sort: Sort) -> bool
    ensures { result ≡ is_oid_sort sort }
{
    match sort {
        Sort::Oid => true,
        Sort::Type(_) => false,
        Sort::Macro => false,
    }
}

fn is_type_sort(sort: Sort) -> bool
    ensures { result ≡ is_type_sort sort }
{
    match sort {
        Sort::Oid => false,
        Sort::Type(_) => true,
        Sort::Macro => false,
    }
}

fn is_macro_sort(sort: Sort) -> bool
    ensures { result ≡ is_macro_sort sort }
{
    match sort {
        Sort::Oid => false,
        Sort::Type(_) => false,
        Sort::Macro => true,
    }
}

// What the symbol of that index is. An index past the last is no symbol's; no name that is imported leads there.
fn sort_at(k: usize) -> Sort
    ensures { result ≡ sort_of (what_is k) }
{
    if k < SYMBOLS {
        return symbol::sort_of(k);
    }
    Sort::Oid
}

// Whether a built-in symbol serves the need.
fn symbol_serves(k: usize, need: Need) -> bool
    ensures { result ≡ symbol_serves (what_is k) need }
{
    let sort = sort_at(k);
    match need {
        Need::NoName => true,
        Need::Macro => is_macro_sort(sort),
        Need::TypeName => is_type_sort(sort),
        Need::ObjectType => is_type_sort(sort),
        Need::Head => is_oid_sort(sort),
        Need::Object => false,
        Need::Sequence => false,
    }
}

// Whether a definition of this kind may be an object's type.
fn is_object_type(kind: usize) -> bool
    ensures { result ≡ kind_serves kind ObjectType }
{
    if kind == kind::CONVENTION as usize {
        return true;
    }
    kind == kind::SEQUENCE_TYPE as usize
}

// Whether a definition of this kind serves the need.
fn kind_serves(kind: usize, need: Need) -> bool
    ensures { result ≡ kind_serves kind need }
{
    match need {
        Need::NoName => true,
        Need::Macro => false,
        Need::TypeName => kind == kind::CONVENTION as usize,
        Need::ObjectType => is_object_type(kind),
        Need::Head => has_oid(kind),
        Need::Object => kind == kind::OBJECT as usize,
        Need::Sequence => kind == kind::SEQUENCE_TYPE as usize,
    }
}

// Whether what a name leads to serves the need, in a module of these definitions.
pub fn serves(definitions: &[usize], lead: Lead, need: Need) -> bool
    ensures { result ≡ serves (definitions_in definitions.now) lead need }
{
    match lead {
        Lead::Iso => iso_serves(need),
        Lead::Import(k) => symbol_serves(k, need),
        Lead::Definition(r) => kind_serves(definition_at(definitions, r).kind, need),
        Lead::Nothing => nothing_serves(need),
    }
}
