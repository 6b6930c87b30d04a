// What definitions are resolved by: whether they have an OID value, and what their heads lead to.
ghost use Rattle.std.specs.Prelude.{◌≡◌};
ghost use Rattle.oid_head.specs.Oid.{has_value, head_in};

use definition::has_oid;
use index::TokenIndex;
use module_table::{Definition, Lead, lead_at};

// Whether a definition has an OID value.
pub fn has_value(d: Definition) -> bool
    ensures { result ≡ has_value d }
{
    (0 < d.kind) & has_oid(d.kind)
}

// What the head of a definition leads to.
pub fn head_of(values: &[u32], d: Definition) -> Lead
    ensures { result ≡ head_in values.now d }
{
    lead_at(values, TokenIndex(d.oid.from))
}
