// What there is to say of a definition that breaks a rule.
ghost use Rattle.std.specs.Prelude.{◌≡◌};
ghost use Rattle.module_table.specs.Definition.{definitions_in};
ghost use Rattle.oid_head.specs.Unreached.{finding_at};

use index::RecordIndex;
use module_table::definition_at;
use rule::Finding;

// Definition k breaks the rule of this number, which has one clause and is about it alone.
pub fn finding_at(definitions: &[usize], k: RecordIndex, number: u8) -> Finding
    ensures { result ≡ finding_at number (definitions_in definitions.now) k.0 }
{
    let own = definition_at(definitions, k);
    let name = own.name;
    Finding {
        number,
        clause: 0,
        token: name,
        other: name,
    }
}
