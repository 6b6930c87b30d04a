// OIDs: refusals 12 to 14, and the OIDs themselves, written one after the other into the number buffer. All is read off a module whose
// names are known, as the crate `module_table` lays it out.
#![tactic(auto)]

ghost use Rattle.std.specs.Prelude.{◌*◌, ◌≤◌, length};
ghost use Rattle.token.specs.Table.{longest_text};
ghost use Rattle.module_table.specs.Definition.{width};
ghost use Rattle.module_table.specs.Module.{most_definitions};
ghost use Rattle.oid_head.specs.Oid.{named_in};
ghost use Rattle.oid_tree.specs.Refusal.{most_numbers};
ghost use Rattle.oid_tree.specs.Collected.{Collected};

mod length;
mod room;
mod writer;

use crate::length::measure;
pub use crate::room::MOST_NUMBERS;
use crate::room::judge_lengths;
use crate::writer::write_oids;
use oid_head::judge_reached;
use rule::Finding;

// Refusals 12 to 14. Where they are kept, each definition says where the numbers of its OID start and how many they are, and the
// number buffer holds them.
pub fn collect_oids(
    classes: &[u8],
    values: &[u32],
    definitions: &mut [usize],
    numbers: &mut [u32],
) -> Result<(), Finding>
    requires tokens { length classes.now ≤ longest_text }
    requires definitions { length definitions.old ≤ most_definitions * width }
    requires numbers { most_numbers ≤ length numbers.old }
    ensures { Collected (named_in classes.now values.now definitions.old) result
        definitions.old definitions.new numbers.old numbers.new }
{
    judge_reached(values, definitions)?;
    measure(classes, values, definitions);
    judge_lengths(definitions)?;
    write_oids(classes, values, definitions, numbers);
    Ok(())
}
