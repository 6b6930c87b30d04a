// Tables, rows, columns and notifications: refusals 20 to 22.
ghost use Rattle.std.specs.Prelude.{◌≤◌, length};
ghost use Rattle.module_table.specs.Definition.{definitions_in};
ghost use Rattle.module_table.specs.Module.{most_definitions};
ghost use Rattle.object_tree.specs.Tree.{parents_added};
ghost use Rattle.access_check.specs.Notification.{TwoNumbers};
ghost use Rattle.reader.specs.Stage.{Related};

use access_check::{judge_access, judge_notifications};
use object_tree::collect_parents;
use rule::Finding;
use table_check::judge_tables;

// Finds each object's parent, and judges by it.
pub fn judge_objects(
    values: &[u32],
    definitions: &mut [usize],
    numbers: &[u32],
) -> Result<(), Finding>
    requires few { length (definitions_in definitions.old) ≤ most_definitions }
    requires two { TwoNumbers (parents_added numbers.now (definitions_in definitions.old)) numbers.now }
    ensures { Related values.now numbers.now result definitions.old definitions.new }
{
    collect_parents(definitions, numbers);
    judge_tables(values, definitions, numbers)?;
    judge_access(values, definitions, numbers)?;
    judge_notifications(values, definitions, numbers)
}
