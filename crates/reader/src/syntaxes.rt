// Classes and syntaxes: refusals 16 to 19.
ghost use Rattle.std.specs.Prelude.{◌≤◌, length};
ghost use Rattle.reader.specs.Stage.{Classed};

use rule::Finding;
use syntax_check::judge_syntax;
use type_class::collect_classes;

// Finds the class of each definition, and judges by it.
pub fn judge_syntaxes(
    text: &[u8],
    starts: &[u32],
    ends: &[u32],
    classes: &[u8],
    values: &[u32],
    definitions: &mut [usize],
) -> Result<(), Finding>
    requires { length classes.now ≤ 65536 }
    ensures { Classed text.now starts.now ends.now classes.now values.now result definitions.old definitions.new }
{
    collect_classes(classes, values, definitions);
    judge_syntax(text, starts, ends, classes, values, definitions)
}
