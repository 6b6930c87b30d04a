// Refusals 13 and 14: OIDs that are too long, and too many numbers in all. Both are settled before any number is written.
ghost use Rattle.std.specs.Prelude.{◌≡◌, [], ◌∷◌};
ghost use Rattle.rule.specs.Each.{judge_at};
ghost use Rattle.rule.specs.Rule.{judge_one, judge};
ghost use Rattle.module_table.specs.Definition.{definitions_in};
ghost use Rattle.oid_tree.specs.Refusal.{long_by_count, room_by_count};

use index::RecordIndex;
use module_table::{count, definition_at};
use oid_head::finding_at;
use rule::{Finding, judge_each};

// The numbers of the refusals.
const TOO_LONG: u8 = 13;

const PAST_ROOM: u8 = 14;

// The most numbers that an OID may have, and all OIDs together.
const LONGEST_OID: usize = 128;

pub const MOST_NUMBERS: usize = 8192;

// Whether the OID of definition k has over 128 numbers.
fn judge_long_at(definitions: &[usize], k: RecordIndex) -> Result<(), Finding>
    ensures { result ≡ judge_at (long_by_count (definitions_in definitions.now)) k.0 }
{
    let own = definition_at(definitions, k);
    if LONGEST_OID < own.count {
        return Err(finding_at(definitions, k, TOO_LONG));
    }
    Ok(())
}

// The first definition whose OID has over 128 numbers.
fn judge_long(definitions: &[usize]) -> Result<(), Finding>
    ensures { result ≡ judge_one (long_by_count (definitions_in definitions.now)) }
{
    judge_each(
        0,
        count(definitions),
        |k| judge_long_at(definitions, RecordIndex(k)),
    )
}

// The definition with which the numbers pass 8,192.
fn judge_room(definitions: &[usize]) -> Result<(), Finding>
    ensures { result ≡ judge_one (room_by_count (definitions_in definitions.now)) }
{
    let mut total = 0;
    for k in 0..count(definitions) {
        let own = definition_at(definitions, RecordIndex(k));
        if MOST_NUMBERS - total < own.count {
            return Err(finding_at(definitions, RecordIndex(k), PAST_ROOM));
        }
        total += own.count;
    }
    Ok(())
}

// Refusals 13 and 14, of definitions that say how many numbers they have.
pub fn judge_lengths(definitions: &[usize]) -> Result<(), Finding>
    ensures { result ≡ judge (long_by_count (definitions_in definitions.now) ∷ room_by_count
        (definitions_in definitions.now) ∷ []) }
{
    judge_long(definitions)?;
    judge_room(definitions)
}
