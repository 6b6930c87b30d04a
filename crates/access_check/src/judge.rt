// What refusals 21 and 22 say.
ghost use Rattle.std.specs.Prelude.{◌≡◌};
ghost use Rattle.rule.specs.Rule.{judge_one};
ghost use Rattle.module_table.specs.Definition.{definitions_in};
ghost use Rattle.access_check.specs.Access.{access_broken};
ghost use Rattle.access_check.specs.Notification.{TwoNumbers, notification_broken};
ghost use Rattle.access_check.specs.Found.{found};

use crate::Check;
use crate::clash::{access_other, first_clash};
use crate::fault::{clause_at, first_fault};
use crate::notification::notification_other;
use index::{RecordIndex, TokenIndex};
use module_table::{count, definition_at};
use rule::Finding;

// The numbers of the refusals, and that of the clause on a clash.
const ACCESS_BROKEN: u8 = 21;

const NOTIFICATION_BROKEN: u8 = 22;

const CLASH: u8 = 1;

// What there is to say of definition k, at fault by a clause, which stands against a token.
fn found(
    definitions: &[usize],
    number: u8,
    clause: u8,
    k: RecordIndex,
    other: TokenIndex,
) -> Finding
    ensures { result ≡ found (definitions_in definitions.now) number clause k.0 other.0 }
{
    let d = definition_at(definitions, k);
    let token = d.name;
    Finding {
        number,
        clause,
        token,
        other,
    }
}

// What refusal 21 says: the first clash, or an earlier object at fault by itself.
pub fn judge_access(values: &[u32], definitions: &[usize], numbers: &[u32]) -> Result<(), Finding>
    ensures { result ≡ judge_one (access_broken (definitions_in definitions.now) values.now) }
{
    let n = count(definitions);
    let clash = first_clash(values, definitions);
    let fault = first_fault(values, definitions, numbers, Check::Access);
    if (clash < n) & (clash <= fault) {
        let k = RecordIndex(clash);
        let other = access_other(values, definitions, CLASH, k);
        return Err(found(definitions, ACCESS_BROKEN, CLASH, k, other));
    }
    if fault < n {
        let k = RecordIndex(fault);
        let clause = clause_at(values, definitions, numbers, Check::Access, k);
        let other = access_other(values, definitions, clause, k);
        return Err(found(definitions, ACCESS_BROKEN, clause, k, other));
    }
    Ok(())
}

// What refusal 22 says.
pub fn judge_notifications(
    values: &[u32],
    definitions: &[usize],
    numbers: &[u32],
) -> Result<(), Finding>
    requires { TwoNumbers (definitions_in definitions.now) numbers.now }
    ensures { result ≡ judge_one (notification_broken (definitions_in definitions.now) values.now numbers.now) }
{
    let n = count(definitions);
    let fault = first_fault(values, definitions, numbers, Check::Notification);
    if fault < n {
        let k = RecordIndex(fault);
        let clause = clause_at(values, definitions, numbers, Check::Notification, k);
        let other = notification_other(values, definitions, clause, k);
        return Err(found(definitions, NOTIFICATION_BROKEN, clause, k, other));
    }
    Ok(())
}
