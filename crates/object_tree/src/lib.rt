// The tree of objects by their OIDs: each object's parent, whose OID is its own less the last number. With the words of SMI for a
// definition, which the rules on tables, access and notifications share.
#![tactic(auto)]

mod parent;
mod words;

pub use parent::collect_parents;
pub use words::{
    ACCESSIBLE_FOR_NOTIFY, COUNTER32, COUNTER64, NOT_ACCESSIBLE, READ_CREATE, READ_ONLY,
    READ_WRITE, ROW, TABLE, is_given, is_indexed, is_notification, is_object, is_row, is_table,
    number_at, numbered,
};
