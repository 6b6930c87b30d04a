// Refusals 21 and 22: access rules and rules on notifications. What puts a definition at fault by itself is searched for by one loop,
// whichever rule is checked; a clash of two columns has a search of its own.
#![tactic(auto)]

mod access;
mod clash;
mod fault;
mod judge;
mod notification;

pub use judge::{judge_access, judge_notifications};

// What is checked of a definition by itself: access, or the rules on notifications.
#[derive(Clone, Copy)]
pub enum Check {
    Access,
    Notification,
}
