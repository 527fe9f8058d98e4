//! What stands before a step.

use plain_queues::Flow;
use plain_works::Works;

/// A topology and the steps so far, with the lives, the tables and the works that they leave.
#[derive(Clone, Copy)]
pub struct Machine<'a> {
    pub flow: Flow<'a>,
    pub works: &'a Works,
}
