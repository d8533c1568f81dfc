// Sets that were replaced.

use dp_domain::{Dom, VarId};

/// A variable and the set that it had before a change.
#[derive(Drop)]
pub struct Change {
    pub var: VarId,
    pub set: Dom,
}
