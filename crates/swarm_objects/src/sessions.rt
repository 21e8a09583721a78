// Sessions of nodes.
use crate::{Duplicate, Id, Ms, NoMemory};
use std::alloc::Global;

/// How a node keeps in touch.
#[derive(Clone, Copy, PartialEq, Eq)]
pub struct Session {
    pub id: Id,
    /// The session is live before this time.
    pub deadline: Ms,
    /// The time of the last beat; opening counts as one.
    pub beat: Ms,
}

/// The session of a node.
#[derive(Clone, Copy, PartialEq, Eq)]
pub struct NodeSession {
    pub node: Id,
    pub session: Session,
}

impl Duplicate for Session {
    fn duplicate(&self, _alloc: Global) -> Result<Session, NoMemory> {
        Ok(*self)
    }
}

impl Duplicate for NodeSession {
    fn duplicate(&self, _alloc: Global) -> Result<NodeSession, NoMemory> {
        Ok(*self)
    }
}
