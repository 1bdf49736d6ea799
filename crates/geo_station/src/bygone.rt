//! Histories that ended, for whoever maintains the site to let go of.
use geo_history::History;
use std::alloc::AllocError;
use std::mem;
use std::sync::{Mutex, Wait};

#[derive(Drop)]
struct Waiting {
    histories: Option<Vec<History>>,
}

/// Histories that ended with a call. To let go of one takes as long as it has steps, so whoever maintains the site does it, and no client
/// waits for it. What one call leaves waits there, and no more: so no more memory waits than an era's and what one call keeps.
#[derive(Drop)]
pub(crate) struct Bygone {
    waiting: Mutex<Waiting>,
}

impl Bygone {
    /// Nothing is left.
    pub(crate) fn none() -> Bygone {
        Bygone {
            waiting: Mutex::new(Waiting { histories: None }),
        }
    }

    /// Puts these in the place of what was left, which is handed out.
    fn swap(&self, rt: &impl Wait, histories: Option<Vec<History>>) -> Option<Vec<History>> {
        let mut waiting = self.waiting.lock(rt);
        mem::replace(&mut waiting.histories, histories)
    }

    /// Leaves histories that ended with a call. What was left before, if it is still there, is let go of here.
    pub(crate) fn leave(&self, rt: &impl Wait, ended: Result<Vec<History>, AllocError>) {
        let Ok(histories) = ended else {
            return;
        };
        if histories.is_empty() {
            return;
        }
        let _before = self.swap(rt, Some(histories));
    }

    /// Lets go of what was left.
    pub(crate) fn let_go(&self, rt: &impl Wait) {
        let _before = self.swap(rt, None);
    }
}
