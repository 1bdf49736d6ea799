//! How all threads of all sites begin together, or none does.
use std::sync::Wait;
use std::sync::atomic::{AtomicU64, Ordering};
use std::time::Duration;

/// For how many milliseconds a thread that has come waits before it looks again whether all have.
const PAUSE: u64 = 100;

/// How all threads of all sites begin together: none does anything before each has come. Where one does not come, since its site
/// could not be put together or the system starts no other thread, all that have come go away again.
#[derive(Drop)]
pub(crate) struct Start {
    /// How many threads have not come yet.
    missing: AtomicU64,
}

impl Start {
    /// For so many threads.
    pub(crate) fn new(threads: u64) -> Start {
        Start {
            missing: AtomicU64::new(threads),
        }
    }

    /// Nobody begins any more: a site could not be put together, or a thread not be started. The word by which the cluster stops is
    /// given.
    pub(crate) fn abandon(&self, stop: &AtomicU64) {
        stop.store(1, Ordering::SeqCst);
        stop.wake_all();
        self.missing.wake_all();
    }

    /// A thread has come, and waits for all others. Whether it is to begin: the word by which the cluster stops was not given.
    pub(crate) fn comes<R: Wait>(&self, rt: &R, stop: &AtomicU64) -> bool {
        if self.missing.fetch_sub(1, Ordering::SeqCst) == 1 {
            self.missing.wake_all();
        }
        for _look in rt.forever() {
            let missing = self.missing.load(Ordering::SeqCst);
            if stop.load(Ordering::SeqCst) != 0 {
                return false;
            }
            if missing == 0 {
                return true;
            }
            let seen = missing.min(u32::MAX as u64) as u32;
            self.missing
                .park_timeout(rt, seen, Duration::from_millis(PAUSE));
        }
        unreachable!()
    }
}
