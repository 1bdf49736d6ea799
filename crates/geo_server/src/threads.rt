//! Threads that have all to be there before any of them begins.
use crate::adding::add;
use crate::start::Start;
use geo_wires::ClusterFault;
use std::alloc::Global;
use std::sync::Wait;
use std::sync::atomic::AtomicU64;
use std::thread;
use std::thread::Threads;

/// Runs each job in a thread of its own, and another in this one, and gives what the threads left, in the order of the jobs. Where the
/// system refuses a thread, or memory is refused for them, nobody begins: those that were started are told, and waited for.
pub(crate) fn run_all<
    R: Threads + Wait + Sync,
    J: Send + Drop,
    X: Send + Drop,
    F: Fn(J) -> X + Sync,
    O: FnOnce() -> (),
>(
    rt: &R,
    alloc: Global,
    start: &Start,
    stop: &AtomicU64,
    jobs: Vec<J>,
    run: &F,
    own: O,
) -> Result<Vec<X>, ClusterFault>
    requires run { F.IsAlwaysCallable run.now }
    requires own { O.pre own }
{
    thread::scope(
        thread::scope_env(),
        rt,
        move |scope| -> Result<Vec<X>, ClusterFault>
            requires { F.IsAlwaysCallable run.now × O.pre own }
        {
            let mut handles = Vec::new(alloc);
            let mut all = Vec::new(alloc);
            // no memory is wanted once they have begun
            if handles.reserve(jobs.len()).is_err() || all.reserve(jobs.len()).is_err() {
                start.abandon(stop);
                return Err(ClusterFault::Memory);
            }
            for job in jobs {
                match scope.spawn(move || run(job)) {
                    Ok(handle) => add(&mut handles, handle)?,
                    Err(_) => {
                        start.abandon(stop);
                        return Err(ClusterFault::Threads);
                    }
                }
            }
            own();
            for handle in handles {
                let left = handle.join(rt);
                add(&mut all, left)?;
            }
            Ok(all)
        },
    )
}
