//! Jobs that run in threads.

use adb_spawner::*;
use std::alloc::{AllocError, Global};
use std::sync::atomic::{AtomicU64, Ordering};
use std::sync::{Arc, Wait};
use std::thread::{Threads, sleep};
use std::time::{Clock, Duration};

/// The number of jobs that have begun, and the number of those that are done.
#[derive(Drop)]
struct Counts {
    begun: AtomicU64,
    done: AtomicU64,
}

/// A job that counts itself as begun, and as done after `wanted` jobs have begun. It checks every
/// 50 ms and gives up after 5 s, so that a worker pool that runs the job within the call fails the
/// case, and does not hang.
#[derive(Drop)]
struct Meeting<W: Wait + Clock + Drop> {
    rt: W,
    counts: Arc<Counts, Global>,
    wanted: u64,
}

impl<W: Wait + Clock + Drop> Job for Meeting<W> {
    ghost done = { λ job. Unit {0} };

    fn run(self) {
        self.counts.begun.fetch_add(1, Ordering::SeqCst);
        for _ in 0..100u32 {
            sleep(&self.rt, Duration::from_millis(50));
            if self.counts.begun.load(Ordering::SeqCst) >= self.wanted {
                self.counts.done.fetch_add(1, Ordering::SeqCst);
                return;
            }
        }
    }
}

/// Returns whether a worker pool takes a job that waits until `wanted` jobs have begun.
fn takes<W: Threads + Wait + Clock + Copy + Send + Sync + Drop + 'static>(
    rt: W,
    pool: &mut WorkerPool<W, Meeting<W>>,
    counts: &Arc<Counts, Global>,
    wanted: u64,
) -> Result<bool, AllocError> {
    let counts = Arc::try_clone(counts)?;
    let job = Meeting { rt, counts, wanted };
    Ok(pool.spawn(job).is_ok())
}

/// Returns whether a worker pool takes two jobs that wait for each other, and both are done when it
/// has finished; and then two more, after its first threads have ended.
fn works<W: Threads + Wait + Clock + Copy + Send + Sync + Drop + 'static>(
    rt: W,
    pool: &mut WorkerPool<W, Meeting<W>>,
    counts: &Arc<Counts, Global>,
) -> Result<bool, AllocError> {
    for wanted in [2u64, 4] {
        let first = takes(rt, pool, counts, wanted)?;
        let second = takes(rt, pool, counts, wanted)?;
        pool.finish();
        if !first || !second || counts.done.load(Ordering::SeqCst) != wanted {
            return Ok(false);
        }
    }
    Ok(true)
}

fn pool_works<W: Threads + Wait + Clock + Copy + Send + Sync + Drop + 'static>(
    rt: W,
    alloc: Global,
    counts: &Arc<Counts, Global>,
) -> Result<bool, AllocError> {
    let mut pool = WorkerPool::threads(rt, alloc)?;
    works(rt, &mut pool, counts)
}

/// Returns whether a worker pool of threads runs jobs at the same time and waits for them, also
/// after its threads have ended once.
pub fn a_pool_runs_jobs<W: Threads + Wait + Clock + Copy + Send + Sync + Drop + 'static>(
    rt: W,
    alloc: Global,
) -> Result<bool, AllocError> {
    let counts = Arc::new(
        alloc,
        Counts {
            begun: AtomicU64::new(0),
            done: AtomicU64::new(0),
        },
    )?;
    pool_works(rt, alloc, &counts)
}
