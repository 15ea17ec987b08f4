//! A runner of jobs.

ghost use Rattle.std.specs.Prelude.{◌≡◌, ◌<◌, [], None, Some, IfOk, IfErr, is_err, option_map};
ghost use Rattle.adb_outside.specs.Outside.{Counts};
ghost use Rattle.adb_spawner.specs.WorkerPool.{IsSteady, Spawns};

use crate::job::Job;
use crate::pool::Pool;
use adb_outside::Failing;
use std::alloc::{AllocError, Global};
use std::marker::Model;
use std::sync::Wait;
use std::thread::Threads;

/// A runner of jobs of one type. It runs each job in a thread of its own, or within the call. It
/// hands a job back without running it if a test wants this call to fail, or if no thread can be
/// started.
///
/// A thread that has run its job waits for the next one. `finish` ends the threads; the threads of
/// a pool that is dropped without it wait on.
#[derive(Drop)]
pub struct WorkerPool<
    W: Threads + Wait + Copy + Send + Sync + Drop + 'static,
    J: Job + Send + Drop + 'static,
> {
    failing: Failing,
    pool: Option<Pool<W, J>>,
}

impl<W: Threads + Wait + Copy + Send + Sync + Drop + 'static, J: Job + Send + Drop + 'static> Model
    for WorkerPool<W, J> {
    ghost use Rattle.adb_spawner.specs.WorkerPool.{PoolView};

    ghost Value = { PoolView };

    ghost view = { λ pool. record {
      failing = pool.failing.failing;
      calls = pool.failing.calls;
      faults = pool.failing.faults;
      threads = pool.pool;
    } };
}

impl<
    W: Threads + Wait + Copy + Send + Sync + Drop + 'static,
    J: Job + Send + Drop + 'static,
> WorkerPool<W, J> {
    /// Returns a pool that runs each job within the call, and hands back the jobs of the calls
    /// listed in `failing` by number, counted from 1. Allocates nothing.
    pub fn inline(failing: Vec<u64>) -> WorkerPool<W, J>
        ensures { result ≡ record {
          failing = failing.items;
          calls = 0;
          faults = 0;
          threads = None;
        } }
    {
        WorkerPool {
            failing: Failing::new(failing),
            pool: None,
        }
    }

    /// Returns a pool that runs each job in a thread of its own while it runs. Fails if an
    /// allocation fails.
    pub fn threads(rt: W, alloc: Global) -> Result<WorkerPool<W, J>, AllocError>
        ensures { IfOk result (λ pool. pool
            ≡ record { failing = []; calls = 0; faults = 0; threads = Some 0 }) }
    {
        Ok(WorkerPool {
            failing: Failing::new(Vec::new(alloc)),
            pool: Some(Pool::new(rt, alloc)?),
        })
    }

    /// Runs a job, or returns it as the error without running it. The count of faults rises exactly
    /// when it is returned.
    pub fn spawn(&mut self, job: J) -> Result<(), J>
        ensures back { IfErr result (λ back. back ≡ job) }
        ensures counts { Counts IsSteady (λ pool. pool.faults)
            self.old self.new (is_err result) }
        ensures spawns { Spawns self.old self.new (is_err result) }
        ensures ran { self.old.threads ≡ None → IfOk result (λ done. J.done job) }
    {
        if self.failing.fails() {
            return Err(job);
        }
        match &mut self.pool {
            None => {
                job.run();
                Ok(())
            }
            Some(pool) => match pool.spawn(job) {
                Ok(()) => Ok(()),
                Err(job) => {
                    self.failing.count_fault();
                    Err(job)
                }
            },
        }
    }

    /// Returns evidence that the pool handed a job back.
    pub fn no_thread(&self) -> NoThread
        requires { 0 < self.now.faults }
    {
        NoThread { shown: () }
    }

    /// Waits for all jobs, and ends the threads.
    pub fn finish(&mut self)
        ensures same { self.new ≡ record self.old { threads = self.new.threads } }
        ensures threads { self.new.threads ≡ option_map (λ n. 0) self.old.threads }
    {
        if let Some(pool) = &mut self.pool {
            pool.finish();
        }
    }
}

/// Evidence that a pool handed a job back. Only such a pool returns it.
#[derive(Drop)]
pub struct NoThread {
    shown: (),
}

impl Model for NoThread {
    ghost Value = { Unit {0} };

    ghost view = { λ n. tt };
}
