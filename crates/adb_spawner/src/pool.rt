//! Threads that run jobs of one type: one that has run its job waits for the next.

ghost use Rattle.std.specs.Prelude.{◌≡◌, IfOk, IfErr, is_err, vec_len};
ghost use Rattle.adb_spawner.specs.WorkerPool.{Starts, with_one};

use crate::job::Job;
use std::alloc::{AllocError, Global};
use std::collections::VecDeque;
use std::marker::Model;
use std::sync::{Arc, Condvar, Mutex, Wait};
use std::thread;
use std::thread::{JoinHandle, Threads};

/// The jobs that no thread has taken yet. There is a thread for each: one that waits, or one that
/// was started for it.
#[derive(Drop)]
struct Queue<J: Job + Send + Drop> {
    jobs: VecDeque<J>,
    /// The number of threads that wait for a job.
    waiting: usize,
    /// Whether no more jobs come.
    over: bool,
}

/// The state that the threads share.
#[derive(Drop)]
struct Shared<J: Job + Send + Drop> {
    queue: Mutex<Queue<J>>,
    came: Condvar,
}

/// Threads that were started and not waited for yet. Contracts see their number.
#[derive(Drop)]
pub(crate) struct Pool<
    W: Threads + Wait + Copy + Send + Sync + Drop + 'static,
    J: Job + Send + Drop + 'static,
> {
    rt: W,
    shared: Arc<Shared<J>, Global>,
    handles: Vec<JoinHandle<()>>,
}

impl<W: Threads + Wait + Copy + Send + Sync + Drop + 'static, J: Job + Send + Drop + 'static> Model
    for Pool<W, J> {
    ghost use Rattle.std.specs.Prelude.{ℕ, vec_len};

    ghost Value = { ℕ };

    ghost view = { λ pool. vec_len pool.handles };
}

impl<W: Threads + Wait + Copy + Send + Sync + Drop + 'static, J: Job + Send + Drop + 'static> Pool<
    W,
    J,
> {
    /// Returns a pool without threads.
    pub(crate) fn new(rt: W, alloc: Global) -> Result<Pool<W, J>, AllocError>
        ensures { IfOk result (λ pool. pool ≡ 0) }
    {
        let queue = Queue {
            jobs: VecDeque::new(alloc),
            waiting: 0,
            over: false,
        };
        let shared = Shared {
            queue: Mutex::new(queue),
            came: Condvar::new(),
        };
        Ok(Pool {
            rt,
            shared: Arc::new(alloc, shared)?,
            handles: Vec::new(alloc),
        })
    }

    /// Hands a job to a waiting thread, or to one that is started for it. Returns the job, not run,
    /// if neither exists.
    pub(crate) fn spawn(&mut self, job: J) -> Result<(), J>
        ensures back { IfErr result (λ back. back ≡ job) }
        ensures starts { Starts self.old (is_err result) self.new }
    {
        let mut queue = self.shared.queue.lock(&self.rt);
        let result = assign(&self.rt, &self.shared, &mut self.handles, &mut *queue, job);
        drop(queue);
        self.shared.came.notify_one();
        result
    }

    /// Waits for all jobs, and ends the threads.
    pub(crate) fn finish(&mut self)
        ensures { self.new ≡ 0 }
    {
        self.close(true);
        for handle in self.handles.drain(..) {
            handle.join(&self.rt);
        }
        self.close(false);
    }

    /// Sets whether no more jobs come.
    fn close(&mut self, over: bool)
        ensures { self.new ≡ self.old }
    {
        let mut queue = self.shared.queue.lock(&self.rt);
        queue.over = over;
        drop(queue);
        self.shared.came.notify_all();
    }
}

/// Queues a job for a waiting thread, or for one that is started for it.
fn assign<W: Threads + Wait + Copy + Send + Sync + Drop + 'static, J: Job + Send + Drop + 'static>(
    rt: &W,
    shared: &Arc<Shared<J>, Global>,
    handles: &mut Vec<JoinHandle<()>>,
    queue: &mut Queue<J>,
    job: J,
) -> Result<(), J>
    ensures back { IfErr result (λ back. back ≡ job) }
    ensures starts { Starts (vec_len handles.old) (is_err result) (vec_len handles.new) }
{
    if queue.jobs.reserve(1).is_err() {
        return Err(job);
    }
    let is_free = !handles.is_empty() && queue.jobs.len() < queue.waiting;
    if !is_free && !start(rt, shared, handles) {
        return Err(job);
    }
    queue.jobs.push_back_reserved(job);
    Ok(())
}

/// Starts a thread, if the system provides one.
fn start<W: Threads + Wait + Copy + Send + Sync + Drop + 'static, J: Job + Send + Drop + 'static>(
    rt: &W,
    shared: &Arc<Shared<J>, Global>,
    handles: &mut Vec<JoinHandle<()>>,
) -> bool
    ensures { vec_len handles.new ≡ with_one result (vec_len handles.old) }
{
    if handles.reserve(1).is_err() {
        return false;
    }
    let Ok(theirs) = Arc::try_clone(shared) else {
        return false;
    };
    let rt_theirs = *rt;
    match thread::spawn(rt, move || work(rt_theirs, theirs)) {
        Ok(handle) => {
            handles.push_reserved(handle);
            true
        }
        Err(_refused) => false,
    }
}

/// Runs each job that comes.
fn work<W: Wait + Drop, J: Job + Send + Drop>(rt: W, shared: Arc<Shared<J>, Global>) {
    for _ in rt.forever() {
        match next(&rt, &shared) {
            Some(job) => job.run(),
            None => return,
        }
    }
}

/// Waits for the next job. Returns `None` once no more come.
fn next<W: Wait, J: Job + Send + Drop>(rt: &W, shared: &Shared<J>) -> Option<J> {
    let mut queue = shared.queue.lock(rt);
    for _ in rt.forever() {
        if let Some(job) = queue.jobs.pop_front() {
            return Some(job);
        }
        if queue.over {
            return None;
        }
        queue.waiting = queue.waiting.saturating_add(1);
        queue = shared.came.wait(rt, queue);
        queue.waiting = queue.waiting.saturating_sub(1);
    }
    unreachable!()
}
