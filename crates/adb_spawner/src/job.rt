//! The jobs of a pool.

/// A job, which is run once.
pub trait Job {
    /// The condition that holds once the job was run.
    ghost done: { Self → Type 0 };

    fn run(self)
        ensures { done self };
}
