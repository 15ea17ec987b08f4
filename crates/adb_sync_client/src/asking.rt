//! Requests about a path.

ghost use Rattle.std.specs.Prelude.{◌≡◌, ◌≤◌, ◌++◌, List, ℕ, length, take, drop, IfOk};
ghost use Rattle.adb_sync_client.specs.Asking.{Asks, Feeds, FeedsToEnd, Gives};
ghost use Rattle.adb_sync_client.specs.Reading.{with_said};
ghost use Rattle.adb_sync_client.specs.Values.{step_map};
ghost use Rattle.adb_sync_client.specs.declared.step.Step.TheVariants.{More};

use crate::kind::AnswerKind;
use crate::reading::Reading;
use crate::request::MAX_ASKED_PATH;
use crate::step::Step;
use crate::told::Told;
use adb_outside::ByteQueue;
use std::alloc::{AllocError, Global};
use std::marker::{Model, PhantomData};

/// The value of the answer to a request about a path.
pub trait PathValue: Drop + Sized {
    ghost use Rattle.std.specs.Prelude.{◌≡◌, ◌≤◌, List, ℕ, length, IfOk};
    ghost use Rattle.adb_sync_client.specs.declared.kind.AnswerKind.{AnswerKind};
    ghost use Rattle.adb_sync_client.specs.declared.step.Step.{Step};
    ghost use Rattle.adb_sync_client.specs.Values.{Said, answer_value, step_map};

    /// The kind of the answer.
    ghost kind: { AnswerKind };

    /// The bytes of the request.
    ghost text: { List ℕ → List ℕ };

    /// The value, as a part of the content of the answers.
    ghost part: { Said → Self };

    /// The value of answer bytes.
    ghost value: { List ℕ → Step Self };

    /// Returns the kind of the answer.
    fn kind() -> AnswerKind
        ensures { result ≡ kind };

    /// Returns the bytes of the request, to be taken from the start.
    fn request(alloc: Global, path: &[u8]) -> Result<ByteQueue, AllocError>
        requires { length path.now ≤ MAX_ASKED_PATH }
        ensures { IfOk result (λ queue. queue.bytes ≡ text path.now) };

    /// Returns a copy of the value in the answers.
    fn of(told: &Told) -> Result<Self, AllocError>
        ensures { IfOk result (λ copy. copy ≡ part told.now) };

    /// Moves the value out of the answers. Allocates nothing.
    fn give(told: &mut Told) -> Self
        ensures { result ≡ part told.old };

    /// The value of answer bytes is this part of their content.
    ghost is_part: { (bytes : List ℕ) → value bytes ≡ step_map part (answer_value kind bytes) };
}

/// A machine that makes one request about a path. The answer is a `V`.
#[derive(Drop)]
pub struct PathAsk<V: PathValue> {
    out: ByteQueue,
    reading: Reading,
    value: PhantomData<V>,
}

impl<V: PathValue> Model for PathAsk<V> {
    ghost use Rattle.adb_sync_client.specs.Asking.{Asking};

    ghost Value = { Asking };

    ghost view = { λ m. record { left = m.out.bytes; read = m.reading } };
}

impl<V: PathValue> PathAsk<V> {
    /// Returns a machine that makes a request about a path. Fails if an allocation fails.
    pub fn new(alloc: Global, path: &[u8]) -> Result<PathAsk<V>, AllocError>
        requires { length path.now ≤ MAX_ASKED_PATH }
        ensures { IfOk result (λ new. Asks V.kind (V.text path.now) new) }
    {
        Ok(PathAsk {
            out: V::request(alloc, path)?,
            reading: Reading::new(alloc, V::kind()),
            value: PhantomData,
        })
    }

    /// Returns the bytes of the request that were not taken yet.
    pub fn out(&self) -> &[u8]
        ensures { result.now ≡ self.now.left }
    {
        self.out.as_slice()
    }

    /// Removes the first `n` bytes of the request, which were taken. Allocates nothing.
    pub fn taken(&mut self, n: usize)
        requires { n ≤ length self.old.left }
        ensures left { self.new ≡ record self.old { left = drop n self.old.left } }
        ensures whole { (text gone : List ℕ) → Gives text gone self.old.left
            → Gives text (gone ++ take n self.old.left) self.new.left }
    {
        self.out.take(n);
    }

    /// Takes the next piece of the answer bytes, of any length. Returns the meaning of all of them,
    /// at each call. The value is a copy. If an allocation fails, the machine is spent: every later
    /// call returns the error.
    pub fn feed(&mut self, piece: &[u8]) -> Result<Step<V>, AllocError>
        ensures { Feeds V.kind V.value self.old piece.now result self.new }
    {
        let step = self.reading.feed(piece)?;
        let step = valued(step, &self.reading.told);
        self.reading.spend_on(step)
    }

    /// Does the same, if nothing is fed after the end of the answer: the value is moved out, and
    /// not copied. The errors are those of `feed`.
    pub fn feed_to_end(&mut self, piece: &[u8]) -> Result<Step<V>, AllocError>
        ensures { FeedsToEnd V.kind V.value self.old piece.now result self.new }
    {
        let step = self.reading.feed(piece)?;
        Ok(given(step, &mut self.reading.told))
    }
}

/// Returns a step with a copy of the value in the answers.
fn valued<V: PathValue>(step: Step<()>, told: &Told) -> Result<Step<V>, AllocError>
    ensures { IfOk result (λ given. given ≡ step_map V.part (with_said told.now step)) }
{
    Ok(match step {
        Step::More => Step::More,
        Step::Done(()) => Step::Done(V::of(told)?),
        Step::Refused(text) => Step::Refused(text),
        Step::BadAnswer { offset } => Step::BadAnswer { offset },
    })
}

/// Returns a step with the value moved out of the answers.
fn given<V: PathValue>(step: Step<()>, told: &mut Told) -> Step<V>
    ensures value { result ≡ step_map V.part (with_said told.old step) }
    ensures stays { result ≡ More → told.new ≡ told.old }
{
    match step {
        Step::More => Step::More,
        Step::Done(()) => Step::Done(V::give(told)),
        Step::Refused(text) => Step::Refused(text),
        Step::BadAnswer { offset } => Step::BadAnswer { offset },
    }
}
