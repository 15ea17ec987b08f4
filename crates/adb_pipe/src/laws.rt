//! Consequences of the rule of a pipe, under every schedule of its two threads.

ghost use Rattle.std.specs.Prelude.{◌≡◌, ◌++◌, [], ◌∷◌, List, true};
ghost use Rattle.adb_pipe.specs.declared.rule.Item.{Item};
ghost use Rattle.adb_pipe.specs.declared.rule.Passed.{Passed};
ghost use Rattle.adb_pipe.specs.declared.rule.View.TheVariants.{Putter, Taker};
ghost use Rattle.adb_pipe.specs.Rule.{IsInOrder, chunks_in};

/// States that at every step the chunks that were put are those that were taken, followed by those
/// that the channel holds, in order.
#[tactic(auto, using(crate::proofs::Rules::held))]
pub fn put_is_taken_and_held()
    ensures { (items : List Item) (put taken : Passed)
        → IsInOrder items (Putter put ∷ Taker taken ∷ [])
        → put.chunks ≡ taken.chunks ++ chunks_in items }
{}

/// States that, after the input end has taken the end mark, every chunk that was put has been
/// taken, the mark was put after them, and the channel is empty.
#[tactic(auto, using(crate::proofs::Rules::whole))]
pub fn ended_pipe_is_whole()
    ensures { (items : List Item) (put taken : Passed)
        → IsInOrder items (Putter put ∷ Taker taken ∷ [])
        → taken.ended ≡ true → (put ≡ taken) × (items ≡ []) }
{}
