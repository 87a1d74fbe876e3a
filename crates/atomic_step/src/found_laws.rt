//! A law of what steps find. The function does nothing: its contract is the law.
ghost use Rattle.std.specs.Prelude.{ℕ, ◌<◌, ◌^◌};
ghost use Rattle.table_shape.specs.declared.shape.Shape.{Shape};
ghost use Rattle.table_shape.specs.Shape.{IsSound};
ghost use Rattle.atomic_step.specs.declared.step.Step.{Step};
ghost use Rattle.atomic_step.specs.Found.{HasSoundHandle};
ghost use Rattle.atomic_step.specs.SoundStep.{CanBeFound};

/// Of each step there is a word that it may find: no machine stands still for want of one.
pub fn steps_find_words()
    ensures law { (shape : Shape) (s : Step) → IsSound shape → HasSoundHandle s → (word : ℕ) × (word < 2 ^ 64) × CanBeFound shape s word }
{}
