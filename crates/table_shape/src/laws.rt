//! Laws of places and their indices. Each function does nothing: its contract is the law.
ghost use Rattle.std.specs.Prelude.{◌≡◌, ℕ, ◌+◌, ◌-◌, ◌^◌, ◌<◌, ◌≤◌};
ghost use Rattle.table_shape.specs.declared.shape.Shape.{Shape};
ghost use Rattle.table_shape.specs.declared.place.Place.{Place};
ghost use Rattle.table_shape.specs.Shape.{heads_of, words_of};
ghost use Rattle.table_shape.specs.Place.{IsInside, index_of};

/// The rows from one level up to another have together the difference of two powers.
pub fn heads_are_a_difference()
    ensures law { (low high : ℕ) → low ≤ high → heads_of low (high - low) + 2 ^ low ≡ 2 ^ high }
{}

/// Each word's index is below the number of words.
pub fn indices_are_inside()
    ensures law { (shape : Shape) (place : Place) → IsInside shape place → index_of shape place < words_of shape }
{}

/// No two places have one index.
pub fn places_with_one_index_are_equal()
    ensures law { (shape : Shape) (a b : Place) → IsInside shape a → IsInside shape b → index_of shape a ≡ index_of shape b → a ≡ b }
{}

/// Each index below the number of words is that of a place.
pub fn each_index_is_of_a_place()
    ensures law { (shape : Shape) (index : ℕ) → index < words_of shape → (place : Place) × IsInside shape place × (index_of shape place ≡ index) }
{}
