//! Laws of due times. Each function does nothing; its contract is the law.

ghost use Rattle.std.specs.Prelude.{◌≡◌, ◌≤◌, ◌++◌, ◌∷◌, [], ℕ, ℤ, pos, ◌+ℤ◌, ◌≤ℤ◌, All, IfSome, List, Option, Some};
ghost use Rattle.stream_play.specs.Due.{due_of, first_of};

/// A line is never due before the line in front of it.
pub fn dues_never_fall()
    ensures { (speed : ℕ) (timestamps : List (Option ℤ)) (timestamp : Option ℤ)
        → due_of speed timestamps ≤ due_of speed (timestamps ++ timestamp ∷ []) }
{}

/// At a greater speed no line is due later.
pub fn greater_speed_gives_no_later_due()
    ensures { (slow fast : ℕ) (timestamps : List (Option ℤ)) → 1 ≤ slow → slow ≤ fast
        → due_of fast timestamps ≤ due_of slow timestamps }
{}

/// At speed 1, a message that no earlier message is later than is due at its own time, counted from
/// the first message.
pub fn at_speed_1_a_due_is_the_time_from_the_first()
    ensures { (timestamps : List (Option ℤ)) (first timestamp : ℤ) → first_of (timestamps ++ Some timestamp ∷ []) ≡ Some first
        → All (λ earlier. IfSome earlier (λ m. m ≤ℤ timestamp)) timestamps
        → timestamp ≡ (first +ℤ pos (due_of 1 (timestamps ++ Some timestamp ∷ []))) }
{}
