/// What lines are answered at.
pub trait Replying {
    ghost use Rattle.std.specs.Prelude.{ℕ, List, Option};

    /// Which bytes are a reply to a line, which is `None` where it is too long to be told.
    ghost replies: { Self → Option (List ℕ) → List ℕ → Type 0 };
}
