// Judging a text line by line while it comes in pieces.

ghost use Rattle.std.specs.Prelude.{◌≡◌, ℕ, ◌++◌, ◌≤◌, ◌^◌, List, None, IfOk, IfSome, length};

use dp_domain::Memory;

/// What judges the lines of a text while it comes in pieces, and answers as soon as it refuses one.
pub trait LineJudge {
    /// What is answered.
    type Answer;

    /// These bytes have come so far, and each line whose end has come passes.
    ghost behind: { Self → List ℕ → Type 0 };

    /// This is the answer for the text.
    ghost due: { Self → List ℕ → Self.Answer → Type 0 };

    /// The answer refuses a line, whatever follows it.
    ghost refuses: { Self.Answer → Type 0 };

    /// None of the lines of the text whose end has come is refused, in the words of the kind.
    ghost unrefused: { Self → List ℕ → Type 0 };

    /// Takes the next piece, and judges each line whose end has come. It answers where one is refused; behind such an
    /// answer nothing is promised of later calls.
    fn feed(&mut self, piece: &[u8]) -> Result<Option<Self::Answer>, Memory>
        requires { (front : List ℕ) × behind self.old front × (length (front ++ piece.now) ≤ 2 ^ 62) }
        ensures going { IfOk result (λ answer. answer ≡ None → (front : List ℕ) → behind self.old front → behind self.new (front ++ piece.now)) }
        ensures refused { IfOk result (λ answer. IfSome answer (λ a. refuses a × ((front more : List ℕ) → behind self.old front → due self.old (front ++ piece.now ++ more) a))) }
        ensures same_due { (text : List ℕ) (a : Self.Answer) → due self.new text a → due self.old text a }
        ensures same_unrefused { (text : List ℕ) → unrefused self.new text → unrefused self.old text };

    /// The answer where no more bytes come.
    fn finish(self) -> Result<Self::Answer, Memory>
        requires { (front : List ℕ) × behind self front }
        ensures { IfOk result (λ answer. (front : List ℕ) → behind self front → due self front answer) };

    /// What was judged so far is not refused.
    ghost quiet: { (j : Self) (front : List ℕ) → behind j front → unrefused j front };
}
