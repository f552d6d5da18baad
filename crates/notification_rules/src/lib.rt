// The INT reader's rules. Nothing runs here and no type is declared: what the reader answers, and what that means, is in specs/, the laws
// in proofs/. The code's answers are std's own, `Result<Option<usize>, Refusal>`.
#![tactic(auto)]
