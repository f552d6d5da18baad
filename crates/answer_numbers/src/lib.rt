// The paper's numbers of the receiver's and the sender's answers, and the length that goes with each, for callers such as C that have no enums.
// Of an error only its number is asked, so that a caller who keeps refusals as numbers (`u8`) gives them as they are.
#![tactic(auto)]

ghost use Rattle.std.specs.Prelude.{◌≡◌, MatchResult, Ok};
ghost use Rattle.rules.specs.Send.{sending_number, sending_length};
ghost use Rattle.rules.specs.Step.{number_of, length_of};
ghost use Rattle.rules.specs.Told.{answer_told, sending_told};

use rules::Reception;

// The number of a receiver's answer.
#[tactic(auto, unfolding(rules::specs::Step::number_of, rules::specs::Told::answer_told))]
pub fn number_of<E: Into<u8>>(answer: Result<Reception, E>) -> u8
    ensures { MatchResult answer (λ reception. result ≡ number_of (answer_told (Ok reception))) (λ refusal. E.converts refusal result) }
{
    match answer {
        Ok(Reception::Delivered(_)) => 0,
        Ok(Reception::Stored) => 1,
        Ok(Reception::PassedBy) => 2,
        Err(refusal) => refusal.into(),
    }
}

// The unit length that a receiver's answer carries.
#[tactic(auto, unfolding(rules::specs::Step::length_of, rules::specs::Told::answer_told))]
pub fn length_of<E: Drop>(answer: Result<Reception, E>) -> usize
    ensures { MatchResult answer (λ reception. result ≡ length_of (answer_told (Ok reception))) (λ _. result ≡ 0) }
{
    match answer {
        Ok(Reception::Delivered(length)) => length,
        Ok(Reception::Stored) => 0,
        Ok(Reception::PassedBy) => 0,
        Err(_) => 0,
    }
}

// The number of a sender's answer.
#[tactic(auto, unfolding(rules::specs::Send::sending_number, rules::specs::Told::sending_told))]
pub fn sending_number<E: Into<u8>>(sending: Result<usize, E>) -> u8
    ensures { MatchResult sending (λ length. result ≡ sending_number (sending_told (Ok length))) (λ unsent. E.converts unsent result) }
{
    match sending {
        Ok(_) => 0,
        Err(unsent) => unsent.into(),
    }
}

// The total length that a sender's answer gives.
#[tactic(auto, unfolding(rules::specs::Send::sending_length, rules::specs::Told::sending_told))]
pub fn sending_length<E: Drop>(sending: Result<usize, E>) -> usize
    ensures { MatchResult sending (λ length. result ≡ sending_length (sending_told (Ok length))) (λ _. result ≡ 0) }
{
    sending.unwrap_or(0)
}
