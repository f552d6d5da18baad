// The paper's numbers of the INT reader's answers, and the offset that goes with each. Of an error only its number is asked, as in answer_numbers.
#![tactic(auto, unfolding(notification_rules::specs::Told::finding_told))]

ghost use Rattle.std.specs.Prelude.{◌≡◌, MatchResult, Ok};
ghost use Rattle.notification_rules.specs.Finding.{finding_number, finding_offset};
ghost use Rattle.notification_rules.specs.Told.{finding_told};

// The number of the INT reader's answer.
pub fn finding_number<E: Into<u8>>(finding: Result<Option<usize>, E>) -> u8
    ensures { MatchResult finding (λ place. result ≡ finding_number (finding_told (Ok place))) (λ refusal. E.converts refusal result) }
{
    match finding {
        Ok(Some(_)) => 3,
        Ok(None) => 4,
        Err(refusal) => refusal.into(),
    }
}

// The offset that the INT reader's answer carries.
pub fn finding_offset<E: Drop>(finding: Result<Option<usize>, E>) -> usize
    ensures { MatchResult finding (λ place. result ≡ finding_offset (finding_told (Ok place))) (λ _. result ≡ 0) }
{
    match finding {
        Ok(Some(offset)) => offset,
        Ok(None) | Err(_) => 0,
    }
}
