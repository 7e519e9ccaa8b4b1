// The number that an answer tells, as code.
#![tactic(auto)]

ghost use Rattle.std.specs.Prelude.{◌≡◌};
ghost use Rattle.flow.specs.Answers.{number_told};

use flow::Refusal;

// The table's number of a refusal, or 0 where the call is accepted: what is told and stored of a call is one number, so no Option stands here.
pub fn number_of<T: Drop>(answer: Result<T, Refusal>) -> u64
    ensures { result ≡ number_told answer }
{
    match answer {
        Err(refusal) => refusal.into(),
        Ok(_) => 0,
    }
}
