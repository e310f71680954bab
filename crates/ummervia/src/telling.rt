// How C is told of an answer that may refuse: its number, 0 where the call accepts, and `at`.
ghost use Rattle.std.specs.Prelude.{◌≡◌};
ghost use Rattle.counters.specs.Refusals.{answer_number, answer_index, at_of};

use counters::refusal::Refusal;

// The number.
pub fn number<T: Drop>(answer: Result<T, Refusal>) -> u32
    ensures { result ≡ answer_number answer }
{
    match answer {
        Ok(_) => 0,
        Err(refusal) => refusal.number(),
    }
}

// The index of the first bad value with number 12, else 0.
pub fn index<T: Drop>(answer: Result<T, Refusal>) -> u64
    ensures { result ≡ answer_index answer }
{
    match answer {
        Ok(_) => 0,
        Err(refusal) => refusal.at(),
    }
}

// Both of a call whose answer is how many values it wrote, which is where `at` then is.
pub fn tell(answer: Result<u64, Refusal>, at: &mut u64) -> u32
    ensures { (result ≡ answer_number answer) × (at.new ≡ at_of answer) }
{
    match answer {
        Ok(count) => {
            *at = count;
            0
        }
        Err(refusal) => {
            *at = refusal.at();
            refusal.number()
        }
    }
}
