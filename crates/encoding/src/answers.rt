// The numbers that tell a refusal, an answer and a verdict.
ghost use Rattle.std.specs.Prelude.{◌+◌, ◌*◌, ◌^◌, ◌<◌, ◌≡◌};
ghost use Rattle.refusals.specs.Answers.{PlaceFits, refusal_given, checked_given, amount_given, verdict_given, code_of, answer_of};
ghost use Rattle.encoding.specs.Verdicts.{verdict_code};

use refusals::Refusal;

// 2^63 + number × 2^32 + place.
pub fn told(number: u8, place: usize) -> u64
    requires { place < 2 ^ 32 }
    ensures { result ≡ 2 ^ 63 + number * 2 ^ 32 + place }
{
    9223372036854775808 + (number as u64) * 4294967296 + place as u64
}

// A refusal: its number and its place.
pub fn refused(r: Refusal) -> u64
    requires { PlaceFits (refusal_given r) }
    ensures { result ≡ answer_of r }
{
    told(refusals::number(r), refusals::place(r))
}

// 0 done. This and the next two have one arm in common, which is `refused`. One function for all, of a Result<u64, Refusal>, is no plainer: each would be
// `code(answer.map(..))`, a closure and a call where an arm stands, and would have to carry what is known of the refusal's place through `map`.
pub fn checked_code(answer: Result<(), Refusal>) -> u64
    requires { PlaceFits (checked_given answer) }
    ensures { result ≡ code_of (checked_given answer) }
{
    match answer {
        Ok(()) => 0,
        Err(refusal) => refused(refusal),
    }
}

// How many: bytes that are written, or rows.
pub fn amount_code(answer: Result<usize, Refusal>) -> u64
    requires { PlaceFits (amount_given answer) }
    ensures { result ≡ code_of (amount_given answer) }
{
    match answer {
        Ok(n) => n as u64,
        Err(cause) => refused(cause),
    }
}

// 1 yes, 0 no.
pub fn verdict_code(verdict: Result<bool, Refusal>) -> u64
    requires { PlaceFits (verdict_given verdict) }
    ensures { result ≡ verdict_code verdict }
{
    match verdict {
        Ok(granted) => u64::from(granted),
        Err(r) => refused(r),
    }
}
