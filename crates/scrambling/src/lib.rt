// The code numbers of the physical-layer randomizer (000, annex E).
#![tactic(auto)]

ghost use Rattle.std.specs.Prelude.{◌≡◌, true, false, IfOk, MatchResult, option_map};
ghost use Rattle.bits.specs.Checks.{number_of};
ghost use Rattle.bits.specs.declared.checks.Refusal.TheVariants as refusal;
ghost use Rattle.scrambling.specs.Code.{code_number, is_code};

use bits::Refusal;

// The last code number, 2^18 - 2.
pub const LAST: u64 = 262142;

// A code number that there is: whoever holds one need not ask again whether there is such a sequence.
#[derive(Clone, Copy, Debug, PartialEq, Eq)]
pub struct CodeNumber {
    pub number: u64,
    ghost is: { is_code number ≡ true },
}

// Checks: 16.
impl TryFrom<u64> for CodeNumber {
    type Error = Refusal;

    ghost try_from_gives = { λ number result. MatchResult result (λ code. (is_code number ≡ true) × (code.number ≡ number)) (λ e. (is_code number ≡ false) × (e ≡ refusal.Code)) };

    fn try_from(number: u64) -> Result<CodeNumber, Refusal> {
        if LAST < number {
            return Err(Refusal::Code);
        }
        Ok(CodeNumber { number })
    }
}

// The code that a number names, if there is such a code; none where nothing is scrambled.
// Checks: 16.
pub fn check(code: Option<u64>) -> Result<Option<CodeNumber>, Refusal>
    ensures number { number_of result ≡ code_number code }
    ensures known { IfOk result (λ code_of. option_map (λ c. c.number) code_of ≡ code) }
{
    match code {
        None => Ok(None),
        Some(number) => Ok(Some(CodeNumber::try_from(number)?)),
    }
}
