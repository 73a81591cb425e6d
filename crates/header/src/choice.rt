// The choice of pilots.
ghost use Rattle.std.specs.Prelude.{◌≡◌, false, leb, MatchResult};
ghost use Rattle.bits.specs.declared.checks.Refusal.TheVariants as refusal;
ghost use Rattle.header.specs.Descriptor.{choice_number, pilots_on};

use bits::Refusal;

// Whether a frame has pilots: whoever holds a choice need not ask again whether its number is one.
#[derive(Clone, Copy, Debug, PartialEq, Eq)]
pub enum Pilots {
    Off = 0,
    On = 1,
}

// The choice with a number. Checks: 14, it is 0 or 1.
impl TryFrom<u64> for Pilots {
    type Error = Refusal;

    ghost try_from_gives = { λ number result. MatchResult result (λ choice. choice_number choice ≡ number) (λ e. (leb number pilots_on ≡ false) × (e ≡ refusal.Pilots)) };

    fn try_from(number: u64) -> Result<Pilots, Refusal> {
        match number {
            0 => Ok(Pilots::Off),
            1 => Ok(Pilots::On),
            _ => Err(Refusal::Pilots),
        }
    }
}

// The choice's number: the enum's own, which `as` reads.
impl From<Pilots> for u64 {
    ghost from_gives = { λ choice number. number ≡ choice_number choice };

    fn from(choice: Pilots) -> u64 {
        choice as u64
    }
}
