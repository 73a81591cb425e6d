// A state of the trellis.
ghost use Rattle.std.specs.Prelude.{◌≡◌, true, false, ◌%◌, ◌/◌, MatchResult};
ghost use Rattle.bits.specs.declared.checks.Refusal.TheVariants as refusal;
ghost use Rattle.trellis.specs.Trellis.{zero-state, ◌⊕ₛ◌, parity, next, state_number, state_of, is_state, termination_of};

use bits::Refusal;
use std::marker::Model;

// The number of the last state, 11.
const LAST: u64 = 3;

// The state x of equation 6-2: its two bits. A contract sees the pair of them.
#[derive(Clone, Copy, Debug, PartialEq, Eq)]
pub struct State {
    x0: u8,
    x1: u8,
}

impl Model for State {
    ghost use Rattle.std.specs.Prelude.{◌≤◌};
    ghost use Rattle.trellis.specs.Trellis.{State};

    ghost Value = { State };

    ghost view = { λ s. (s.x0, s.x1) };

    ghost invariant = { λ s. (s.x0 ≤ 1) × (s.x1 ≤ 1) };

    ghost inverse = { λ x. record { x0 = x.0; x1 = x.1 } };
}

// The two output bits of a step, and the state that follows.
#[derive(Clone, Copy, Debug, PartialEq, Eq)]
pub struct Step {
    pub systematic: u8,
    pub parity: u8,
    pub state: State,
}

// The two terminating steps: the systematic and the parity bit of each.
#[derive(Clone, Copy, Debug, PartialEq, Eq)]
pub struct Termination {
    pub s0: u8,
    pub p0: u8,
    pub s1: u8,
    pub p1: u8,
}

impl State {
    // The state 00, in which a run begins and ends.
    pub const ZERO: State = State { x0: 0, x1: 0 };

    // The state with two bits, each the lowest of a number: every sum here is modulo 2, and so no other bit of them counts.
    pub fn of(x0: u8, x1: u8) -> State
        ensures { result ≡ (x0 % 2, x1 % 2) }
    {
        State {
            x0: x0 % 2,
            x1: x1 % 2,
        }
    }

    // The state whose number is the two lowest bits of `number`.
    pub fn from_low_bits(number: u8) -> State
        ensures { result ≡ (number / 2 % 2, number % 2) }
    {
        State::of(number / 2, number)
    }

    // The parity bit of a step on u. Only u is taken modulo 2, since the state's bits are bits: a remainder of the sum would keep the next step
    // waiting, and steps::outer takes 1.4 times as long with it.
    pub fn parity(self, u: u8) -> u8
        ensures { result ≡ parity self u }
    {
        (u % 2) ^ self.x1
    }

    // The state after a step on u.
    pub fn next(self, u: u8) -> State
        ensures { result ≡ next self u }
    {
        State {
            x0: self.x1,
            x1: self.x0 ^ self.parity(u),
        }
    }

    // The sum of two states, bit by bit.
    pub fn sum(self, other: State) -> State
        ensures { result ≡ self ⊕ₛ other }
    {
        State {
            x0: bits::sum(self.x0, other.x0),
            x1: bits::sum(self.x1, other.x1),
        }
    }

    // The two steps that lead from this state to the state 00.
    pub fn terminate(self) -> Termination
        ensures { result ≡ termination_of self }
    {
        let s0 = bits::sum(self.x0, self.x1);
        let second = self.next(s0);
        let s1 = bits::sum(second.x0, second.x1);
        Termination {
            s0,
            p0: self.parity(s0),
            s1,
            p1: second.parity(s1),
        }
    }
}

// The number 2 * x0 + x1 of a state.
impl From<State> for u8 {
    ghost from_gives = { λ state number. number ≡ state_number state };

    fn from(state: State) -> u8 {
        2 * state.x0 + state.x1
    }
}

// The state with a number 2 * x0 + x1. Checks: 3, it is 0 to 3.
impl TryFrom<u64> for State {
    type Error = Refusal;

    ghost try_from_gives = { λ number result. MatchResult result (λ x. (is_state number ≡ true) × (x ≡ state_of number)) (λ e. (is_state number ≡ false) × (e ≡ refusal.Element)) };

    fn try_from(number: u64) -> Result<State, Refusal> {
        if LAST < number {
            return Err(Refusal::Element);
        }
        // By `as`: std has no `From` that narrows, and a number up to 3 loses nothing.
        Ok(State::from_low_bits(number as u8))
    }
}
