// Opened to the segmented encoder alone: where the segments end, and the starting states.
ghost use Rattle.std.specs.Prelude.{◌≡◌, true};
ghost use Rattle.std.specs.Iterator.{YieldsFirst, item_count};
ghost use Rattle.cuts.specs.Cuts.{is_few, rises_from, padded, stops};
ghost use Rattle.cuts.specs.Propagation.{propagated, worked_out};

use crate::SEGMENTS;
use std::marker::Model;
use std::slice;
use trellis::State;

// The places where the segments between cuts end, in order: each at its cut, the last where the input does. A contract sees the list of those
// that are left.
#[derive(Drop)]
pub struct Stops<'a> {
    cuts: slice::Iter<'a, u16>,
    last: Option<usize>,
}

impl<'a> Model for Stops<'a> {
    ghost use Rattle.std.specs.Prelude.{◌++◌, List, ℕ};
    ghost use Rattle.std.specs.Option.{option_to_list};
    ghost use Rattle.std.specs.Slice.Iter.{iter_rest};

    ghost Value = { List ℕ };

    ghost view = { λ s. iter_rest s.cuts ++ option_to_list s.last };
}

impl<'a> Stops<'a> {
    // Those of an input of so many bits.
    pub fn of(cuts: &'a [u16], long: usize) -> Stops<'a>
        ensures { result ≡ stops long cuts.now }
    {
        Stops {
            cuts: cuts.iter(),
            last: Some(long),
        }
    }
}

impl<'a> Iterator for Stops<'a> {
    type Item = usize;

    ghost next_gives = { YieldsFirst (λ s. s) };

    ghost remaining = { item_count (λ s. s) };

    fn next(&mut self) -> Option<usize> {
        match self.cuts.next() {
            Some(&cut) => Some(usize::from(cut)),
            None => self.last.take(),
        }
    }
}

// The starting states of the segments between cuts, from the states in which their runs from 00 end (6-6). No bit is looked at.
pub fn starts(cuts: &[u16], ended: &[u8]) -> [u8; SEGMENTS]
    requires { (is_few cuts.now ≡ true) × (rises_from 0 cuts.now ≡ true) }
    ensures { result ≡ padded (worked_out cuts.now ended.now) }
{
    let mut started = [0; SEGMENTS];
    let mut state = State::ZERO;
    let mut from = 0;
    // By index: of what is written through `iter_mut` beside another iterator the proof knows the length alone.
    for (j, (&cut, &end)) in cuts.iter().zip(ended).enumerate() {
        state = propagate(state, cut - from).sum(State::from_low_bits(end));
        started[j + 1] = u8::from(state);
        from = cut;
    }
    started
}

// The state after n bits 0: the step's matrix to the power n, times a state. The powers have period 3 (6-7).
fn propagate(state: State, n: u16) -> State
    ensures { result ≡ propagated n state }
{
    (0..n % 3).fold(state, |state, _| state.next(0))
}
