// How often a value is used, as far as lowering asks.
ghost use Rattle.std.specs.Prelude.{◌≡◌, length, slice_index_or, slice_set};
ghost use Rattle.analysis.specs.Marks.{turns, cleared};
ghost use Rattle.analysis.specs.Uses.{raised, use_state_number};
ghost use Rattle.analysis.specs.declared.states.ValueUseState.TheVariants.{Unused, Multiple};

use clif::entities::{EntityRef, Value};
use std::marker::Model;

// Multiple: several instructions use the value, or one that could itself be emitted in several places.
#[derive(Clone, Copy, PartialEq, Eq, Debug)]
pub enum ValueUseState {
    Unused = 0,
    Once = 1,
    Multiple = 2,
}

// The state of each value, by number, in lent storage. No `SecondaryMap`: what stands beyond a function's values stays.
#[derive(Drop)]
pub struct UseStates<'a> {
    states: &'a mut [ValueUseState],
}

impl<'a> Model for UseStates<'a> {
    ghost use Rattle.std.specs.Prelude.{List};
    ghost use Rattle.analysis.specs.declared.states.ValueUseState.{ValueUseState};

    ghost Value = { List ValueUseState };

    ghost view = { λ t. t.states.now };
}

impl From<ValueUseState> for u8 {
    ghost from_gives = { λ s n. n ≡ use_state_number s };

    fn from(state: ValueUseState) -> u8 {
        state as u8
    }
}

impl ValueUseState {
    // Whether one use more makes it Multiple for the first time.
    fn turns(self) -> bool
        ensures { result ≡ turns self }
    {
        self == ValueUseState::Once
    }

    // Adds one use.
    pub fn inc(&mut self)
        ensures { self.new ≡ raised self.old }
    {
        *self = match self {
            ValueUseState::Unused => ValueUseState::Once,
            ValueUseState::Once | ValueUseState::Multiple => ValueUseState::Multiple,
        };
    }
}

impl<'a> UseStates<'a> {
    // The states as they stand in the slice.
    pub fn new(states: &'a mut [ValueUseState]) -> Self
        ensures { result ≡ states.old }
    {
        UseStates { states }
    }

    // The state of a value; one that has no place is unused.
    pub fn get(&self, value: Value) -> ValueUseState
        ensures { result ≡ slice_index_or self.now value.0 Unused }
    {
        self.states
            .get(value.index())
            .copied()
            .unwrap_or(ValueUseState::Unused)
    }

    // How many values have a place.
    pub fn len(&self) -> usize
        ensures { result ≡ length self.now }
    {
        self.states.len()
    }

    // The first n values are unused.
    pub(crate) fn clear(&mut self, n: usize)
        ensures { self.new ≡ cleared n self.old }
    {
        let n = n.min(self.states.len());
        // `[..n].fill(..)` was tried: the proof then knew the length alone of what is written.
        self.states[0..n].fill(ValueUseState::Unused);
    }

    // Adds one use of a value. Answers whether it is Multiple from now on.
    pub(crate) fn mark(&mut self, value: Value) -> bool
        ensures answer { result ≡ turns (slice_index_or self.old value.0 Multiple) }
        ensures after { self.new ≡ slice_set self.old value.0 (raised (slice_index_or self.old value.0 Multiple)) }
    {
        // By index: `get_mut` does not say what the slice ends as.
        let v = value.index();
        if v >= self.states.len() {
            return false;
        }
        let turns = self.states[v].turns();
        self.states[v].inc();
        turns
    }
}
