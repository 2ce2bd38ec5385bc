//! A challenger that hands out a list of elements of any prime field of at most 31 bits.
ghost use Rattle.std.specs.Prelude.{◌≡◌, ◌<◌, ◌^◌, length};
ghost use Rattle.stark_bench.specs.Challenges.{after_four, found_by, four_drawn, script_bits, script_element, script_next, script_passes};
ghost use Rattle.stark_bench.specs.ChallengeFacts.{after_four_in_turn, four_in_turn, script_laws};

use crate::challenger::commitment::ClearCommitment;
use crate::challenger::coordinates::sample_coordinates;
use stark_fields::{Ext4, Modulus, Residue};
use stark_merkle::Root;
use stark_support::{
    CanObserve, CanSample, CanSampleBits, ExtensionChallenger, FieldChallenger, GrindingChallenger,
    checked_pow2,
};
use std::alloc::{AllocError, Global};
use std::marker::Model;

/// Hands out the elements of a list, round and round. What it observes changes nothing.
#[derive(Clone, Debug, Drop)]
pub struct ScriptChallenger<F> {
    list: Vec<F>,
    position: usize,
}

impl<F> Model for ScriptChallenger<F> {
    ghost use Rattle.std.specs.Prelude.{List, ℕ, length, ◌<◌};

    ghost Value = { List F × ℕ };

    ghost view = { λ s. (s.list.items, s.position) };

    ghost invariant = { λ s. s.position < length s.list.items };
}

impl<F> ScriptChallenger<F> {
    /// Begins at the start of a list that isn't empty.
    pub fn new(list: Vec<F>) -> ScriptChallenger<F>
        requires { 0 < length list.items }
        ensures { result ≡ (list.items, 0) }
    {
        ScriptChallenger { list, position: 0 }
    }
}

impl<M: Modulus, Kind> CanObserve<Residue<M, Kind>> for ScriptChallenger<Residue<M, Kind>> {
    ghost after_observe = { λ s _. s };

    fn observe(&mut self, _value: &Residue<M, Kind>) {}
}

impl<M: Modulus, Kind> CanObserve<ClearCommitment<Residue<M, Kind>>>
    for ScriptChallenger<Residue<M, Kind>> {
    ghost after_observe = { λ s _. s };

    fn observe(&mut self, _value: &ClearCommitment<Residue<M, Kind>>) {}
}

impl<M: Modulus, Kind> CanObserve<Root> for ScriptChallenger<Residue<M, Kind>> {
    ghost after_observe = { λ s _. s };

    fn observe(&mut self, _value: &Root) {}
}

impl<M: Modulus, Kind> CanSample<Residue<M, Kind>> for ScriptChallenger<Residue<M, Kind>> {
    ghost sample_of = { script_element };

    ghost after_sample = { script_next };

    fn sample(&mut self) -> Residue<M, Kind> {
        let element = self.list[self.position];
        self.position = (self.position + 1) % self.list.len();
        element
    }
}

impl<M: Modulus, Kind> CanSampleBits<usize> for ScriptChallenger<Residue<M, Kind>> {
    ghost bits_of = { script_bits };

    ghost after_bits = { λ s _. script_next s };

    /// The next element's number modulo `2^bits`. Of the p numbers below the modulus each answer is
    /// met by as many as p / 2^bits rounded up or down: by one or none where `2^bits` is above p.
    fn sample_bits(&mut self, bits: usize) -> usize
        requires { bits < 64 }
        ensures answer { result ≡ script_bits self.old bits }
        ensures state { self.new ≡ script_next self.old }
        ensures within { result < 2 ^ bits }
    {
        let element: Residue<M, Kind> = self.sample();
        element.value() as usize % (1 << bits)
    }
}

impl<M: Modulus, Kind> CanSample<Ext4<Residue<M, Kind>>> for ScriptChallenger<Residue<M, Kind>> {
    ghost sample_of = { four_drawn script_element script_next };

    ghost after_sample = { after_four script_next };

    /// The next four elements: the coordinates, the constant first.
    fn sample(&mut self) -> Ext4<Residue<M, Kind>> {
        sample_coordinates(self)
    }
}

impl<M: Modulus, Kind> ExtensionChallenger<Residue<M, Kind>, Ext4<Residue<M, Kind>>>
    for ScriptChallenger<Residue<M, Kind>> {
    ghost draws_coordinates = { four_in_turn script_element script_next };

    ghost leaves_state = { after_four_in_turn script_next };
}

impl<M: Modulus, Kind> FieldChallenger<Residue<M, Kind>> for ScriptChallenger<Residue<M, Kind>> {
    fn duplicate(&self, alloc: Global) -> Result<Self, AllocError> {
        let list = Vec::from_slice(alloc, &self.list)?;
        Ok(ScriptChallenger {
            list,
            position: self.position,
        })
    }
}

impl<M: Modulus, Kind> GrindingChallenger for ScriptChallenger<Residue<M, Kind>> {
    type Witness = Residue<M, Kind>;

    ghost passes = { script_passes };

    ghost after_check = { λ s _ _. s };

    ghost ground_witness = { found_by script_passes };

    /// The first of the numbers 0, 1, .. below the modulus whose element passes, which is
    /// `2^bits - 1`; None where that isn't below the modulus.
    fn grind(&mut self, bits: usize) -> Option<Residue<M, Kind>> {
        for number in 0..M::MODULUS {
            let witness = Residue::new(number);
            if self.check_witness(bits, witness) {
                return Some(witness);
            }
        }
        None
    }

    fn check_witness(&mut self, bits: usize, witness: Residue<M, Kind>) -> bool {
        match checked_pow2(bits) {
            Some(power) => (witness.value() as usize + 1) % power == 0,
            None => false,
        }
    }

    ghost grinding = { script_laws };
}
