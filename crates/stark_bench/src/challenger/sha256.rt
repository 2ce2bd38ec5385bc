//! A challenger over SHA-256, for the elements of any prime field of at most 31 bits.
ghost use Rattle.std.specs.Prelude.{◌≡◌, ◌<◌, ◌^◌, ◌++◌, ◌∷◌, replicate};
ghost use Rattle.stark_bench.specs.Challenges.{absorbed, after_bits, after_draw, after_element, after_four, commitment_elements, drawn_bits, drawn_element, found_by, four_drawn, leading, sha_after_check, sha_passes};
ghost use Rattle.stark_support.specs.Sponge.{observed_all};
ghost use Rattle.stark_fields.specs.Residues.{residue};
ghost use Rattle.stark_bench.specs.ChallengeFacts.{after_four_in_turn, four_in_turn, sha_laws};

use crate::challenger::commitment::{ClearCommitment, observe_matrices};
use crate::challenger::coordinates::sample_coordinates;
use crate::challenger::trials::{first_of_eight, leading, passes_after};
use sha2::{Digest, Sha256};
use stark_fields::{Ext4, Modulus, Residue};
use stark_merkle::Root;
use stark_support::{
    CanObserve, CanSample, CanSampleBits, ExtensionChallenger, FieldChallenger, GrindingChallenger,
    PrimeField64,
};
use std::alloc::{AllocError, Global};
use std::marker::{Model, PhantomData};

/// A state of 32 bytes, each of which is the digest of the one before and of what was done.
#[derive(Clone, Debug, Drop)]
pub struct Sha256Challenger<F> {
    state: [u8; 32],
    field: PhantomData<F>,
}

impl<F> Model for Sha256Challenger<F> {
    ghost use Rattle.std.specs.Prelude.{List, ℕ};

    ghost Value = { List ℕ };

    ghost view = { λ s. s.state };
}

impl<F> Sha256Challenger<F> {
    /// Begins with zeros.
    pub fn new() -> Sha256Challenger<F>
        ensures { result ≡ replicate 32 0 }
    {
        Sha256Challenger {
            state: [0; 32],
            field: PhantomData,
        }
    }

    // The byte says what is done.
    fn absorb(&mut self, tag: u8, bytes: &[u8])
        ensures { self.new ≡ absorbed self.old tag bytes.now }
    {
        let mut hasher = Sha256::new();
        hasher.update(&self.state);
        hasher.update(&[tag]);
        hasher.update(bytes);
        self.state = hasher.finalize();
    }

    // The number that the state hands out.
    fn leading(&self) -> u64
        ensures { result ≡ leading self.now }
    {
        leading(&self.state)
    }

    fn copied(&self) -> Sha256Challenger<F>
        ensures { result ≡ self.now }
    {
        Sha256Challenger {
            state: self.state,
            field: PhantomData,
        }
    }
}

impl<M: Modulus, Kind> CanObserve<Residue<M, Kind>> for Sha256Challenger<Residue<M, Kind>> {
    ghost after_observe = { after_element };

    #[tactic(auto, unfolding(stark_support::specs::Seed::number))]
    fn observe(&mut self, value: &Residue<M, Kind>) {
        self.absorb(0, &value.as_canonical_u64().to_be_bytes());
    }
}

impl<M: Modulus, Kind> CanObserve<ClearCommitment<Residue<M, Kind>>>
    for Sha256Challenger<Residue<M, Kind>> {
    ghost after_observe = { λ s commitment.
        observed_all after_element (commitment_elements residue commitment) s };

    fn observe(&mut self, value: &ClearCommitment<Residue<M, Kind>>) {
        observe_matrices(self, value.matrices());
    }
}

impl<M: Modulus, Kind> CanObserve<Root> for Sha256Challenger<Residue<M, Kind>> {
    ghost after_observe = { λ s root. absorbed s 3 root.bytes };

    /// The 32 bytes, absorbed at once, after a byte of their own that no element begins with.
    fn observe(&mut self, value: &Root) {
        self.absorb(3, &value.bytes());
    }
}

impl<M: Modulus, Kind> CanSample<Residue<M, Kind>> for Sha256Challenger<Residue<M, Kind>> {
    ghost sample_of = { drawn_element };

    ghost after_sample = { after_draw };

    /// The first 8 bytes of the next state, the high one first, modulo the modulus p. Of the 2^64
    /// numbers of 8 bytes each element is met by as many as 2^64 / p rounded up or down. So where
    /// each of these numbers is as likely, an element's probability is less than 2^-64 off 1 / p:
    /// at most 2^-33 of it, since p is below 2^31.
    fn sample(&mut self) -> Residue<M, Kind> {
        self.absorb(1, &[]);
        Residue::new((self.leading() % u64::from(M::MODULUS)) as u32)
    }
}

impl<M: Modulus, Kind> CanSampleBits<usize> for Sha256Challenger<Residue<M, Kind>> {
    ghost bits_of = { drawn_bits };

    ghost after_bits = { λ s _. after_bits s };

    /// The first 8 bytes of the next state, the high one first, modulo `2^bits`. Where each of the
    /// 2^64 numbers of 8 bytes is as likely, so is each answer: `2^bits` divides 2^64.
    fn sample_bits(&mut self, bits: usize) -> usize
        requires { bits < 64 }
        ensures answer { result ≡ drawn_bits self.old bits }
        ensures state { self.new ≡ after_bits self.old }
        ensures within { result < 2 ^ bits }
    {
        self.absorb(2, &[]);
        self.leading() as usize % (1 << bits)
    }
}

impl<M: Modulus, Kind> CanSample<Ext4<Residue<M, Kind>>> for Sha256Challenger<Residue<M, Kind>> {
    ghost sample_of = { four_drawn drawn_element after_draw };

    ghost after_sample = { after_four after_draw };

    /// Four draws of the base field: the coordinates, the constant first.
    fn sample(&mut self) -> Ext4<Residue<M, Kind>> {
        sample_coordinates(self)
    }
}

impl<M: Modulus, Kind> ExtensionChallenger<Residue<M, Kind>, Ext4<Residue<M, Kind>>>
    for Sha256Challenger<Residue<M, Kind>> {
    ghost draws_coordinates = { four_in_turn drawn_element after_draw };

    ghost leaves_state = { after_four_in_turn after_draw };
}

impl<M: Modulus, Kind> FieldChallenger<Residue<M, Kind>> for Sha256Challenger<Residue<M, Kind>> {
    fn duplicate(&self, _alloc: Global) -> Result<Self, AllocError> {
        Ok(self.copied())
    }
}

impl<M: Modulus, Kind> GrindingChallenger for Sha256Challenger<Residue<M, Kind>> {
    type Witness = Residue<M, Kind>;

    ghost passes = { sha_passes };

    ghost after_check = { sha_after_check };

    ghost ground_witness = { found_by sha_passes };

    /// The first of the numbers 0, 1, .. below the modulus whose element passes, with the state
    /// after its check; None where no element passes, as is likely where `2^bits` is far above the
    /// modulus. A number takes two digests, computed for eight numbers at a time, and at `bits`
    /// bits one in `2^bits` passes.
    fn grind(&mut self, bits: usize) -> Option<Residue<M, Kind>> {
        let groups = M::MODULUS / 8;
        for group in 0..groups {
            if let Some(number) = first_of_eight(&self.state, bits, 8 * group) {
                let witness = Residue::new(number);
                self.check_witness(bits, witness);
                return Some(witness);
            }
        }
        for number in 8 * groups..M::MODULUS {
            let witness = Residue::new(number);
            let mut trial = self.copied();
            if trial.check_witness(bits, witness) {
                *self = trial;
                return Some(witness);
            }
        }
        None
    }

    fn check_witness(&mut self, bits: usize, witness: Residue<M, Kind>) -> bool {
        if bits == 0 {
            return true;
        }
        self.observe(&witness);
        self.absorb(2, &[]);
        passes_after(&self.state, bits)
    }

    ghost grinding = { sha_laws };
}
