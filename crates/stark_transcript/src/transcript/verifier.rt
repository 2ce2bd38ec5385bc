//! The verifier's side of a transcript.
ghost use Rattle.std.specs.Prelude.{◌≡◌, IfOk, length};
ghost use Rattle.std.specs.Fn.{FnOnceReturnsAtMut, FnOnceTakesAtMut};
ghost use Rattle.stark_transcript.specs.Shape.{after_seed};
ghost use Rattle.stark_transcript.specs.Phases.{alpha_run, zeta_run};

use crate::shape::{StarkShape, StarkTranscriptFailure, TranscriptPhase};
use crate::transcript::{
    observe_optional, observe_seed, play_values, preprocessed_fault, random_fault,
    sample_after_check,
};
use stark_support::{
    CanObserve, CanSample, ExtensionField, GrindingChallenger, PrimeField64, Sponge,
};
use std::alloc::{AllocError, Global};
use std::marker::PhantomData;

/// The verifier's side. It must be finished or aborted.
pub struct StarkVerifierTranscript<'a, C, F, EF> {
    challenger: &'a mut C,
    shape: StarkShape,
    phase: TranscriptPhase,
    fields: PhantomData<(F, EF)>,
}

impl<'a, C, F, EF> StarkVerifierTranscript<'a, C, F, EF>
where
    F: PrimeField64,
    EF: ExtensionField<F>,
{
    /// Observes the shape's seed. It is Err only where memory was refused, and then nothing was
    /// observed.
    pub fn new(alloc: Global, challenger: &'a mut C, shape: StarkShape) -> Result<Self, AllocError>
    where
        C: CanObserve<F>,
        ensures same_reference { IfOk result (λ t. t.challenger.ghost_name
            ≡ challenger.entry.ghost_name) }
        ensures opened { IfOk result (λ t. t.phase ≡ TranscriptPhase.Opened) }
        ensures described { IfOk result (λ t. t.shape ≡ shape) }
        ensures seeded { IfOk result (λ t. t.challenger.now
            ≡ after_seed C.after_observe F.of_number EF.DIMENSION shape challenger.old) }
    {
        observe_seed::<C, F, EF>(alloc, &mut *challenger, &shape)?;
        Ok(StarkVerifierTranscript {
            challenger,
            shape,
            phase: TranscriptPhase::Opened,
            fields: PhantomData,
        })
    }

    /// Observes the commitments to the traces and the public values, checks the work where some is
    /// asked for, and draws alpha. It fails where the commitment to the preprocessed trace isn't
    /// there though the shape describes one, or is there though it describes none, and where the
    /// witness doesn't pass. Where no work is asked for, the witness plays no part
    /// (`alpha_without_work`).
    pub fn constraint_phase<K>(
        &mut self,
        trace: &K,
        preprocessed: Option<&K>,
        public_values: &[F],
        witness: F,
    ) -> Result<EF, StarkTranscriptFailure>
    where
        C: CanObserve<F> + CanObserve<K> + CanSample<EF> + GrindingChallenger<Witness = F>,
        requires phase { self.old.phase ≡ TranscriptPhase.Opened }
        requires count { length public_values.now ≡ self.old.shape.num_public_values }
        ensures same_reference { self.new.challenger.ghost_name ≡ self.old.challenger.ghost_name }
        ensures shape { self.new.shape ≡ self.old.shape }
        ensures answer { result ≡ (alpha_run ⟦<C as Sponge<F, EF, K>>⟧.sponge self.old
            trace.now preprocessed.entry public_values.now witness).answer }
        ensures state { self.new.challenger.now
            ≡ (alpha_run ⟦<C as Sponge<F, EF, K>>⟧.sponge self.old trace.now
            preprocessed.entry public_values.now witness).state }
        ensures phase { self.new.phase ≡ (alpha_run ⟦<C as Sponge<F, EF, K>>⟧.sponge
            self.old trace.now preprocessed.entry public_values.now witness).phase }
        ensures bound { IfOk result (λ _. self.new.phase ≡ TranscriptPhase.Bound) }
    {
        self.challenger.observe(trace);
        if let Some(failure) = preprocessed_fault(&self.shape, preprocessed.is_some()) {
            self.phase = TranscriptPhase::Failed;
            return Err(failure);
        }
        play_values::<C, F, EF, K>(&mut *self.challenger, preprocessed, public_values);
        let bits = self.shape.constraint_pow_bits;
        let failure = StarkTranscriptFailure::AlphaPowWitness { bits };
        match sample_after_check::<C, F, EF, K>(&mut *self.challenger, failure, bits, witness) {
            Ok(alpha) => {
                self.phase = TranscriptPhase::Bound;
                Ok(alpha)
            }
            Err(failure) => {
                self.phase = TranscriptPhase::Failed;
                Err(failure)
            }
        }
    }

    /// Observes the commitments to the quotient's chunks and to a random polynomial, checks the
    /// work where some is asked for, and draws zeta. It fails where the random commitment isn't
    /// there though the shape describes one, or is there though it describes none, and where the
    /// witness doesn't pass.
    pub fn ood_phase<K>(
        &mut self,
        quotient: &K,
        random: Option<&K>,
        witness: F,
    ) -> Result<EF, StarkTranscriptFailure>
    where
        C: CanObserve<F> + CanObserve<K> + CanSample<EF> + GrindingChallenger<Witness = F>,
        requires phase { self.old.phase ≡ TranscriptPhase.Bound }
        ensures same_reference { self.new.challenger.ghost_name ≡ self.old.challenger.ghost_name }
        ensures shape { self.new.shape ≡ self.old.shape }
        ensures answer { result ≡ (zeta_run ⟦<C as Sponge<F, EF, K>>⟧.sponge self.old
            quotient.now random.entry witness).answer }
        ensures state { self.new.challenger.now
            ≡ (zeta_run ⟦<C as Sponge<F, EF, K>>⟧.sponge self.old quotient.now
            random.entry witness).state }
        ensures phase { self.new.phase ≡ (zeta_run ⟦<C as Sponge<F, EF, K>>⟧.sponge
            self.old quotient.now random.entry witness).phase }
        ensures drawn { IfOk result (λ _. self.new.phase ≡ TranscriptPhase.Drawn) }
    {
        self.challenger.observe(quotient);
        if let Some(failure) = random_fault(&self.shape, random.is_some()) {
            self.phase = TranscriptPhase::Failed;
            return Err(failure);
        }
        observe_optional::<C, F, EF, K>(&mut *self.challenger, random);
        let bits = self.shape.ood_pow_bits;
        let failure = StarkTranscriptFailure::OodPowWitness { bits };
        match sample_after_check::<C, F, EF, K>(&mut *self.challenger, failure, bits, witness) {
            Ok(zeta) => {
                self.phase = TranscriptPhase::Drawn;
                Ok(zeta)
            }
            Err(failure) => {
                self.phase = TranscriptPhase::Failed;
                Err(failure)
            }
        }
    }

    /// Lends the challenger to the opening argument, and gives its answer.
    pub fn delegate<R, G: FnOnce(&mut C) -> R>(&mut self, run: G) -> R
        requires phase { self.old.phase ≡ TranscriptPhase.Drawn }
        requires callable { FnOnceTakesAtMut G.FnOnce run self.old.challenger.now }
        ensures same_reference { self.new.challenger.ghost_name ≡ self.old.challenger.ghost_name }
        ensures shape { self.new.shape ≡ self.old.shape }
        ensures phase { self.new.phase ≡ TranscriptPhase.Delegated }
        ensures ran { FnOnceReturnsAtMut G.FnOnce run self.old.challenger.now result
            self.new.challenger.now }
    {
        let output = run(&mut *self.challenger);
        self.phase = TranscriptPhase::Delegated;
        output
    }

    /// Gives the challenger up, in whatever phase.
    pub fn abort(self)
        ensures { self.exit.0.now ≡ self.entry.challenger.now }
    {
        let StarkVerifierTranscript {
            challenger: _,
            shape: _,
            phase: _,
            fields: _,
        } = self;
    }

    /// Gives the challenger up once the opening argument was run.
    pub fn finish(self)
        requires { self.phase ≡ TranscriptPhase.Delegated }
        ensures { self.exit.0.now ≡ self.entry.challenger.now }
    {
        self.abort()
    }
}
