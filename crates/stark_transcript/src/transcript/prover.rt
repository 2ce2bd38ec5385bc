//! The prover's side of a transcript.
ghost use Rattle.std.specs.Prelude.{◌≡◌, ltb, IfOk, OnErr, None, is_some, length};
ghost use Rattle.std.specs.Fn.{FnOnceReturnsAtMut, FnOnceTakesAtMut};
ghost use Rattle.stark_transcript.specs.Shape.{after_seed};
ghost use Rattle.stark_transcript.specs.Replay.{preprocessed_fault, random_fault};
ghost use Rattle.stark_transcript.specs.Phases.{DrawsAlpha, DrawsZeta, HasNoAlphaWitness, HasNoZetaWitness, alpha_search, zeta_search};

use crate::shape::{GrindExhausted, StarkShape, TranscriptPhase};
use crate::transcript::{observe_optional, observe_seed, play_values, sample_after_grind};
use stark_support::{
    CanObserve, CanSample, ExtensionField, GrindingChallenger, PrimeField64, Sponge,
};
use std::alloc::{AllocError, Global};
use std::marker::PhantomData;

/// The prover's side. It must be finished or aborted.
pub struct StarkProverTranscript<'a, C, F, EF> {
    challenger: &'a mut C,
    shape: StarkShape,
    phase: TranscriptPhase,
    fields: PhantomData<(F, EF)>,
}

impl<'a, C, F, EF> StarkProverTranscript<'a, C, F, EF>
where
    F: PrimeField64,
    EF: ExtensionField<F>,
{
    /// Observes the shape's seed. It is Err only where memory was refused, and then nothing was
    /// observed.
    pub fn new(alloc: Global, challenger: &'a mut C, shape: StarkShape) -> Result<Self, AllocError>
    where
        C: CanObserve<F>,
        ensures same_reference { IfOk result (λ t. t.challenger.ghost_name
            ≡ challenger.entry.ghost_name) }
        ensures opened { IfOk result (λ t. t.phase ≡ TranscriptPhase.Opened) }
        ensures described { IfOk result (λ t. t.shape ≡ shape) }
        ensures seeded { IfOk result (λ t. t.challenger.now
            ≡ after_seed C.after_observe F.of_number EF.DIMENSION shape challenger.old) }
    {
        observe_seed::<C, F, EF>(alloc, &mut *challenger, &shape)?;
        Ok(StarkProverTranscript {
            challenger,
            shape,
            phase: TranscriptPhase::Opened,
            fields: PhantomData,
        })
    }

    /// Observes the commitments to the traces and the public values, searches a witness where work
    /// is asked for, and draws alpha. It fails where no element is a witness; the challenger then
    /// has the state before the search. A verifier of the same state, inputs and witness draws the
    /// same.
    pub fn constraint_phase<K>(
        &mut self,
        trace: &K,
        preprocessed: Option<&K>,
        public_values: &[F],
    ) -> Result<(EF, Option<F>), GrindExhausted>
    where
        C: CanObserve<F> + CanObserve<K> + CanSample<EF> + GrindingChallenger<Witness = F>,
        requires phase { self.old.phase ≡ TranscriptPhase.Opened }
        requires count { length public_values.now ≡ self.old.shape.num_public_values }
        requires described { preprocessed_fault self.old.shape (is_some preprocessed) ≡ None }
        ensures same_reference { self.new.challenger.ghost_name ≡ self.old.challenger.ghost_name }
        ensures shape { self.new.shape ≡ self.old.shape }
        ensures answer { result ≡ (alpha_search ⟦<C as Sponge<F, EF, K>>⟧.sponge self.old
            trace.now preprocessed.entry public_values.now).answer }
        ensures state { self.new.challenger.now
            ≡ (alpha_search ⟦<C as Sponge<F, EF, K>>⟧.sponge self.old trace.now
            preprocessed.entry public_values.now).state }
        ensures phase { self.new.phase ≡ (alpha_search ⟦<C as Sponge<F, EF, K>>⟧.sponge
            self.old trace.now preprocessed.entry public_values.now).phase }
        ensures bound { IfOk result (λ _. self.new.phase ≡ TranscriptPhase.Bound) }
        ensures worked { IfOk result (λ drawn. is_some drawn.1
            ≡ ltb 0 self.old.shape.constraint_pow_bits) }
        ensures exhausted { OnErr result (HasNoAlphaWitness
            ⟦<C as Sponge<F, EF, K>>⟧.sponge self.old trace.now preprocessed.entry
            public_values.now) }
        ensures as_verifier { IfOk result (DrawsAlpha ⟦<C as Sponge<F, EF, K>>⟧.sponge
            self.old trace.now preprocessed.entry public_values.now self.new) }
    {
        self.challenger.observe(trace);
        play_values::<C, F, EF, K>(&mut *self.challenger, preprocessed, public_values);
        let bits = self.shape.constraint_pow_bits;
        match sample_after_grind::<C, F, EF, K>(&mut *self.challenger, bits) {
            Ok(bound) => {
                self.phase = TranscriptPhase::Bound;
                Ok(bound)
            }
            Err(exhausted) => {
                self.phase = TranscriptPhase::Failed;
                Err(exhausted)
            }
        }
    }

    /// Observes the commitments to the quotient's chunks and to a random polynomial, searches a
    /// witness where work is asked for, and draws zeta. It fails where no element is a witness. A
    /// verifier of the same state, inputs and witness draws the same.
    pub fn ood_phase<K>(
        &mut self,
        quotient: &K,
        random: Option<&K>,
    ) -> Result<(EF, Option<F>), GrindExhausted>
    where
        C: CanObserve<F> + CanObserve<K> + CanSample<EF> + GrindingChallenger<Witness = F>,
        requires phase { self.old.phase ≡ TranscriptPhase.Bound }
        requires described { random_fault self.old.shape (is_some random) ≡ None }
        ensures same_reference { self.new.challenger.ghost_name ≡ self.old.challenger.ghost_name }
        ensures shape { self.new.shape ≡ self.old.shape }
        ensures answer { result ≡ (zeta_search ⟦<C as Sponge<F, EF, K>>⟧.sponge self.old
            quotient.now random.entry).answer }
        ensures state { self.new.challenger.now
            ≡ (zeta_search ⟦<C as Sponge<F, EF, K>>⟧.sponge self.old quotient.now
            random.entry).state }
        ensures phase { self.new.phase ≡ (zeta_search ⟦<C as Sponge<F, EF, K>>⟧.sponge
            self.old quotient.now random.entry).phase }
        ensures drawn { IfOk result (λ _. self.new.phase ≡ TranscriptPhase.Drawn) }
        ensures worked { IfOk result (λ drawn. is_some drawn.1
            ≡ ltb 0 self.old.shape.ood_pow_bits) }
        ensures exhausted { OnErr result (HasNoZetaWitness
            ⟦<C as Sponge<F, EF, K>>⟧.sponge self.old quotient.now random.entry) }
        ensures as_verifier { IfOk result (DrawsZeta ⟦<C as Sponge<F, EF, K>>⟧.sponge
            self.old quotient.now random.entry self.new) }
    {
        self.challenger.observe(quotient);
        observe_optional::<C, F, EF, K>(&mut *self.challenger, random);
        let bits = self.shape.ood_pow_bits;
        match sample_after_grind::<C, F, EF, K>(&mut *self.challenger, bits) {
            Ok(drawn) => {
                self.phase = TranscriptPhase::Drawn;
                Ok(drawn)
            }
            Err(exhausted) => {
                self.phase = TranscriptPhase::Failed;
                Err(exhausted)
            }
        }
    }

    /// Lends the challenger to the opening argument, and gives its answer.
    pub fn delegate<R, G: FnOnce(&mut C) -> R>(&mut self, run: G) -> R
        requires phase { self.old.phase ≡ TranscriptPhase.Drawn }
        requires callable { FnOnceTakesAtMut G.FnOnce run self.old.challenger.now }
        ensures same_reference { self.new.challenger.ghost_name ≡ self.old.challenger.ghost_name }
        ensures shape { self.new.shape ≡ self.old.shape }
        ensures phase { self.new.phase ≡ TranscriptPhase.Delegated }
        ensures ran { FnOnceReturnsAtMut G.FnOnce run self.old.challenger.now result
            self.new.challenger.now }
    {
        let output = run(&mut *self.challenger);
        self.phase = TranscriptPhase::Delegated;
        output
    }

    /// Gives the challenger up, in whatever phase.
    pub fn abort(self)
        ensures { self.exit.0.now ≡ self.entry.challenger.now }
    {
        let StarkProverTranscript {
            challenger: _,
            shape: _,
            phase: _,
            fields: _,
        } = self;
    }

    /// Gives the challenger up once the opening argument was run.
    pub fn finish(self)
        requires { self.phase ≡ TranscriptPhase.Delegated }
        ensures { self.exit.0.now ≡ self.entry.challenger.now }
    {
        self.abort()
    }
}
