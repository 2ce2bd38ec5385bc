//! The numbers that fix a transcript, and why one fails.
ghost use Rattle.std.specs.Prelude.{◌≡◌, ◌<◌, ◌^◌, IfOk, codes, map};
ghost use Rattle.stark_support.specs.Seed.{IsBounded, described, elements, flag, marker, message, plain_seed, row_view, shape_seed, shape_steps, step_view};
ghost use Rattle.stark_transcript.specs.Shape.{HasDeclaredCounts, HasNumbers, opens_next_row, shape_numbers, TellsShape};

use stark_air::BaseAir;
use stark_support::{
    DomainSeparator, ExtensionField, Field, Hierarchy, Interaction, InteractionPattern, Kind,
    Length,
};
use std::alloc::{AllocError, Global};
use thiserror::Error;

/// The numbers that fix the transcript of a proof of one AIR.
#[derive(Clone, Debug, PartialEq, Eq, Drop)]
pub struct StarkShape {
    /// The logarithm of the committed trace's height.
    pub log_ext_degree: usize,
    /// The logarithm of the trace's height.
    pub log_degree: usize,
    /// How many columns the main trace has.
    pub main_width: usize,
    /// How many columns the preprocessed trace has, 0 without one.
    pub preprocessed_width: usize,
    /// How many public values the AIR reads.
    pub num_public_values: usize,
    /// How many periodic columns the AIR has.
    pub num_periodic_columns: usize,
    /// How many chunks the quotient is committed in.
    pub num_quotient_chunks: usize,
    /// Whether the AIR reads the next row of the main trace.
    pub opens_main_next_row: bool,
    /// Whether the AIR reads the next row of the preprocessed trace.
    pub opens_preprocessed_next_row: bool,
    /// Whether a random polynomial is committed beside the quotient.
    pub has_randomization: bool,
    /// How many bits of work are asked for before the out-of-domain point.
    pub ood_pow_bits: usize,
    /// How many bits of work are asked for before alpha.
    pub constraint_pow_bits: usize,
}

/// Why a transcript fails.
#[derive(Clone, Copy, Debug, PartialEq, Eq, Error)]
pub enum StarkTranscriptFailure {
    /// There are preprocessed columns, and no commitment to them.
    #[error("no commitment to the {width} preprocessed columns")]
    MissingPreprocessedCommitment { width: usize },
    /// There are no preprocessed columns, and a commitment to some.
    #[error("a commitment to preprocessed columns, of which there are none")]
    UnexpectedPreprocessedCommitment,
    /// A random commitment is described, and there is none.
    #[error("no random commitment")]
    MissingRandomCommitment,
    /// No random commitment is described, and there is one.
    #[error("a random commitment that isn't described")]
    UnexpectedRandomCommitment,
    /// The witness of work before alpha doesn't pass.
    #[error("the witness of {bits} bits of work before alpha doesn't pass")]
    AlphaPowWitness { bits: usize },
    /// The witness of work before the out-of-domain point doesn't pass.
    #[error("the witness of {bits} bits of work doesn't pass")]
    OodPowWitness { bits: usize },
}

/// No element is a witness of the work that is asked for.
#[derive(Clone, Copy, Debug, PartialEq, Eq, Error)]
#[error("no witness of {bits} bits of work")]
pub struct GrindExhausted {
    pub bits: usize,
}

/// How far a transcript was played.
#[derive(Clone, Copy, Debug, PartialEq, Eq)]
pub enum TranscriptPhase {
    /// The seed was observed.
    Opened,
    /// The traces and the public values were observed, work was done where some is asked for, and
    /// alpha was drawn.
    Bound,
    /// The quotient was observed, and zeta was drawn.
    Drawn,
    /// The opening argument was run.
    Delegated,
    /// A phase failed.
    Failed,
}

/// The step that observes one commitment.
fn message(label: &'static str) -> Interaction
    ensures { step_view result ≡ message label.now }
{
    Interaction::opaque(Hierarchy::Atomic, Kind::Message, label, Length::Scalar)
}

/// The step that observes or draws so many elements, each of `degree` base elements.
fn elements(kind: Kind, label: &'static str, length: Length, degree: usize) -> Interaction
    ensures { step_view result ≡ elements kind label.now length degree }
{
    Interaction::algebra(Hierarchy::Atomic, kind, label, length, degree)
}

/// The mark at which the scheme's opening argument begins or ends.
fn opening(hierarchy: Hierarchy) -> Interaction
    ensures { step_view result ≡ marker hierarchy (codes "opening_argument") }
{
    Interaction::marker(hierarchy, Kind::Protocol, "opening_argument")
}

/// 1 for what is there, 0 for what isn't.
fn flag(is_set: bool) -> usize
    ensures { result ≡ flag is_set }
{
    if is_set { 1 } else { 0 }
}

/// The steps of a table that are there.
fn described(alloc: Global, table: &[(bool, Interaction)]) -> Result<Vec<Interaction>, AllocError>
    ensures { IfOk result (λ steps. map step_view steps.items
        ≡ described (map row_view table.now)) }
{
    let mut steps = Vec::new(alloc);
    for (is_there, step) in table {
        if *is_there {
            steps.push(*step)?;
        }
    }
    Ok(steps)
}

/// Whether any column of a next row is declared, and so the row is opened.
pub fn opens_next_row(columns: &[usize]) -> bool
    ensures { result ≡ opens_next_row columns.now }
{
    match columns {
        [] => false,
        _ => true,
    }
}

impl StarkShape {
    /// The shape of a proof of `air`: its declared counts, whether it reads next rows, and the
    /// numbers given. The preprocessed width is that of the verifier's key. It is Err only where
    /// memory was refused.
    pub fn new<F, A: BaseAir<F>>(
        alloc: Global,
        air: &A,
        preprocessed_width: usize,
        log_ext_degree: usize,
        log_degree: usize,
        num_quotient_chunks: usize,
        has_randomization: bool,
        ood_pow_bits: usize,
        constraint_pow_bits: usize,
    ) -> Result<StarkShape, AllocError>
        ensures declared { IfOk result (HasDeclaredCounts (A.layout air.now)
            (A.main_next_row_columns air.now) (A.preprocessed_next_row_columns air.now)) }
        ensures given { IfOk result (HasNumbers preprocessed_width log_ext_degree log_degree
            num_quotient_chunks has_randomization ood_pow_bits constraint_pow_bits) }
    {
        let main_next = air.main_next_row_columns(alloc)?;
        let preprocessed_next = air.preprocessed_next_row_columns(alloc)?;
        Ok(StarkShape {
            log_ext_degree,
            log_degree,
            main_width: air.width(),
            preprocessed_width,
            num_public_values: air.num_public_values(),
            num_periodic_columns: air.num_periodic_columns(),
            num_quotient_chunks,
            opens_main_next_row: opens_next_row(&main_next),
            opens_preprocessed_next_row: opens_next_row(&preprocessed_next),
            has_randomization,
            ood_pow_bits,
            constraint_pow_bits,
        })
    }

    /// The steps of the transcript over the field `F` and its extension `EF`. It is Err only where
    /// memory was refused.
    pub fn pattern<F: Field, EF: ExtensionField<F>>(
        &self,
        alloc: Global,
    ) -> Result<InteractionPattern, AllocError>
        ensures { IfOk result (λ pattern. pattern
            ≡ shape_steps 1 EF.DIMENSION (shape_numbers self.now)) }
    {
        let degree = EF::DIMENSION;
        let public_values = Length::Fixed(self.num_public_values);
        let first_work = Length::Fixed(self.constraint_pow_bits);
        let work = Length::Fixed(self.ood_pow_bits);
        let table = [
            (true, message("trace_commitment")),
            (
                self.preprocessed_width > 0,
                message("preprocessed_commitment"),
            ),
            (
                true,
                elements(Kind::Public, "public_values", public_values, 1),
            ),
            (
                self.constraint_pow_bits > 0,
                elements(Kind::Pow, "alpha_pow", first_work, 1),
            ),
            (
                true,
                elements(Kind::Challenge, "alpha", Length::Scalar, degree),
            ),
            (true, message("quotient_commitment")),
            (self.has_randomization, message("random_commitment")),
            (
                self.ood_pow_bits > 0,
                elements(Kind::Pow, "ood_pow", work, 1),
            ),
            (
                true,
                elements(Kind::Challenge, "zeta", Length::Scalar, degree),
            ),
            (true, opening(Hierarchy::Begin)),
            (true, opening(Hierarchy::End)),
        ];
        Ok(InteractionPattern::new(described(alloc, &table)?))
    }

    /// What tells this transcript from those of other shapes over the same two fields: no other
    /// shape has these bytes. It is Err only where memory was refused.
    pub fn domain_separator<F: Field, EF: ExtensionField<F>>(
        &self,
        alloc: Global,
    ) -> Result<DomainSeparator, AllocError>
        ensures seed { IfOk result (λ separator. separator
            ≡ shape_seed 1 EF.DIMENSION (shape_numbers self.now)) }
        ensures without_first_work { IfOk result (λ separator. self.now.constraint_pow_bits ≡ 0
            → separator ≡ plain_seed 1 EF.DIMENSION (shape_numbers self.now)) }
        ensures of_this_shape { IfOk result (TellsShape EF.DIMENSION (shape_numbers self.now)) }
    {
        let pattern = self.pattern::<F, EF>(alloc)?;
        let items = [
            self.log_ext_degree,
            self.log_degree,
            self.main_width,
            self.preprocessed_width,
            self.num_periodic_columns,
            self.num_quotient_chunks,
            flag(self.opens_main_next_row),
            flag(self.opens_preprocessed_next_row),
        ];
        self.known_numbers();
        let separator = DomainSeparator::new(alloc, "p3-uni-stark", &pattern, &items)?;
        Ok(separator)
    }

    // Each number is one of 64 bits.
    fn known_numbers(&self)
        ensures { IsBounded (shape_numbers self.now) }
    {
        self.known_works();
        let _log_ext_degree = self.log_ext_degree;
        let _log_degree = self.log_degree;
        let _main_width = self.main_width;
        let _preprocessed_width = self.preprocessed_width;
        let _num_public_values = self.num_public_values;
        let _num_periodic_columns = self.num_periodic_columns;
        let _num_quotient_chunks = self.num_quotient_chunks;
    }

    // So are the bits of both works.
    fn known_works(&self)
        ensures ood { self.now.ood_pow_bits < 2 ^ 64 }
        ensures constraint { self.now.constraint_pow_bits < 2 ^ 64 }
    {
        let _ood_pow_bits = self.ood_pow_bits;
        let _constraint_pow_bits = self.constraint_pow_bits;
    }
}
