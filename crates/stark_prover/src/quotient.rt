//! The quotient of the folded constraints, over committed columns.
ghost use Rattle.std.specs.Prelude.{◌≡◌, All, IfErr, IfOk, length};
ghost use Rattle.stark_support.specs.Coset.{coset_size};
ghost use Rattle.stark_support.specs.Periodic.{ColumnFits};

use crate::commit::{Committed, commit_flat};
use crate::contracts::{ProverInstance, StarkRows, StarkSizes, StarkStages};
use crate::domains::ProverDomains;
use stark_air::{Air, AirLayout};
use stark_parts::{Com, Domain, PcsProverError, StarkGenericConfig, Val};
use stark_protocol::PcsProverData;
use stark_quotient::{Quotients, quotient_values};
use stark_support::{
    ExtensionField, GrindingChallenger, PackedExtensionField, PackedField, Pcs, PolynomialSpace,
    RowMajorMatrix, UnivariateStarkPcs,
};
use stark_transcript::ProvingError;
use std::alloc::{AllocError, Global};

/// The values of the preprocessed columns on the quotient's domain, where there are any.
fn preprocessed_values<SC: StarkGenericConfig, A: Air<Val<SC>>>(
    alloc: Global,
    instance: &ProverInstance<'_, SC, A>,
    quotient: Domain<SC>,
) -> Result<Option<RowMajorMatrix<Val<SC>>>, AllocError>
where
    SC::Challenger: GrindingChallenger<Witness = Val<SC>>,
    ensures { IfOk result (⟦<SC as StarkRows<A>>⟧.are_preprocessed_rows instance.now quotient) }
{
    match instance.preprocessed {
        Some(preprocessed_data) => {
            let pcs = instance.config.pcs();
            let data = &preprocessed_data.prover_data;
            let rows = pcs.get_evaluations_on_domain_no_random(alloc, data, 0, quotient)?;
            Ok(Some(rows))
        }
        None => Ok(None),
    }
}

/// The values of the trace's columns on the quotient's domain.
fn trace_values<SC: StarkGenericConfig, A: Air<Val<SC>>>(
    alloc: Global,
    instance: &ProverInstance<'_, SC, A>,
    quotient: Domain<SC>,
    prover_data: &PcsProverData<SC>,
) -> Result<RowMajorMatrix<Val<SC>>, AllocError>
where
    SC::Challenger: GrindingChallenger<Witness = Val<SC>>,
    ensures { IfOk result (⟦<SC as StarkRows<A>>⟧.are_trace_rows instance.now quotient
        prover_data.now) }
{
    let pcs = instance.config.pcs();
    let rows = pcs.get_evaluations_on_domain(alloc, prover_data, 0, quotient)?;
    Ok(rows)
}

/// The quotient's values on its domain, over the committed columns.
fn quotient_on<SC: StarkGenericConfig, A: Air<Val<SC>>>(
    alloc: Global,
    instance: &ProverInstance<'_, SC, A>,
    domains: ProverDomains<Domain<SC>>,
    prover_data: &PcsProverData<SC>,
    alpha: SC::Challenge,
) -> Result<Vec<SC::Challenge>, AllocError>
where
    Val<SC>: PackedField,
    SC::Challenge: PackedExtensionField<Val<SC>>,
    SC::Challenger: GrindingChallenger<Witness = Val<SC>>,
    requires domains { ⟦<SC as StarkSizes<A>>⟧.are_domains instance.now domains }
    requires main { ⟦<SC as StarkRows<A>>⟧.has_columns instance.now domains.degree_bits
        prover_data.now }
    requires preprocessed { ⟦<SC as StarkRows<A>>⟧.has_preprocessed_columns instance.now }
    requires public_values { length instance.now.public_values.now
        ≡ (A.layout instance.now.air.now).public_values }
    requires periodic { All (λ column.
        ColumnFits (coset_size (SC.Pcs.Domain.coset_of domains.trace)) (length column))
        (A.periodic_columns instance.now.air.now) }
    ensures { IfOk result (λ values. ⟦<SC as StarkRows<A>>⟧.are_quotients instance.now domains
        prover_data.now alpha values.items) }
{
    let quotient = domains.quotient;
    let main = trace_values(alloc, instance, quotient, prover_data)?;
    let preprocessed = preprocessed_values(alloc, instance, quotient)?;
    let values = quotient_values::<SC, A>(
        alloc,
        instance.config.pcs(),
        instance.air,
        instance.public_values,
        AirLayout::from_air(instance.air),
        domains.trace,
        quotient,
        &main,
        preprocessed.as_ref(),
        alpha,
    )?;
    Ok(values)
}

/// An AIR to whose quotients a configuration's scheme commits: any AIR, where the fields have
/// packed values.
pub(crate) trait ProvableAir<SC: StarkGenericConfig>: Air<Val<SC>> + Sized
where
    SC::Challenger: GrindingChallenger<Witness = Val<SC>>,
{
    /// The commitment to the chunks of the quotient over the committed columns.
    fn commit_quotient(
        alloc: Global,
        instance: &ProverInstance<'_, SC, Self>,
        domains: ProverDomains<Domain<SC>>,
        committed: &Committed<Com<SC>, PcsProverData<SC>>,
        alpha: SC::Challenge,
    ) -> Result<Committed<Com<SC>, PcsProverData<SC>>, ProvingError<PcsProverError<SC>>>
        requires committed { ⟦<SC as StarkStages<Self>>⟧.is_committed instance.now domains
            committed.now }
        ensures stands { IfOk result (⟦<SC as StarkStages<Self>>⟧.is_quotient_of instance.now
            domains.degree_bits committed.now alpha) }
        ensures fault { IfErr result (⟦<SC as StarkStages<Self>>⟧.is_refusal_of instance.now
            domains.degree_bits committed.now alpha) };
}

impl<SC: StarkGenericConfig, A: Air<Val<SC>>> ProvableAir<SC> for A
where
    Val<SC>: PackedField,
    SC::Challenge: PackedExtensionField<Val<SC>>,
    SC::Challenger: GrindingChallenger<Witness = Val<SC>>,
{
    fn commit_quotient(
        alloc: Global,
        instance: &ProverInstance<'_, SC, A>,
        domains: ProverDomains<Domain<SC>>,
        committed: &Committed<Com<SC>, PcsProverData<SC>>,
        alpha: SC::Challenge,
    ) -> Result<Committed<Com<SC>, PcsProverData<SC>>, ProvingError<PcsProverError<SC>>>
        requires committed { ⟦<SC as StarkStages<A>>⟧.is_committed instance.now domains
            committed.now }
        ensures stands { IfOk result (⟦<SC as StarkStages<A>>⟧.is_quotient_of instance.now
            domains.degree_bits committed.now alpha) }
        ensures fault { IfErr result (⟦<SC as StarkStages<A>>⟧.is_refusal_of instance.now
            domains.degree_bits committed.now alpha) }
    {
        let values = quotient_on(alloc, instance, domains, &committed.prover_data, alpha)?;
        // A constant's range is known where it is read: so the flattened width, which is this
        // number, fits.
        let _dimension = SC::Challenge::DIMENSION;
        // The domain lies in the base field, so the values of a polynomial over the extension are
        // those of as many over the base field as an element has coordinates: one column each.
        let flat = RowMajorMatrix::new_col(values).flatten_to_base::<Val<SC>>(alloc)?;
        commit_flat(alloc, instance.config, domains, flat)
    }
}
