//! Proofs that are made of a trace, in words, and what the verifier answers of them, over any
//! configuration; and the same over the scheme in the clear and the masked one, where the field,
//! its extension and the challenger are left open.
use p3_uni_stark::{PcsProof, Proof, VerifiedProof, verify};
use stark_air::Air;
use stark_bench::ClearCommitment;
use stark_clear::MaskedClearPcs;
use stark_parts::{
    Com, PcsError, PcsProverError, StarkChallenger, StarkConfig, StarkGenericConfig, Val,
};
use stark_support::{
    ExtensionField, Field, GrindingChallenger, JsonCodec, NeverNull, PackedExtensionField,
    PackedField, PrimeField64, RowMajorMatrix, TwoAdicField, value_from_bytes,
};
use stark_test_cases::elements_in;
use stark_test_proofs::{fits, made_by, stands_at};
use std::alloc::{AllocError, Global};
use std::fmt::Debug;
use std::test::Fail;

/// A proof's JSON.
fn json_of<K: NeverNull + Drop, EF: JsonCodec + Drop, P: JsonCodec + Drop, F: Field + NeverNull>(
    alloc: Global,
    proof: &Proof<K, EF, P, F>,
) -> Result<String, AllocError> {
    let json = proof.to_json(alloc)?;
    json.to_string(alloc)
}

/// The text of a proof and the verifier's verdict on it.
fn text_of_verified<SC: StarkGenericConfig>(
    alloc: Global,
    verified: &VerifiedProof<SC>,
) -> Result<String, AllocError>
where
    SC::Challenge: JsonCodec,
    Val<SC>: NeverNull,
    Com<SC>: NeverNull,
    PcsProof<SC>: JsonCodec,
    PcsError<SC>: Debug,
{
    let (proof, verdict) = verified;
    let json = json_of(alloc, proof)?;
    format!(in alloc; "{json} {verdict:?}")
}

/// Proves traces, and tells the proof and the verdict on it in words, as a configuration does. What
/// asks it for no more needs none of a configuration's laws.
pub trait TraceProver<F: Field> {
    /// The text of a proof of a trace and the verifier's verdict on it, or the prover's error; none
    /// where the trace has another height or width than is said, or the AIR's preprocessed columns
    /// have another height.
    fn proved_text<A: Air<F>>(
        &self,
        alloc: Global,
        air: &A,
        log_height: usize,
        trace: RowMajorMatrix<F>,
        public_values: &[F],
    ) -> Result<Option<String>, AllocError>;
}

impl<SC> TraceProver<Val<SC>> for SC
where
    SC: StarkGenericConfig,
    SC::Challenge: PackedExtensionField<Val<SC>> + JsonCodec,
    SC::Challenger: GrindingChallenger<Witness = Val<SC>>,
    Val<SC>: PackedField + NeverNull,
    Com<SC>: NeverNull,
    PcsProof<SC>: JsonCodec,
    PcsError<SC>: Debug,
    PcsProverError<SC>: Debug,
{
    fn proved_text<A: Air<Val<SC>>>(
        &self,
        alloc: Global,
        air: &A,
        log_height: usize,
        trace: RowMajorMatrix<Val<SC>>,
        public_values: &[Val<SC>],
    ) -> Result<Option<String>, AllocError> {
        if !fits(self, air, log_height, &trace, public_values)
            || !stands_at(alloc, air, log_height)?
        {
            return Ok(None);
        }
        let text = match made_by(alloc, self, air, log_height, trace, public_values) {
            Ok(verified) => text_of_verified::<SC>(alloc, &verified),
            Err(error) => format!(in alloc; "{error:?}"),
        };
        Ok(Some(text?))
    }
}

/// The configuration with the masked scheme.
pub type MaskedConfig<F, EF, C> = StarkConfig<MaskedClearPcs<F>, EF, C>;

/// The configuration with these masks.
pub fn masked<F, EF, C>(
    alloc: Global,
    challenger: C,
    masks: &str,
) -> Result<MaskedConfig<F, EF, C>, Fail>
where
    F: PrimeField64 + TwoAdicField,
    C: Drop,
{
    let masks = elements_in::<F>(alloc, masks)?;
    if masks.is_empty() {
        return Err(Fail::new("no masks"));
    }
    Ok(StarkConfig::new(MaskedClearPcs::new(masks), challenger))
}

/// The proof of a text; none where it is no proof.
fn proof_in<K: NeverNull + Drop, EF: JsonCodec + Drop, P: JsonCodec + Drop, F: Field + NeverNull>(
    alloc: Global,
    text: &str,
) -> Option<Proof<K, EF, P, F>> {
    let json = value_from_bytes(alloc, text.as_bytes()).ok()?;
    Proof::from_json(alloc, &json).ok()
}

/// What any verifier answers of a proof's text; none where the text is no proof.
fn reread_by<SC, A>(
    alloc: Global,
    config: &SC,
    air: &A,
    text: &str,
    public_values: &[Val<SC>],
) -> Result<Option<String>, AllocError>
where
    SC: StarkGenericConfig,
    SC::Challenger: GrindingChallenger<Witness = Val<SC>>,
    SC::Challenge: JsonCodec,
    Val<SC>: NeverNull,
    Com<SC>: NeverNull,
    PcsProof<SC>: JsonCodec,
    PcsError<SC>: Debug,
    A: Air<Val<SC>>,
{
    match proof_in::<Com<SC>, SC::Challenge, PcsProof<SC>, Val<SC>>(alloc, text) {
        Some(proof) => {
            let answer = verify(alloc, config, air, &proof, public_values);
            Ok(Some(format!(in alloc; "{answer:?}")?))
        }
        None => Ok(None),
    }
}

/// What the verifier answers of a proof's text, with the masked scheme; none where the text is no
/// proof.
pub fn masked_reread<F, EF, C, A>(
    alloc: Global,
    config: &MaskedConfig<F, EF, C>,
    air: &A,
    text: &str,
    public_values: &[F],
) -> Result<Option<String>, AllocError>
where
    F: TwoAdicField + PrimeField64 + NeverNull,
    EF: ExtensionField<F> + JsonCodec,
    C: StarkChallenger<F, EF, ClearCommitment<F>>,
    A: Air<F>,
{
    reread_by::<MaskedConfig<F, EF, C>, A>(alloc, config, air, text, public_values)
}
