//! Proofs that JSON spells.
ghost use Rattle.std.specs.Prelude.{◌≡◌, IfOk};
ghost use Rattle.serde_json.specs.View.{view};
ghost use Rattle.stark_merkle.specs.Tree.{items_of};
ghost use Rattle.stark_support.specs.Json.{Gives};
ghost use Rattle.stark_fri_proof.specs.ProofJson.{Finds, input_at, input_back, input_object, input_written, layer_at, layer_back, layer_object, layer_written, list_field, phase_at, phase_back, phase_object, phase_written, proof_at, proof_back, proof_object, proof_reading, proof_written, query_at, query_back, query_object, query_written, value_field};

use crate::fault::{FriProofFault, FriProofField};
use crate::lists::{list_to_json, list_under, rows_to_json, rows_under, value_under};
use crate::proof::{FriProof, InputOpening, LayerOpening, Phase, QueryProof};
use serde_json::{Value, json};
use stark_support::{JsonCodec, JsonFault};
use std::alloc::{AllocError, Global};

fn phase_object(alloc: Global, commitment: Value, witness: Value) -> Result<Value, AllocError>
    ensures { IfOk result (λ value. view value ≡ phase_object (view commitment) (view witness)) }
{
    json!(in alloc; { "commitment": commitment, "witness": witness })
}

impl<F: JsonCodec> JsonCodec for Phase<F> {
    ghost reading = { phase_at F.reading };

    ghost writing = { phase_written F.writing };

    /// An object of `commitment`, a text of 64 hexadecimal digits, and `witness`.
    #[tactic(auto, unfolding(crate::specs::ProofJson::phase_at))]
    fn from_json(alloc: Global, value: &Value) -> Result<Phase<F>, JsonFault> {
        let root = value_under(alloc, value, "commitment")?;
        let witness = value_under(alloc, value, "witness")?;
        Ok(Phase { root, witness })
    }

    fn to_json(&self, alloc: Global) -> Result<Value, AllocError> {
        let commitment = self.root.to_json(alloc)?;
        let witness = self.witness.to_json(alloc)?;
        phase_object(alloc, commitment, witness)
    }

    ghost reads_back = { phase_back F.reading F.writing F.reads_back };
}

fn layer_object(alloc: Global, sibling: Value, path: Value) -> Result<Value, AllocError>
    ensures { IfOk result (λ value. view value ≡ layer_object (view sibling) (view path)) }
{
    json!(in alloc; { "sibling": sibling, "path": path })
}

impl<E: JsonCodec + Drop> JsonCodec for LayerOpening<E> {
    ghost reading = { layer_at E.reading };

    ghost writing = { layer_written E.writing };

    /// An object of `sibling` and `path`.
    #[tactic(auto, unfolding(crate::specs::ProofJson::layer_at))]
    fn from_json(alloc: Global, value: &Value) -> Result<LayerOpening<E>, JsonFault> {
        let sibling = value_under(alloc, value, "sibling")?;
        let path = value_under(alloc, value, "path")?;
        Ok(LayerOpening { sibling, path })
    }

    fn to_json(&self, alloc: Global) -> Result<Value, AllocError> {
        let sibling = self.sibling.to_json(alloc)?;
        let path = self.path.to_json(alloc)?;
        layer_object(alloc, sibling, path)
    }

    ghost reads_back = { layer_back E.reading E.writing E.reads_back };
}

fn input_object(alloc: Global, rows: Value, path: Value) -> Result<Value, AllocError>
    ensures { IfOk result (λ value. view value ≡ input_object (view rows) (view path)) }
{
    json!(in alloc; { "rows": rows, "path": path })
}

impl<F: JsonCodec + Drop> JsonCodec for InputOpening<F> {
    ghost reading = { input_at F.reading };

    ghost writing = { input_written F.writing };

    /// An object of `rows`, an array of arrays of elements, and `path`.
    #[tactic(auto, unfolding(crate::specs::ProofJson::input_at))]
    fn from_json(alloc: Global, value: &Value) -> Result<InputOpening<F>, JsonFault> {
        let rows = rows_under(alloc, value, "rows")?;
        let path = value_under(alloc, value, "path")?;
        Ok(InputOpening::new(rows, path))
    }

    fn to_json(&self, alloc: Global) -> Result<Value, AllocError> {
        let rows = rows_to_json(alloc, self.rows())?;
        let path = self.path().to_json(alloc)?;
        input_object(alloc, rows, path)
    }

    ghost reads_back = { input_back F.reading F.writing F.reads_back };
}

fn query_object(alloc: Global, inputs: Value, layers: Value) -> Result<Value, AllocError>
    ensures { IfOk result (λ value. view value ≡ query_object (view inputs) (view layers)) }
{
    json!(in alloc; { "inputs": inputs, "layers": layers })
}

impl<F: JsonCodec + Drop, E: JsonCodec + Drop> JsonCodec for QueryProof<F, E> {
    ghost reading = { query_at F.reading E.reading };

    ghost writing = { query_written F.writing E.writing };

    /// An object of `inputs` and `layers`, both arrays.
    #[tactic(auto, unfolding(crate::specs::ProofJson::query_at))]
    fn from_json(alloc: Global, value: &Value) -> Result<QueryProof<F, E>, JsonFault> {
        let inputs = list_under(alloc, value, "inputs")?;
        let layers = list_under(alloc, value, "layers")?;
        Ok(QueryProof::new(inputs, layers))
    }

    fn to_json(&self, alloc: Global) -> Result<Value, AllocError> {
        let inputs = list_to_json(alloc, self.inputs())?;
        let layers = list_to_json(alloc, self.layers())?;
        query_object(alloc, inputs, layers)
    }

    ghost reads_back = { query_back F.reading F.writing F.reads_back
        E.reading E.writing E.reads_back };
}

/// The value of a field.
fn value_field<T: JsonCodec>(
    alloc: Global,
    value: &Value,
    field: FriProofField,
) -> Result<T, FriProofFault>
    ensures { Finds (λ x. x) result (value_field T.reading field (view value.now)) }
{
    match value_under(alloc, value, field.name()) {
        Ok(value) => Ok(value),
        Err(JsonFault::Invalid) => Err(FriProofFault::Refused(field)),
        Err(JsonFault::OutOfMemory) => Err(FriProofFault::OutOfMemory),
    }
}

/// The values of a field's array.
fn list_field<T: JsonCodec + Drop>(
    alloc: Global,
    value: &Value,
    field: FriProofField,
) -> Result<Vec<T>, FriProofFault>
    ensures { Finds items_of result (list_field T.reading field (view value.now)) }
{
    match list_under(alloc, value, field.name()) {
        Ok(value) => Ok(value),
        Err(JsonFault::Invalid) => Err(FriProofFault::Refused(field)),
        Err(JsonFault::OutOfMemory) => Err(FriProofFault::OutOfMemory),
    }
}

fn proof_object(
    alloc: Global,
    phases: Value,
    final_polynomial: Value,
    query_witness: Value,
    queries: Value,
) -> Result<Value, AllocError>
    ensures { IfOk result (λ value. view value
        ≡ proof_object (view phases) (view final_polynomial) (view query_witness) (view queries)) }
{
    json!(in alloc; {
        "phases": phases,
        "final_polynomial": final_polynomial,
        "query_witness": query_witness,
        "queries": queries,
    })
}

impl<F: JsonCodec + Drop, E: JsonCodec + Drop> FriProof<F, E> {
    /// The proof that an object spells. Its fields are read in the order `phases`,
    /// `final_polynomial`, `query_witness`, `queries`, and others are ignored.
    ///
    /// - `Refused` with the first field that isn't there, or of which the value is refused; with
    ///   `Phases` where the value isn't an object.
    /// - `OutOfMemory` wherever a growth was refused. No more is asked for than in proportion to
    ///   the value.
    #[tactic(auto, unfolding(crate::specs::ProofJson::proof_reading))]
    pub fn decode(alloc: Global, value: &Value) -> Result<FriProof<F, E>, FriProofFault>
        ensures { Finds (λ x. x) result (proof_reading F.reading E.reading (view value.now)) }
    {
        let phases = list_field(alloc, value, FriProofField::Phases)?;
        let final_polynomial = list_field(alloc, value, FriProofField::FinalPolynomial)?;
        let query_witness = value_field(alloc, value, FriProofField::QueryWitness)?;
        let queries = list_field(alloc, value, FriProofField::Queries)?;
        Ok(FriProof::new(phases, final_polynomial, query_witness, queries))
    }
}

impl<F: JsonCodec + Drop, E: JsonCodec + Drop> JsonCodec for FriProof<F, E> {
    ghost reading = { proof_at F.reading E.reading };

    ghost writing = { proof_written F.writing E.writing };

    /// As `decode`, with `Invalid` for each field at fault.
    fn from_json(alloc: Global, value: &Value) -> Result<FriProof<F, E>, JsonFault> {
        match FriProof::decode(alloc, value) {
            Ok(proof) => Ok(proof),
            Err(FriProofFault::Refused(_)) => Err(JsonFault::Invalid),
            Err(FriProofFault::OutOfMemory) => Err(JsonFault::OutOfMemory),
        }
    }

    /// An object of the four fields. Roots and paths are texts of 64 hexadecimal digits, their
    /// letters in lower case.
    fn to_json(&self, alloc: Global) -> Result<Value, AllocError> {
        let phases = list_to_json(alloc, self.phases())?;
        let final_polynomial = list_to_json(alloc, self.final_polynomial())?;
        let query_witness = self.query_witness().to_json(alloc)?;
        let queries = list_to_json(alloc, self.queries())?;
        proof_object(alloc, phases, final_polynomial, query_witness, queries)
    }

    ghost reads_back = { proof_back F.reading F.writing F.reads_back
        E.reading E.writing E.reads_back };
}
