//! Proofs and their parts in JSON, and the test of a proof's height.
use crate::cases::option_in;
use p3_uni_stark::{Commitments, OpenedValues, Proof, validate_degree_bits};
use serde_json::Value;
use stark_support::{Field, JsonCodec, NeverNull};
use stark_test_cases::{apart, numbers_in, shown};
use std::alloc::Global;
use std::fmt::Debug;
use std::test::Fail;

// A table's name | what is given. What is read is answered as it is written, or the error by its
// name and fields.
pub const CASES: &str = r#"
# The preprocessed rows under their rule, with a row that is no array, and fields in their order.
openings | [1] => WrongKind { field: "" }
openings | {} => MissingField { field: "trace_local" }
openings | {"trace_local":null} => WrongKind { field: "trace_local" }
openings | {"trace_local":[12289]} => Element { field: "trace_local" }
openings | {"trace_local":[1]} => MissingField { field: "quotient_chunks" }
openings | {"trace_local":[1],"trace_next":1} => WrongKind { field: "trace_next" }
openings | {"trace_local":[1],"random":1,"quotient_chunks":[1]} => WrongKind { field: "quotient_chunks" }
openings | {"trace_local":[1],"random":1,"quotient_chunks":[[1.5],1]} => Element { field: "quotient_chunks" }
openings | {"trace_local":[1],"random":1,"quotient_chunks":[]} => WrongKind { field: "random" }
openings | {"trace_local":[1],"random":[[1]],"quotient_chunks":[]} => Element { field: "random" }
openings | {"trace_local":[1],"preprocessed_next":[1],"quotient_chunks":[]} => NextWithoutCurrent
openings | {"trace_local":[1],"preprocessed_local":[],"quotient_chunks":[]} => EmptyCurrent
openings | {"trace_local":[1],"preprocessed_local":[1,2],"preprocessed_next":[1],"quotient_chunks":[]} => WidthMismatch { local: 2, next: 1 }
openings | {"trace_local":[1],"preprocessed_local":[1],"preprocessed_next":[1,2],"quotient_chunks":[]} => WidthMismatch { local: 1, next: 2 }
openings | {"trace_local":[1],"preprocessed_next":[1],"quotient_chunks":1} => WrongKind { field: "quotient_chunks" }
openings | {"quotient_chunks":1,"trace_next":1} => MissingField { field: "trace_local" }
openings | {"trace_local":[1],"preprocessed_next":[null],"preprocessed_local":[true],"quotient_chunks":[]} => Element { field: "preprocessed_local" }

# No preprocessed row, a current one alone, two of one width; with and without a random row, a next row of the trace. What is
# missing is written as null, and other fields are left out.
openings | {"preprocessed_local":null,"preprocessed_next":null,"quotient_chunks":[[1,2],[3,4]],"random":null,"trace_local":[5],"trace_next":null} => {"preprocessed_local":null,"preprocessed_next":null,"quotient_chunks":[[1,2],[3,4]],"random":null,"trace_local":[5],"trace_next":null}
openings | {"preprocessed_local":null,"preprocessed_next":null,"quotient_chunks":[[1,2],[3,4]],"random":null,"trace_local":[5],"trace_next":[7]} => {"preprocessed_local":null,"preprocessed_next":null,"quotient_chunks":[[1,2],[3,4]],"random":null,"trace_local":[5],"trace_next":[7]}
openings | {"preprocessed_local":null,"preprocessed_next":null,"quotient_chunks":[[1,2],[3,4]],"random":[9],"trace_local":[5],"trace_next":null} => {"preprocessed_local":null,"preprocessed_next":null,"quotient_chunks":[[1,2],[3,4]],"random":[9],"trace_local":[5],"trace_next":null}
openings | {"preprocessed_local":null,"preprocessed_next":null,"quotient_chunks":[[1,2],[3,4]],"random":[9],"trace_local":[5],"trace_next":[7]} => {"preprocessed_local":null,"preprocessed_next":null,"quotient_chunks":[[1,2],[3,4]],"random":[9],"trace_local":[5],"trace_next":[7]}
openings | {"preprocessed_local":[1,2],"preprocessed_next":null,"quotient_chunks":[[1,2],[3,4]],"random":null,"trace_local":[5],"trace_next":null} => {"preprocessed_local":[1,2],"preprocessed_next":null,"quotient_chunks":[[1,2],[3,4]],"random":null,"trace_local":[5],"trace_next":null}
openings | {"preprocessed_local":[1,2],"preprocessed_next":null,"quotient_chunks":[[1,2],[3,4]],"random":null,"trace_local":[5],"trace_next":[7]} => {"preprocessed_local":[1,2],"preprocessed_next":null,"quotient_chunks":[[1,2],[3,4]],"random":null,"trace_local":[5],"trace_next":[7]}
openings | {"preprocessed_local":[1,2],"preprocessed_next":null,"quotient_chunks":[[1,2],[3,4]],"random":[9],"trace_local":[5],"trace_next":null} => {"preprocessed_local":[1,2],"preprocessed_next":null,"quotient_chunks":[[1,2],[3,4]],"random":[9],"trace_local":[5],"trace_next":null}
openings | {"preprocessed_local":[1,2],"preprocessed_next":null,"quotient_chunks":[[1,2],[3,4]],"random":[9],"trace_local":[5],"trace_next":[7]} => {"preprocessed_local":[1,2],"preprocessed_next":null,"quotient_chunks":[[1,2],[3,4]],"random":[9],"trace_local":[5],"trace_next":[7]}
openings | {"preprocessed_local":[1,2],"preprocessed_next":[3,12288],"quotient_chunks":[[1,2],[3,4]],"random":null,"trace_local":[5],"trace_next":null} => {"preprocessed_local":[1,2],"preprocessed_next":[3,12288],"quotient_chunks":[[1,2],[3,4]],"random":null,"trace_local":[5],"trace_next":null}
openings | {"preprocessed_local":[1,2],"preprocessed_next":[3,12288],"quotient_chunks":[[1,2],[3,4]],"random":null,"trace_local":[5],"trace_next":[7]} => {"preprocessed_local":[1,2],"preprocessed_next":[3,12288],"quotient_chunks":[[1,2],[3,4]],"random":null,"trace_local":[5],"trace_next":[7]}
openings | {"preprocessed_local":[1,2],"preprocessed_next":[3,12288],"quotient_chunks":[[1,2],[3,4]],"random":[9],"trace_local":[5],"trace_next":null} => {"preprocessed_local":[1,2],"preprocessed_next":[3,12288],"quotient_chunks":[[1,2],[3,4]],"random":[9],"trace_local":[5],"trace_next":null}
openings | {"preprocessed_local":[1,2],"preprocessed_next":[3,12288],"quotient_chunks":[[1,2],[3,4]],"random":[9],"trace_local":[5],"trace_next":[7]} => {"preprocessed_local":[1,2],"preprocessed_next":[3,12288],"quotient_chunks":[[1,2],[3,4]],"random":[9],"trace_local":[5],"trace_next":[7]}
openings | {"other":1,"quotient_chunks":[[1,2],[3,4]],"trace_local":[5]} => {"preprocessed_local":null,"preprocessed_next":null,"quotient_chunks":[[1,2],[3,4]],"random":null,"trace_local":[5],"trace_next":null}

commitments | {"quotient_chunks":2,"random":null,"trace":1} => {"quotient_chunks":2,"random":null,"trace":1}
commitments | {"trace":1,"random":3,"quotient_chunks":2} => {"quotient_chunks":2,"random":3,"trace":1}
commitments | {"quotient_chunks":2,"trace":1,"width":1} => {"quotient_chunks":2,"random":null,"trace":1}
commitments | null => WrongKind { field: "commitments" }
commitments | {"quotient_chunks":12289} => MissingField { field: "trace" }
commitments | {"quotient_chunks":12289,"trace":null} => Element { field: "trace" }
commitments | {"quotient_chunks":12289,"random":[],"trace":1} => Element { field: "quotient_chunks" }
commitments | {"quotient_chunks":2,"random":[],"trace":1} => Element { field: "random" }

# The counter's proof, and one whose height is the greatest number. A witness before alpha is written where it isn't zero. Then what is
# refused, the fields in their order.
proof | {"commitments":{"quotient_chunks":12288,"random":null,"trace":6150},"degree_bits":1,"ood_pow_witness":0,"opened_values":{"preprocessed_local":null,"preprocessed_next":null,"quotient_chunks":[[[12288,0,0,0],[0,0,0,0],[0,0,0,0],[0,0,0,0]]],"random":null,"trace_local":[[4,0,0,0]],"trace_next":[[7,0,0,0]]},"opening_proof":6144} => {"commitments":{"quotient_chunks":12288,"random":null,"trace":6150},"degree_bits":1,"ood_pow_witness":0,"opened_values":{"preprocessed_local":null,"preprocessed_next":null,"quotient_chunks":[[[12288,0,0,0],[0,0,0,0],[0,0,0,0],[0,0,0,0]]],"random":null,"trace_local":[[4,0,0,0]],"trace_next":[[7,0,0,0]]},"opening_proof":6144}
proof | {"commitments":{"quotient_chunks":2,"random":3,"trace":1},"degree_bits":18446744073709551615,"ood_pow_witness":12288,"opened_values":{"preprocessed_local":null,"preprocessed_next":null,"quotient_chunks":[],"random":null,"trace_local":[],"trace_next":null},"opening_proof":4} => {"commitments":{"quotient_chunks":2,"random":3,"trace":1},"degree_bits":18446744073709551615,"ood_pow_witness":12288,"opened_values":{"preprocessed_local":null,"preprocessed_next":null,"quotient_chunks":[],"random":null,"trace_local":[],"trace_next":null},"opening_proof":4}
proof | {"alpha_pow_witness":7,"commitments":{"quotient_chunks":12288,"random":null,"trace":6150},"degree_bits":1,"ood_pow_witness":0,"opened_values":{"preprocessed_local":null,"preprocessed_next":null,"quotient_chunks":[[[12288,0,0,0],[0,0,0,0],[0,0,0,0],[0,0,0,0]]],"random":null,"trace_local":[[4,0,0,0]],"trace_next":[[7,0,0,0]]},"opening_proof":6144} => {"alpha_pow_witness":7,"commitments":{"quotient_chunks":12288,"random":null,"trace":6150},"degree_bits":1,"ood_pow_witness":0,"opened_values":{"preprocessed_local":null,"preprocessed_next":null,"quotient_chunks":[[[12288,0,0,0],[0,0,0,0],[0,0,0,0],[0,0,0,0]]],"random":null,"trace_local":[[4,0,0,0]],"trace_next":[[7,0,0,0]]},"opening_proof":6144}
proof | {"alpha_pow_witness":0,"commitments":{"quotient_chunks":12288,"random":null,"trace":6150},"degree_bits":1,"ood_pow_witness":0,"opened_values":{"preprocessed_local":null,"preprocessed_next":null,"quotient_chunks":[[[12288,0,0,0],[0,0,0,0],[0,0,0,0],[0,0,0,0]]],"random":null,"trace_local":[[4,0,0,0]],"trace_next":[[7,0,0,0]]},"opening_proof":6144} => {"commitments":{"quotient_chunks":12288,"random":null,"trace":6150},"degree_bits":1,"ood_pow_witness":0,"opened_values":{"preprocessed_local":null,"preprocessed_next":null,"quotient_chunks":[[[12288,0,0,0],[0,0,0,0],[0,0,0,0],[0,0,0,0]]],"random":null,"trace_local":[[4,0,0,0]],"trace_next":[[7,0,0,0]]},"opening_proof":6144}
proof | {"alpha_pow_witness":null,"commitments":{"quotient_chunks":12288,"random":null,"trace":6150},"degree_bits":1,"ood_pow_witness":0,"opened_values":{"preprocessed_local":null,"preprocessed_next":null,"quotient_chunks":[[[12288,0,0,0],[0,0,0,0],[0,0,0,0],[0,0,0,0]]],"random":null,"trace_local":[[4,0,0,0]],"trace_next":[[7,0,0,0]]},"opening_proof":6144} => {"commitments":{"quotient_chunks":12288,"random":null,"trace":6150},"degree_bits":1,"ood_pow_witness":0,"opened_values":{"preprocessed_local":null,"preprocessed_next":null,"quotient_chunks":[[[12288,0,0,0],[0,0,0,0],[0,0,0,0],[0,0,0,0]]],"random":null,"trace_local":[[4,0,0,0]],"trace_next":[[7,0,0,0]]},"opening_proof":6144}
proof | [] => WrongKind { field: "" }
proof | {} => MissingField { field: "commitments" }
proof | {"commitments":1} => WrongKind { field: "commitments" }
proof | {"commitments":{"trace":1}} => MissingField { field: "quotient_chunks" }
proof | {"commitments":{"quotient_chunks":2,"trace":1}} => MissingField { field: "opened_values" }
proof | {"commitments":{"quotient_chunks":2,"trace":1},"opened_values":{"quotient_chunks":[],"trace_local":[]},"degree_bits":null} => MissingField { field: "opening_proof" }
proof | {"commitments":{"quotient_chunks":2,"trace":1},"opened_values":{"quotient_chunks":[],"trace_local":[]},"degree_bits":null,"opening_proof":null} => Element { field: "opening_proof" }
proof | {"commitments":{"quotient_chunks":2,"trace":1},"opened_values":{"quotient_chunks":[],"trace_local":[]},"opening_proof":1,"ood_pow_witness":12289} => MissingField { field: "degree_bits" }
proof | {"commitments":{"quotient_chunks":2,"trace":1},"opened_values":{"quotient_chunks":[],"trace_local":[]},"opening_proof":1,"degree_bits":-1} => WrongKind { field: "degree_bits" }
proof | {"commitments":{"quotient_chunks":2,"trace":1},"opened_values":{"quotient_chunks":[],"trace_local":[]},"opening_proof":1,"degree_bits":1.0} => WrongKind { field: "degree_bits" }
proof | {"commitments":{"quotient_chunks":2,"trace":1},"opened_values":{"quotient_chunks":[],"trace_local":[]},"opening_proof":1,"degree_bits":1e0} => WrongKind { field: "degree_bits" }
proof | {"commitments":{"quotient_chunks":2,"trace":1},"opened_values":{"quotient_chunks":[],"trace_local":[]},"opening_proof":1,"degree_bits":18446744073709551616} => WrongKind { field: "degree_bits" }
proof | {"commitments":{"quotient_chunks":2,"trace":1},"opened_values":{"quotient_chunks":[],"trace_local":[]},"opening_proof":1,"degree_bits":null} => WrongKind { field: "degree_bits" }
proof | {"commitments":{"quotient_chunks":2,"trace":1},"opened_values":{"quotient_chunks":[],"trace_local":[]},"opening_proof":1,"degree_bits":1} => MissingField { field: "ood_pow_witness" }
proof | {"commitments":{"quotient_chunks":2,"trace":1},"opened_values":{"quotient_chunks":[],"trace_local":[]},"opening_proof":1,"degree_bits":1,"ood_pow_witness":12289} => Element { field: "ood_pow_witness" }
proof | {"commitments":{"quotient_chunks":2,"trace":1},"opened_values":{"quotient_chunks":[],"trace_local":[]},"opening_proof":1,"degree_bits":1,"ood_pow_witness":12289,"alpha_pow_witness":12289} => Element { field: "ood_pow_witness" }
proof | {"commitments":{"quotient_chunks":2,"trace":1},"opened_values":{"quotient_chunks":[],"trace_local":[]},"opening_proof":1,"degree_bits":1,"ood_pow_witness":1,"alpha_pow_witness":12289} => Element { field: "alpha_pow_witness" }
proof | {"commitments":{"quotient_chunks":2,"trace":1},"opened_values":{"quotient_chunks":[],"trace_local":[]},"opening_proof":1,"degree_bits":1,"ood_pow_witness":1,"alpha_pow_witness":[]} => Element { field: "alpha_pow_witness" }
proof | {"commitments":{"quotient_chunks":2,"trace":1},"opened_values":{"preprocessed_next":[],"quotient_chunks":[],"trace_local":[]}} => Openings(NextWithoutCurrent)
proof | {"commitments":{"quotient_chunks":2,"trace":1},"opened_values":1} => Openings(WrongKind { field: "" })

# What is opened of a trace and of its preprocessed columns, and the quotient's chunks.
opened | {"preprocessed_local":[1,2],"preprocessed_next":[3,12288],"quotient_chunks":[[1,2],[3,4]],"random":[9],"trace_local":[5],"trace_next":null} => [5] None Some([1, 2]) Some([3, 12288]) [[1, 2], [3, 4]]

# Three bits in zero knowledge are a trace of four rows in one of eight. The AIR's index; the height's logarithm, is_zk, the
# least logarithm and the greatest.
height | none | 3 1 0 20 => Ok((2, 8))
height | none | 1 1 0 20 => Ok((0, 2))
height | none | 0 1 0 20 => Err(DegreeBitsTooSmall { air: None, minimum: 1, got: 0 })
height | 2 | 1 1 1 20 => Err(DegreeBitsTooSmall { air: Some(2), minimum: 2, got: 1 })
height | none | 20 0 0 20 => Ok((20, 1048576))
height | none | 21 0 0 20 => Err(DegreeBitsTooLarge { air: None, maximum: 20, got: 21 })
height | none | 63 1 0 100 => Ok((62, 9223372036854775808))
height | none | 64 0 0 100 => Err(DegreeBitsTooLarge { air: None, maximum: 63, got: 64 })
"#;

/// The answer to a case of these tables.
pub fn answer<F, EF>(alloc: Global, table: &str, text: &str) -> Result<String, Fail>
where
    F: Field + NeverNull + Debug,
    EF: JsonCodec + Drop,
{
    match table {
        "openings" => openings::<F>(alloc, text),
        "commitments" => commitments::<F>(alloc, text),
        "proof" => proof::<F, EF>(alloc, text),
        "opened" => opened::<F>(alloc, text),
        "height" => height(alloc, text),
        _ => Err(Fail::new("no such table")),
    }
}

pub fn value_of(alloc: Global, text: &str) -> Result<Value, Fail> {
    match Value::from_str(alloc, text) {
        Ok(value) => Ok(value),
        Err(_) => Err(Fail::new("no JSON")),
    }
}

fn openings<F: JsonCodec + Drop>(alloc: Global, text: &str) -> Result<String, Fail> {
    let value = value_of(alloc, text)?;
    match OpenedValues::<F>::from_json(alloc, &value) {
        Ok(openings) => Ok(openings.to_json(alloc)?.to_string(alloc)?),
        Err(error) => shown(alloc, &error),
    }
}

fn commitments<F: NeverNull + Drop>(alloc: Global, text: &str) -> Result<String, Fail> {
    let value = value_of(alloc, text)?;
    match Commitments::<F>::from_json(alloc, &value) {
        Ok(commitments) => Ok(commitments.to_json(alloc)?.to_string(alloc)?),
        Err(error) => shown(alloc, &error),
    }
}

fn proof<F, EF>(alloc: Global, text: &str) -> Result<String, Fail>
where
    F: Field + NeverNull,
    EF: JsonCodec + Drop,
{
    let value = value_of(alloc, text)?;
    match Proof::<F, EF, F, F>::from_json(alloc, &value) {
        Ok(proof) => Ok(proof.to_json(alloc)?.to_string(alloc)?),
        Err(error) => shown(alloc, &error),
    }
}

fn opened<F: JsonCodec + Debug + Drop>(alloc: Global, text: &str) -> Result<String, Fail> {
    let value = value_of(alloc, text)?;
    match OpenedValues::<F>::from_json(alloc, &value) {
        Ok(openings) => {
            let local = format!(in alloc; "{:?}", openings.preprocessed_local())?;
            let next = format!(in alloc; "{:?}", openings.preprocessed_next())?;
            Ok(format!(in alloc;
                "{:?} {:?} {local} {next} {:?}",
                openings.trace_local, openings.trace_next, openings.quotient_chunks
            )?)
        }
        Err(_) => Err(Fail::new("the openings were not read")),
    }
}

fn height(alloc: Global, text: &str) -> Result<String, Fail> {
    let (air, numbers) = apart(text)?;
    let [degree_bits, is_zk, least, greatest] = numbers_in::<4>(numbers)?;
    let air = option_in(air)?;
    if is_zk > 1 || least > 1 {
        return Err(Fail::new("too great"));
    }
    let answer = validate_degree_bits(
        air,
        degree_bits as usize,
        is_zk as usize,
        least as usize,
        greatest as usize,
    );
    shown(alloc, &answer)
}
