//! Worked cases of parameters and of proofs in JSON. Elements are whole numbers here, of the field
//! and of the extension alike.
ghost use Rattle.std.specs.Prelude.{option_map, refl};
ghost use Rattle.serde_json.specs.Data.{number, unsigned};
ghost use Rattle.stark_support.specs.Json.{whole_at};

use crate::{FriParameters, FriProof, FriProofFault};
use serde_json::Value;
use stark_support::{JsonCodec, JsonFault, value_from_bytes};
use std::alloc::{AllocError, Global};
use std::test::Fail;

/// A whole number of at most 64 bits.
#[derive(Clone, Copy, Debug)]
struct Whole {
    number: u64,
}

impl JsonCodec for Whole {
    ghost reading = { λ d. option_map (λ n. record { number = n }) (whole_at d) };

    ghost writing = { λ x. number (unsigned x.number) };

    fn from_json(_alloc: Global, value: &Value) -> Result<Whole, JsonFault> {
        match value.as_u64() {
            Some(number) => Ok(Whole { number }),
            None => Err(JsonFault::Invalid),
        }
    }

    fn to_json(&self, _alloc: Global) -> Result<Value, AllocError> {
        Ok(Value::from(self.number))
    }

    ghost reads_back = { λ x. refl };
}

// A table's name | what is given => the answer. In a JSON text @ stands for the 64 digits below.
const DIGITS: &str = "00112233445566778899aabbccddeeff0123456789abcdeffedcba9876543210";

const CASES: &str = r#"
# The five numbers, in the order of the fields.
parameters | 1 0 1 0 0 => taken
parameters | 63 63 18446744073709551615 63 63 => taken
parameters | 0 64 0 64 64 => without a blow-up every word is a codeword
parameters | 64 64 0 64 64 => the logarithm of the blow-up is past 63
parameters | 63 64 0 64 64 => the logarithm of the final polynomial's length is past 63
parameters | 1 63 0 64 64 => without a query nothing is tested
parameters | 1 63 1 64 64 => the work at a fold is more than 63 bits
parameters | 1 63 1 63 64 => the work before the queries is more than 63 bits

# A proof's text: the one that it is written as, or what is at fault.
proof | {"final_polynomial":[],"phases":[],"queries":[],"query_witness":7} => the same
proof | {"final_polynomial":[5,6],"phases":[{"commitment":"@","witness":1},{"commitment":"@","witness":2}],"queries":[],"query_witness":7} => the same
proof | {"final_polynomial":[5],"phases":[],"queries":[{"inputs":[{"path":["@","@"],"rows":[[1,2],[],[3]]}],"layers":[]}],"query_witness":7} => the same
proof | {"final_polynomial":[5],"phases":[],"queries":[{"inputs":[],"layers":[{"path":[],"sibling":4},{"path":["@"],"sibling":9}]},{"inputs":[],"layers":[]}],"query_witness":7} => the same
proof | {"phases":[],"other":null,"query_witness":7,"queries":[],"final_polynomial":[5]} => {"final_polynomial":[5],"phases":[],"queries":[],"query_witness":7}
proof | [] => the field phases is missing or refused
proof | {} => the field phases is missing or refused
proof | {"phases":[]} => the field final_polynomial is missing or refused
proof | {"phases":[],"final_polynomial":[]} => the field query_witness is missing or refused
proof | {"phases":[],"final_polynomial":[],"query_witness":7} => the field queries is missing or refused
proof | {"phases":null,"final_polynomial":null,"query_witness":null,"queries":null} => the field phases is missing or refused
proof | {"phases":[{"witness":1}],"final_polynomial":[],"query_witness":7,"queries":[]} => the field phases is missing or refused
proof | {"phases":[{"commitment":"@"}],"final_polynomial":[],"query_witness":7,"queries":[]} => the field phases is missing or refused
proof | {"phases":[{"commitment":"@0","witness":1}],"final_polynomial":[],"query_witness":7,"queries":[]} => the field phases is missing or refused
proof | {"phases":[],"final_polynomial":[5,-1],"query_witness":null,"queries":[]} => the field final_polynomial is missing or refused
proof | {"phases":[],"final_polynomial":5,"query_witness":7,"queries":[]} => the field final_polynomial is missing or refused
proof | {"phases":[],"final_polynomial":[],"query_witness":7.5,"queries":null} => the field query_witness is missing or refused
proof | {"phases":[],"final_polynomial":[],"query_witness":7,"queries":[{"inputs":[]}]} => the field queries is missing or refused
proof | {"phases":[],"final_polynomial":[],"query_witness":7,"queries":[{"layers":[]}]} => the field queries is missing or refused
proof | {"phases":[],"final_polynomial":[],"query_witness":7,"queries":[{"inputs":[{"path":["@"]}],"layers":[]}]} => the field queries is missing or refused
proof | {"phases":[],"final_polynomial":[],"query_witness":7,"queries":[{"inputs":[{"path":["@"],"rows":[1]}],"layers":[]}]} => the field queries is missing or refused
proof | {"phases":[],"final_polynomial":[],"query_witness":7,"queries":[{"inputs":[{"path":["@",""],"rows":[]}],"layers":[]}]} => the field queries is missing or refused
proof | {"phases":[],"final_polynomial":[],"query_witness":7,"queries":[{"inputs":[],"layers":[{"path":["@"]}]}]} => the field queries is missing or refused
"#;

/// A text with the digits in place of each @.
fn spelled_out(alloc: Global, text: &str) -> Result<String, Fail> {
    let mut whole = String::new(alloc);
    for (place, piece) in text.split('@').enumerate() {
        if place > 0 {
            whole.push_str(DIGITS)?;
        }
        whole.push_str(piece)?;
    }
    Ok(whole)
}

/// What becomes of five numbers.
fn of_parameters(alloc: Global, text: &str) -> Result<String, Fail> {
    let mut numbers = Vec::new(alloc);
    for word in text.split(' ') {
        numbers.push(word.parse::<usize>()?)?;
    }
    match numbers.as_slice() {
        [blowup, length, queries, commit_bits, query_bits] => {
            match FriParameters::new(*blowup, *length, *queries, *commit_bits, *query_bits) {
                Ok(_) => Ok(String::from_str(alloc, "taken")?),
                Err(error) => Ok(format!(in alloc; "{error}")?),
            }
        }
        _ => Err(Fail::new("not five numbers")),
    }
}

/// What becomes of a proof's text.
fn of_proof(alloc: Global, text: &str) -> Result<String, Fail> {
    let text = spelled_out(alloc, text)?;
    let value = value_from_bytes(alloc, text.as_bytes())
        .ok()
        .ok_or("no JSON")?;
    match FriProof::<Whole, Whole>::decode(alloc, &value) {
        Ok(proof) => {
            let written = proof.to_json(alloc)?.to_string(alloc)?;
            if written == text {
                Ok(String::from_str(alloc, "the same")?)
            } else {
                Ok(written)
            }
        }
        Err(FriProofFault::OutOfMemory) => Err(Fail::new("out of memory")),
        Err(fault) => Ok(format!(in alloc; "{fault}")?),
    }
}

#[test]
fn cases_are_answered(rt: HostRuntime) -> Result<(), Fail> {
    let alloc = rt.alloc();
    let mut count = 0usize;
    for case in CASES.lines() {
        if !case.is_empty() && !case.starts_with('#') {
            let (input, expected) = case.split_once(" => ").ok_or("a case without an answer")?;
            let (table, text) = input.split_once(" | ").ok_or("no bar")?;
            let actual = if table == "parameters" {
                of_parameters(alloc, text)?
            } else {
                of_proof(alloc, text)?
            };
            assert_eq!(rt; actual.as_str(), expected, "{input}");
            count = count.saturating_add(1);
        }
    }
    assert_eq!(rt; count, 31);
    Ok(())
}
