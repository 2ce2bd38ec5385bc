//! Verdicts over three fields.
use crate::checked::prove_over_baby_bear;
use crate::proving::{Rows, proved};
use crate::service::{Config, configuration, counted};
use p3_uni_stark::{CheckedProvingError, StarkProof, VerificationError, prove, verify};
use stark_bench::Sha256Challenger;
use stark_fields::{BabyBearField, Ext4, F12289, KoalaBearField};
use stark_over_fri::verify_over_fri;
use stark_samples::CounterAir;
use stark_support::{PrimeField64, RowMajorMatrix};
use stark_test_proofs::fits;
use std::alloc::Global;
use std::test::Fail;

// From the public value on, up by one.
const COUNTER: &str =
    r#"{"width":1,"publics":1,"periodic":[],"preprocessed":null,"constants":[1],"nodes":[["main",0],["first"],["public",0],["sub",0,2],["mul",1,3],["transition"],["next",0],["sub",6,0],["constant",0],["sub",7,8],["mul",5,9]],"constraints":[{"base":4},{"base":10}]}"#;

// Two columns from two public values on; the last of the second is the third.
const FIBONACCI: &str =
    r#"{"width":2,"publics":3,"periodic":[],"preprocessed":null,"constants":[],"nodes":[["main",0],["main",1],["first"],["public",0],["sub",0,3],["mul",2,4],["public",1],["sub",1,6],["mul",2,7],["transition"],["next",0],["sub",10,1],["mul",9,11],["next",1],["add",0,1],["sub",13,14],["mul",9,15],["last"],["public",2],["sub",1,18],["mul",17,19]],"constraints":[{"base":5},{"base":8},{"base":12},{"base":16},{"base":20}]}"#;

// A machine of sixteen steps, with its program in preprocessed columns.
const MACHINE: &str =
    r#"{"width":2,"publics":2,"periodic":[],"preprocessed":{"width":5,"rows":[[1,0,0,0,3],[0,0,1,0,0],[0,1,0,0,4],[0,0,1,0,0],[0,0,1,0,0],[0,1,0,0,2],[0,0,1,0,0],[0,1,0,0,1],[0,0,0,1,0],[1,0,0,0,9],[0,0,1,0,0],[0,1,0,0,1],[1,0,0,0,0],[0,0,1,0,0],[0,1,0,0,7],[0,0,0,1,0]]},"constants":[1],"nodes":[["main",0],["main",1],["preprocessed",0],["preprocessed",1],["preprocessed",2],["preprocessed",3],["preprocessed",4],["first"],["public",0],["sub",0,8],["mul",7,9],["mul",7,1],["constant",0],["sub",1,12],["mul",1,13],["sub",12,1],["transition"],["next",1],["mul",15,5],["add",1,18],["sub",17,19],["mul",16,20],["mul",2,6],["add",0,6],["mul",3,23],["add",22,24],["add",0,0],["mul",4,26],["add",25,27],["mul",5,0],["add",28,29],["next",0],["mul",1,0],["mul",15,30],["add",32,33],["sub",31,34],["mul",16,35],["last"],["public",1],["sub",0,38],["mul",37,39],["mul",37,13]],"constraints":[{"base":10},{"base":11},{"base":14},{"base":21},{"base":36},{"base":40},{"base":41}]}"#;

// Four values of eight bits.
const RANGE: &str =
    r#"{"width":3,"publics":0,"periodic":[[1,2,4,8,16,32,64,128],[0,0,0,0,0,0,0,1]],"preprocessed":null,"constants":[1],"nodes":[["main",0],["main",1],["main",2],["periodic",0],["periodic",1],["constant",0],["sub",1,5],["mul",1,6],["first"],["mul",8,2],["mul",3,1],["add",2,10],["transition"],["next",2],["sub",5,4],["mul",14,11],["sub",13,15],["mul",12,16],["sub",11,0],["mul",4,18],["next",0],["sub",20,0],["mul",14,21],["mul",12,22]],"constraints":[{"base":7},{"base":9},{"base":17},{"base":19},{"base":23}]}"#;

// A cube that is zero.
const CUBIC: &str =
    r#"{"width":1,"publics":0,"periodic":[],"constants":[],"nodes":[["main",0],["mul",0,0],["mul",1,0]],"constraints":[{"base":2}]}"#;

// A column that repeats 0, 1.
const PERIODIC: &str =
    r#"{"width":1,"publics":0,"periodic":[[0,1]],"constants":[],"nodes":[["main",0],["periodic",0],["sub",0,1]],"constraints":[{"base":2}]}"#;

// A column that is preprocessed.
const PREPROCESSED: &str =
    r#"{"width":1,"publics":0,"periodic":[],"preprocessed":{"width":1,"rows":[[1],[2],[3],[4]]},"constants":[],"nodes":[["main",0],["preprocessed",0],["sub",0,1]],"constraints":[{"base":2}]}"#;

// A product that is 7, over the extension and over the base field.
const EXTENSION: &str =
    r#"{"width":2,"publics":0,"periodic":[],"constants":[7],"nodes":[["main",0],["main",1],["mul",0,1],["constant",0],["sub",2,3]],"constraints":[{"ext":4},{"base":4}]}"#;

// Two counters from one public value.
const PAIR: &str =
    r#"{"width":2,"publics":1,"periodic":[],"preprocessed":null,"constants":[1],"nodes":[["main",0],["main",1],["first"],["public",0],["sub",0,3],["mul",2,4],["sub",1,3],["mul",2,6],["transition"],["constant",0],["next",0],["sub",10,0],["sub",11,9],["mul",8,12],["next",1],["sub",14,1],["sub",15,9],["mul",8,16]],"constraints":[{"base":5},{"base":13},{"base":7},{"base":17}]}"#;

/// A case of a table: the parameters, an AIR, the height, a trace, the public values, and the
/// verdict.
type Line = (
    [usize; 5],
    &'static str,
    usize,
    &'static str,
    &'static str,
    &'static str,
);

// A trace that satisfies its AIR, and one that doesn't; blow-ups of 2, 4 and 8, final polynomials
// of 1 to 8 coefficients, with work and without.
const LINES: [Line; 21] = [
    (
        [1, 0, 3, 1, 2],
        COUNTER,
        3,
        "[5,6,7,8,9,10,11,12]",
        "[5]",
        "accepted",
    ),
    ([2, 1, 2, 0, 0], COUNTER, 0, "[5]", "[5]", "accepted"),
    ([1, 3, 2, 0, 0], COUNTER, 2, "[5,6,7,8]", "[5]", "accepted"),
    ([1, 0, 3, 1, 2], COUNTER, 1, "[5,7]", "[5]", "refused"),
    (
        [1, 0, 2, 0, 1],
        COUNTER,
        3,
        "[5,6,7,8,10,11,12,13]",
        "[5]",
        "refused",
    ),
    (
        [1, 0, 2, 0, 1],
        FIBONACCI,
        4,
        "[0,1,1,1,1,2,2,3,3,5,5,8,8,13,13,21,21,34,34,55,55,89,89,144,144,233,233,377,377,610,610,987]",
        "[0,1,987]",
        "accepted",
    ),
    (
        [1, 0, 2, 0, 1],
        FIBONACCI,
        4,
        "[0,1,1,1,1,2,2,3,3,5,5,8,8,13,13,21,21,34,34,55,55,89,89,144,144,233,233,377,377,610,610,988]",
        "[0,1,987]",
        "refused",
    ),
    (
        [2, 1, 2, 1, 0],
        MACHINE,
        4,
        "[0,0,3,0,6,0,10,0,20,0,40,0,42,0,84,0,85,0,85,1,85,1,85,1,85,1,85,1,85,1,85,1]",
        "[0,85]",
        "accepted",
    ),
    (
        [2, 1, 2, 1, 0],
        MACHINE,
        4,
        "[0,0,3,0,6,0,10,0,20,0,40,0,42,0,84,0,85,0,85,1,9,1,9,1,9,1,9,1,9,1,9,1]",
        "[0,85]",
        "refused",
    ),
    (
        [1, 2, 2, 0, 3],
        RANGE,
        5,
        "[0,0,0,0,0,0,0,0,0,0,0,0,0,0,0,0,0,0,0,0,0,0,0,0,200,0,0,200,0,0,200,0,0,200,1,0,200,0,8,200,0,8,200,1,8,200,1,72,255,1,0,255,1,1,255,1,3,255,1,7,255,1,15,255,1,31,255,1,63,255,1,127,17,1,0,17,0,1,17,0,1,17,0,1,17,1,1,17,0,17,17,0,17,17,0,17]",
        "[]",
        "accepted",
    ),
    (
        [1, 2, 2, 0, 3],
        RANGE,
        5,
        "[0,0,0,0,0,0,0,0,0,0,0,0,0,0,0,0,0,0,0,0,0,0,0,0,200,0,0,200,0,0,200,0,0,200,1,0,200,0,8,200,0,8,200,1,8,200,1,72,256,0,0,256,0,0,256,0,0,256,0,0,256,0,0,256,0,0,256,0,0,256,0,0,17,1,0,17,0,1,17,0,1,17,0,1,17,1,1,17,0,17,17,0,17,17,0,17]",
        "[]",
        "refused",
    ),
    ([1, 0, 2, 0, 0], CUBIC, 2, "[0,0,0,0]", "[]", "accepted"),
    ([1, 0, 2, 0, 0], CUBIC, 2, "[0,0,0,1]", "[]", "refused"),
    (
        [1, 1, 2, 0, 1],
        PERIODIC,
        3,
        "[0,1,0,1,0,1,0,1]",
        "[]",
        "accepted",
    ),
    ([1, 1, 2, 0, 1], PERIODIC, 2, "[0,1,1,1]", "[]", "refused"),
    (
        [3, 0, 2, 0, 0],
        PREPROCESSED,
        2,
        "[1,2,3,4]",
        "[]",
        "accepted",
    ),
    (
        [3, 0, 2, 0, 0],
        PREPROCESSED,
        2,
        "[1,2,3,5]",
        "[]",
        "refused",
    ),
    ([1, 0, 2, 1, 1], EXTENSION, 1, "[1,7,7,1]", "[]", "accepted"),
    ([1, 0, 2, 1, 1], EXTENSION, 1, "[1,7,7,2]", "[]", "refused"),
    (
        [2, 0, 2, 1, 1],
        PAIR,
        2,
        "[5,5,6,6,7,7,8,8]",
        "[5]",
        "accepted",
    ),
    (
        [2, 0, 2, 1, 1],
        PAIR,
        2,
        "[5,5,6,6,7,7,8,9]",
        "[5]",
        "refused",
    ),
];

fn rows_of(line: &Line) -> Rows {
    let (_numbers, air, log_height, trace, public_values, _verdict) = *line;
    Rows {
        air,
        log_height,
        trace,
        public_values,
    }
}

#[test]
fn proofs(rt: HostRuntime) -> Result<(), Fail> {
    let alloc = rt.alloc();
    for line in &LINES {
        let rows = rows_of(line);
        let small = proved::<F12289, Ext4<F12289>, Sha256Challenger<F12289>>(
            alloc,
            Sha256Challenger::new(),
            line.0,
            &rows,
        )?;
        assert_eq!(rt; small, line.5);
        let baby = proved::<BabyBearField, Ext4<BabyBearField>, Sha256Challenger<BabyBearField>>(
            alloc,
            Sha256Challenger::new(),
            line.0,
            &rows,
        )?;
        assert_eq!(rt; baby, line.5);
        let koala = proved::<
            KoalaBearField,
            Ext4<KoalaBearField>,
            Sha256Challenger<KoalaBearField>,
        >(alloc, Sha256Challenger::new(), line.0, &rows)?;
        assert_eq!(rt; koala, line.5);
    }
    Ok(())
}

/// A proof that the counter counted from 5 to 8, over this configuration.
fn counter_proof(alloc: Global, config: &Config) -> Result<StarkProof<Config>, Fail> {
    let elements = [
        BabyBearField::from_u8(5),
        BabyBearField::from_u8(6),
        BabyBearField::from_u8(7),
        BabyBearField::from_u8(8),
    ];
    let trace = RowMajorMatrix::new(Vec::from_slice(alloc, &elements)?, 1);
    let public_values = [BabyBearField::from_u8(5)];
    if !fits(config, &CounterAir, 2, &trace, &public_values) {
        return Err(Fail::new("no room"));
    }
    match prove(alloc, config, &CounterAir, trace, &public_values) {
        Ok(proof) => Ok(proof),
        Err(_) => Err(Fail::new("no proof")),
    }
}

#[test]
fn as_text(rt: HostRuntime) -> Result<(), Fail> {
    let alloc = rt.alloc();
    let Ok(config) = configuration() else {
        return Err(Fail::new("no configuration"));
    };
    let proof = counter_proof(alloc, &config)?;
    let text = proof.to_json(alloc)?.to_string(alloc)?;
    let (five, six) = (BabyBearField::from_u8(5), BabyBearField::from_u8(6));
    assert!(rt; counted(alloc, &config, text.as_bytes(), five)?);
    assert!(rt; !counted(alloc, &config, text.as_bytes(), six)?);
    assert!(rt; !counted(alloc, &config, b"{}", five)?);
    Ok(())
}

/// A proof of a checked column of four numbers, the public value 5, over this configuration.
fn checked_proof(
    alloc: Global,
    config: &Config,
    numbers: [u8; 4],
) -> Result<Result<StarkProof<Config>, Option<usize>>, Fail> {
    let elements = numbers.map(BabyBearField::from_u8);
    let trace = RowMajorMatrix::new(Vec::from_slice(alloc, &elements)?, 1);
    let public_values = [BabyBearField::from_u8(5)];
    if !fits(config, &CounterAir, 2, &trace, &public_values) {
        return Err(Fail::new("no room"));
    }
    match prove_over_baby_bear(alloc, config, &CounterAir, 2, trace, &public_values, None) {
        Ok(proof) => Ok(Ok(proof)),
        Err(CheckedProvingError::Violation(violation)) => Ok(Err(Some(violation.row))),
        Err(CheckedProvingError::Proving(_)) => Ok(Err(None)),
    }
}

/// What the verifier with the theorem on tables says of a counter's proof.
fn over_fri(
    alloc: Global,
    config: &Config,
    proof: &StarkProof<Config>,
    public_values: [BabyBearField; 1],
) -> &'static str {
    match verify_over_fri(alloc, config, &CounterAir, proof, &public_values, None) {
        Ok(()) => "accepted",
        Err(VerificationError::InvalidOpeningArgument(_)) => "another opening",
        Err(_) => "another fault",
    }
}

#[test]
fn checked(rt: HostRuntime) -> Result<(), Fail> {
    let alloc = rt.alloc();
    let Ok(config) = configuration() else {
        return Err(Fail::new("no configuration"));
    };
    let five = [BabyBearField::from_u8(5)];
    match checked_proof(alloc, &config, [5, 6, 7, 8])? {
        Ok(proof) => {
            assert!(rt; verify(alloc, &config, &CounterAir, &proof, &five).is_ok());
            assert_eq!(rt; over_fri(alloc, &config, &proof, five), "accepted");
            let six = [BabyBearField::from_u8(6)];
            assert_eq!(rt; over_fri(alloc, &config, &proof, six), "another opening");
        }
        Err(_) => return Err(Fail::new("no proof")),
    }
    // The third number isn't one more than the second.
    match checked_proof(alloc, &config, [5, 6, 8, 9])? {
        Ok(_) => return Err(Fail::new("a proof of a broken trace")),
        Err(row) => assert_eq!(rt; row, Some(1)),
    }
    Ok(())
}
