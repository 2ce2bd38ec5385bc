//! Worked cases in the clear and over FRI.
use crate::proving::{Case, verdict};
use stark_bench::Sha256Challenger;
use stark_clear::ClearPcs;
use stark_fields::{BabyBearField, Ext4};
use stark_fri_proof::FriParameters;
use stark_fri_prover::FriPcs;
use stark_merkle::Sha256Tree;
use stark_samples::{
    AnySampleAir, CounterAir, CubicAir, FibonacciAir, PairAir, PeriodicAir, PreprocessedAir,
};
use stark_support::value_from_bytes;
use stark_test_cases::{all_cases, apart};
use stark_tree_air::TreeAir;
use std::alloc::Global;
use std::test::Fail;

type Base = BabyBearField;

type Above = Ext4<Base>;

// A sample AIR | after how many columns its trace is cut | the logarithm of the number of rows |
// the trace | the public values | what is forged => how the proof commits to the trace, and the
// verdict.
const SAMPLES: &str = r#"
fibonacci | 0 | 2 | [0,1,1,1,1,2,2,3] | [0,1,3] | nothing => whole, accepted
fibonacci | 1 | 2 | [0,1,1,1,1,2,2,3] | [0,1,3] | nothing => in parts, accepted
fibonacci | 1 | 2 | [0,1,1,1,1,2,2,4] | [0,1,3] | nothing => constraints fail
fibonacci | 2 | 2 | [0,1,1,1,1,2,2,3] | [0,1,3] | nothing => whole, accepted
fibonacci | 3 | 2 | [0,1,1,1,1,2,2,3] | [0,1,3] | nothing => whole, accepted
fibonacci | 1 | 2 | [0,1,1,1,1,2,2,3] | [0,1,3] | swapped => in parts, an opening is refused
fibonacci | 1 | 2 | [0,1,1,1,1,2,2,3] | [0,1,3] | first alone => whole, an opening is refused
fibonacci | 1 | 2 | [0,1,1,1,1,2,2,3] | [0,1,3] | second alone => whole, an opening is refused
pair | 1 | 2 | [5,5,6,6,7,7,8,8] | [5] | nothing => in parts, accepted
pair | 1 | 2 | [5,5,6,6,7,8,8,8] | [5] | nothing => constraints fail
pair | 1 | 0 | [5,5] | [5] | nothing => in parts, accepted
counter | 0 | 2 | [5,6,7,8] | [5] | nothing => whole, accepted
counter | 1 | 2 | [5,6,7,8] | [5] | nothing => whole, accepted
counter | 1 | 2 | [5,6,7,8] | [5] | twice => in parts, an opening is refused
fibonacci | 2 | 2 | [0,1,1,1,1,2,2,3] | [0,1,3] | twice => in parts, an opening is refused
cubic | 1 | 1 | [0,0] | [] | nothing => whole, accepted
periodic | 1 | 2 | [0,1,0,1] | [] | nothing => whole, accepted
preprocessed | 1 | 2 | [1,2,3,4] | [] | nothing => whole, accepted
"#;

// Three columns: the first is the preprocessed one, and the second is the third of the next row,
// round the end.
const THREE_COLUMNS: &str =
    r#"{"width":3,"publics":0,"periodic":[],"preprocessed":{"width":1,"rows":[[1],[2],[3],[4]]},"constants":[],"nodes":[["main",0],["preprocessed",0],["sub",0,1],["main",1],["next",2],["sub",3,4]],"constraints":[{"base":2},{"base":5}]}"#;

// The same of that AIR, without its name.
const THREE: &str = r#"
0 | 2 | [1,6,9,2,7,6,3,8,7,4,9,8] | [] | nothing => whole, accepted
1 | 2 | [1,6,9,2,7,6,3,8,7,4,9,8] | [] | nothing => in parts, accepted
2 | 2 | [1,6,9,2,7,6,3,8,7,4,9,8] | [] | nothing => in parts, accepted
3 | 2 | [1,6,9,2,7,6,3,8,7,4,9,8] | [] | nothing => whole, accepted
1 | 2 | [1,6,9,2,7,6,3,8,7,4,8,8] | [] | nothing => constraints fail
2 | 2 | [1,6,9,2,7,6,3,8,7,5,9,8] | [] | nothing => constraints fail
1 | 2 | [1,6,9,2,7,6,3,8,7,4,9,8] | [] | swapped => in parts, an opening is refused
2 | 2 | [1,6,9,2,7,6,3,8,7,4,9,8] | [] | first alone => whole, an opening is refused
"#;

fn sample(alloc: Global, name: &str) -> Result<AnySampleAir<Base>, Fail> {
    Ok(match name {
        "counter" => AnySampleAir::Counter(CounterAir),
        "cubic" => AnySampleAir::Cubic(CubicAir),
        "fibonacci" => AnySampleAir::Fibonacci(FibonacciAir),
        "pair" => AnySampleAir::Pair(PairAir),
        "periodic" => AnySampleAir::Periodic(PeriodicAir::new(alloc)?),
        "preprocessed" => AnySampleAir::Preprocessed(PreprocessedAir),
        _ => return Err(Fail::new("no such sample")),
    })
}

fn three_columns(alloc: Global) -> Result<TreeAir<Base>, Fail> {
    let Ok(json) = value_from_bytes(alloc, THREE_COLUMNS.as_bytes()) else {
        return Err(Fail::new("no JSON"));
    };
    match TreeAir::from_json(alloc, &json) {
        Ok(air) => Ok(air),
        Err(_) => Err(Fail::new("no AIR")),
    }
}

fn case_in(text: &str) -> Result<Case<'_>, Fail> {
    let (first_width, rest) = apart(text)?;
    let (log_height, rest) = apart(rest)?;
    let (trace, rest) = apart(rest)?;
    let (public_values, forged) = apart(rest)?;
    Ok(Case {
        first_width: first_width.parse::<usize>()?,
        log_height: log_height.parse::<usize>()?,
        trace,
        public_values,
        forged,
    })
}

fn fri() -> Result<FriPcs<Base, Sha256Tree>, Fail> {
    let parameters = FriParameters::new(2, 0, 4, 0, 0)
        .ok()
        .ok_or("no parameters")?;
    Ok(FriPcs::new(parameters))
}

fn sample_in_the_clear(alloc: Global, text: &str) -> Result<String, Fail> {
    let (name, rest) = apart(text)?;
    let case = case_in(rest)?;
    let pcs: ClearPcs<Base> = ClearPcs::new();
    let challenger = Sha256Challenger::<Base>::new();
    let air = sample(alloc, name)?;
    let words = verdict::<ClearPcs<Base>, Above, _, _>(alloc, pcs, challenger, &air, &case)?;
    Ok(String::from_str(alloc, words)?)
}

fn sample_over_fri(alloc: Global, text: &str) -> Result<String, Fail> {
    let (name, rest) = apart(text)?;
    let case = case_in(rest)?;
    let challenger = Sha256Challenger::<Base>::new();
    let air = sample(alloc, name)?;
    let words = verdict::<_, Above, _, _>(alloc, fri()?, challenger, &air, &case)?;
    Ok(String::from_str(alloc, words)?)
}

fn three_in_the_clear(alloc: Global, text: &str) -> Result<String, Fail> {
    let case = case_in(text)?;
    let pcs: ClearPcs<Base> = ClearPcs::new();
    let challenger = Sha256Challenger::<Base>::new();
    let air = three_columns(alloc)?;
    let words = verdict::<ClearPcs<Base>, Above, _, _>(alloc, pcs, challenger, &air, &case)?;
    Ok(String::from_str(alloc, words)?)
}

fn three_over_fri(alloc: Global, text: &str) -> Result<String, Fail> {
    let case = case_in(text)?;
    let challenger = Sha256Challenger::<Base>::new();
    let air = three_columns(alloc)?;
    let words = verdict::<_, Above, _, _>(alloc, fri()?, challenger, &air, &case)?;
    Ok(String::from_str(alloc, words)?)
}

#[test]
fn samples_in_the_clear(rt: HostRuntime) -> Result<(), Fail> {
    all_cases(rt.alloc(), SAMPLES, sample_in_the_clear)
}

#[test]
fn samples_over_fri(rt: HostRuntime) -> Result<(), Fail> {
    all_cases(rt.alloc(), SAMPLES, sample_over_fri)
}

#[test]
fn three_columns_in_the_clear(rt: HostRuntime) -> Result<(), Fail> {
    all_cases(rt.alloc(), THREE, three_in_the_clear)
}

#[test]
fn three_columns_over_fri(rt: HostRuntime) -> Result<(), Fail> {
    all_cases(rt.alloc(), THREE, three_over_fri)
}
