//! Worked cases over the scheme in the clear and over FRI.
use crate::proving::{Case, verdict};
use stark_bench::Sha256Challenger;
use stark_clear::ClearPcs;
use stark_fields::{BabyBearField, Ext4};
use stark_fri_proof::FriParameters;
use stark_fri_prover::FriPcs;
use stark_merkle::Sha256Tree;
use stark_parts::StarkConfig;
use stark_test_cases::{all_cases, apart};
use std::alloc::Global;
use std::test::Fail;

type Base = BabyBearField;

type Above = Ext4<Base>;

// The main columns, each of which is a node, and after them the node of one; column 0 counts the
// rows | lookups with ampersands between, groups with semicolons, interactions with commas, each
// what it sends (+) or receives (-) by the places of nodes, times a node | the rows | what is
// forged => the verdict.
const CASES: &str = r#"
3 | +1*3, -0*2 | 0 2 1 / 1 0 0 / 2 2 2 / 3 3 1 | nothing => accepted
3 | +1*3; -0*2 | 0 2 1 / 1 0 0 / 2 2 2 / 3 3 1 | nothing => accepted
3 | +1*3, -0*2 | 0 2 1 / 1 0 0 / 2 4 2 / 3 3 1 | nothing => constraints fail
3 | +1*3, -0*2 | 0 2 1 / 1 0 0 / 2 2 1 / 3 3 1 | nothing => constraints fail
3 | +1*3, -0*2 | 0 2 1 / 1 0 0 / 2 2 2 / 4 4 1 | nothing => constraints fail
3 | +1*3, -2*3 | 0 5 7 / 1 6 5 / 2 7 8 / 3 8 6 | nothing => accepted
3 | +1*3, -2*3 | 0 5 7 / 1 6 5 / 2 7 8 / 3 8 8 | nothing => constraints fail
3 | +0.1*3, -2.1*3 | 0 9 2 / 1 4 1 / 2 9 0 / 3 5 3 | nothing => accepted
3 | +0.1*3, -2.1*3 | 0 9 2 / 1 4 1 / 2 8 0 / 3 5 3 | nothing => constraints fail
5 | +3.4*5, -0.1*2 | 0 7 1 2 9 / 1 8 2 1 8 / 2 9 1 0 7 / 3 6 0 1 8 | nothing => accepted
5 | +3.4*5, -0.1*2 | 0 7 1 2 9 / 1 8 2 1 8 / 2 9 1 0 6 / 3 6 0 1 8 | nothing => constraints fail
5 | +1*5, -0*2 & +3*5, -4*5 | 0 2 1 5 7 / 1 0 0 6 5 / 2 2 2 7 8 / 3 3 1 8 6 | nothing => accepted
5 | +1*5, -0*2 & +3*5, -4*5 | 0 2 1 5 7 / 1 0 0 6 5 / 2 2 2 7 8 / 3 3 1 8 7 | nothing => constraints fail
3 | +1*3, -0*2 | 0 2 1 / 1 0 0 / 2 2 2 / 3 3 1 | a whole trace => not in parts
3 | +1*3, -0*2 | 0 2 1 / 1 0 0 / 2 2 2 / 3 3 1 | another second part => refused
3 | +1*3, -0*2 | 0 2 1 / 1 0 0 / 2 2 2 / 3 3 1 | draws for other rows => refused
3 | +1*3, -0*2 | 0 2 1 / 1 0 0 / 2 2 2 / 3 3 1 | a witness => a witness without work
3 | +1*3, -0*2 | 0 2 1 / 1 0 0 / 2 2 2 / 3 3 1 | more work => no work
"#;

fn case_in(text: &str) -> Result<Case<'_>, Fail> {
    let (width, rest) = apart(text)?;
    let (lookups, rest) = apart(rest)?;
    let (rows, forged) = apart(rest)?;
    Ok(Case {
        width: width.parse::<usize>()?,
        lookups,
        rows,
        forged,
    })
}

fn in_the_clear(alloc: Global, text: &str) -> Result<String, Fail> {
    let case = case_in(text)?;
    let pcs: ClearPcs<Base> = ClearPcs::new();
    let config: StarkConfig<ClearPcs<Base>, Above, Sha256Challenger<Base>> = StarkConfig::new(
        pcs,
        Sha256Challenger::<Base>::new(),
    );
    let word = verdict(alloc, config, &case)?;
    Ok(String::from_str(alloc, word)?)
}

fn over_fri(alloc: Global, text: &str) -> Result<String, Fail> {
    let case = case_in(text)?;
    let parameters = FriParameters::new(2, 0, 4, 0, 0)
        .ok()
        .ok_or("no parameters")?;
    let pcs: FriPcs<Base, Sha256Tree> = FriPcs::new(parameters);
    let config: StarkConfig<FriPcs<Base, Sha256Tree>, Above, Sha256Challenger<Base>> =
        StarkConfig::new(pcs, Sha256Challenger::<Base>::new());
    let word = verdict(alloc, config, &case)?;
    Ok(String::from_str(alloc, word)?)
}

#[test]
fn lookups_in_the_clear(rt: HostRuntime) -> Result<(), Fail> {
    all_cases(rt.alloc(), CASES, in_the_clear)
}

#[test]
fn lookups_over_fri(rt: HostRuntime) -> Result<(), Fail> {
    all_cases(rt.alloc(), CASES, over_fri)
}
