//! Commitments in parts, as JSON and to a challenger.
use stark_bench::Sha256Challenger;
use stark_fields::{BabyBear, F12289, Lockstep, M12289, Modulus, Residue, Scalar};
use stark_merkle::Root;
use stark_support::{CanObserve, CanSample, JsonCodec, PrimeField64};
use stark_test_cases::{all_cases, shown, spelled};
use stark_two_part::InParts;
use std::alloc::Global;
use std::test::Fail;

const IN_JSON: &str = r#"
[7] => Whole(7), [7]
[7,9] => Parts(7, 9), [7,9]
[9,7] => Parts(9, 7), [9,7]
[0, 12288] => Parts(0, 12288), [0,12288]
[] => Invalid
[7,9,7] => Invalid
[12289] => Invalid
[7,12289] => Invalid
[[7]] => Invalid
7 => Invalid
null => Invalid
{"whole":7} => Invalid
"#;

fn in_json(alloc: Global, text: &str) -> Result<String, Fail> {
    match spelled::<InParts<F12289>>(alloc, text) {
        Ok(parts) => {
            let written = parts.to_json(alloc)?.to_string(alloc)?;
            match &parts {
                InParts::Whole(whole) => {
                    let number = whole.as_canonical_u64();
                    Ok(format!(in alloc; "Whole({number}), {written}")?)
                }
                InParts::Parts(left, right) => {
                    let (left, right) = (left.as_canonical_u64(), right.as_canonical_u64());
                    Ok(format!(in alloc; "Parts({left}, {right}), {written}")?)
                }
            }
        }
        Err(fault) => Ok(format!(in alloc; "{fault:?}")?),
    }
}

#[test]
fn commitments_in_json(rt: HostRuntime) -> Result<(), Fail> {
    all_cases(rt.alloc(), IN_JSON, in_json)
}

// Roots of one byte over and over; what is drawn after them, three times.
const OVER_12289: &str = r#"
7 => [3346, 1043, 8296]
9 => [12177, 7414, 3194]
7 9 => [12210, 2975, 9824]
9 7 => [3457, 10855, 1647]
7 7 => [10341, 5846, 8528]
"#;

const OVER_BABY_BEAR: &str = r#"
7 => [1011244273, 1279682753, 1474898467]
7 9 => [693968670, 747028770, 1088518163]
"#;

fn root_of(byte: &str) -> Result<Root, Fail> {
    Ok(Root::new([byte.parse::<u8>()?; 32]))
}

fn roots_in(text: &str) -> Result<InParts<Root>, Fail> {
    match text.split_once(' ') {
        Some((left, right)) => Ok(InParts::Parts(root_of(left)?, root_of(right)?)),
        None => Ok(InParts::Whole(root_of(text)?)),
    }
}

fn drawn_after<M: Modulus, Kind>(alloc: Global, text: &str) -> Result<String, Fail> {
    let roots = roots_in(text)?;
    let mut challenger: Sha256Challenger<Residue<M, Kind>> = Sha256Challenger::new();
    challenger.observe(&roots);
    let mut numbers = Vec::new(alloc);
    for _ in 0..3u8 {
        let drawn: Residue<M, Kind> = challenger.sample();
        numbers.push(drawn.as_canonical_u64())?;
    }
    shown(alloc, &numbers)
}

fn small(alloc: Global, text: &str) -> Result<String, Fail> {
    drawn_after::<M12289, Lockstep>(alloc, text)
}

fn large(alloc: Global, text: &str) -> Result<String, Fail> {
    drawn_after::<BabyBear, Scalar>(alloc, text)
}

#[test]
fn roots_are_observed(rt: HostRuntime) -> Result<(), Fail> {
    all_cases(rt.alloc(), OVER_12289, small)?;
    all_cases(rt.alloc(), OVER_BABY_BEAR, large)
}
