//! Roots of trees over extended rows.
use serde_json::Value;
use stark_bench::F12289;
use stark_fri_prover::commit_columns;
use stark_merkle::{Sha256Tree, TreeHash};
use stark_support::{
    JsonCodec, NeverNull, PrimeField64, TwoAdicField, lists_from_json, value_from_bytes,
};
use std::alloc::Global;
use std::test::Fail;

// The logarithms of the height and of the blow-up, and of each matrix its columns' coefficients =>
// the root, as the prover of `scripts/fri_vectors.py` computes it.
pub const CASES: &str = r#"
0 1 [[[1864]]] => "00644078730d75d5f2610c35ca5818836547cb99c4652d5c9f503ac7ebda850a"
1 1 [[[10530,3042]]] => "6286388df3be7e69ca56b0a546646f351aaa8c9da06986e075e0ccfd50264b28"
1 2 [[[12177,7865],[8972,5770]]] => "4addf3e9fd0407dae46870593a7f0573dedb4939fb98b09db1a6e07e2a46398a"
3 1 [[[11397,5232,10111,7584,2,6830,4444,799],[6478,5471,5659,5903,1490,5138,4683,5203]]] => "61e1fa4db926decd8977c07014566ba7806104f34e23132624fad75734ecce29"
2 1 [[[8902,9702,3520,6116]],[[7245,1328,3163,8880],[535,493,4156,10691]]] => "942b102e2217d5d251c4c1e8d5fdbf79eb8316054f60cc9323369978d22b7647"
2 3 [[[7178,8116,3630,3133],[11540,8471,9619,10677],[6752,4931,10712,7854]]] => "be862b905e2f35cddd3c9e679b0d774db943e9c781dc073f50f63845c2c8f6bf"
2 1 [[]] => "6bab28e880f91ca9a6ef3c6946c9005f1e7a9f8de7cc8e1964107b5cbc11002f"
"#;

/// The columns of each matrix.
fn matrices_of<F: JsonCodec + Drop>(
    alloc: Global,
    value: &Value,
) -> Result<Vec<Vec<Vec<F>>>, Fail> {
    let mut matrices = Vec::new(alloc);
    for item in value.as_array().ok_or("no array")? {
        let columns = lists_from_json(alloc, item).ok().ok_or("no columns")?;
        matrices.push(columns)?;
    }
    Ok(matrices)
}

/// The root over a case's columns, as JSON.
fn root_of<F, H>(alloc: Global, height: usize, blowup: usize, text: &str) -> Result<String, Fail>
where
    F: TwoAdicField + PrimeField64 + NeverNull,
    H: TreeHash,
{
    if height > F::TWO_ADICITY || blowup > F::TWO_ADICITY - height {
        return Err(Fail::new("no group is so large"));
    }
    let value = value_from_bytes(alloc, text.as_bytes())
        .ok()
        .ok_or("no JSON")?;
    let matrices = matrices_of::<F>(alloc, &value)?;
    let (root, data) = commit_columns::<F, H>(alloc, height, blowup, matrices)?;
    if data.root().bytes() != root.bytes() || data.domain().log_size != height {
        return Err(Fail::new("other data"));
    }
    Ok(root.to_json(alloc)?.to_string(alloc)?)
}

/// The answer to a case, over the field of 12289 and SHA-256.
pub fn answer(alloc: Global, case: &str) -> Result<String, Fail> {
    let (height, rest) = case.split_once(' ').ok_or("one word")?;
    let (blowup, columns) = rest.split_once(' ').ok_or("two words")?;
    root_of::<F12289, Sha256Tree>(
        alloc,
        height.parse::<usize>()?,
        blowup.parse::<usize>()?,
        columns,
    )
}
