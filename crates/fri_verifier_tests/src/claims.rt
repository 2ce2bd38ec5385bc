//! Claims of values of columns under roots, from JSON.

use serde_json::Value;
use stark_bench::Coset;
use stark_merkle::Root;
use stark_support::{JsonCodec, MatrixClaim, OpeningClaim, TwoAdicField, field_of, list_from_json};
use std::alloc::Global;
use std::test::Fail;

/// A point, and the values that are claimed there.
#[derive(Drop)]
pub struct PointClaim<EF> {
    point: EF,
    values: Vec<EF>,
}

/// The logarithm of a matrix's height, and its points.
#[derive(Drop)]
pub struct MatrixClaims<EF> {
    log_height: usize,
    points: Vec<PointClaim<EF>>,
}

/// A root, and what is claimed of its matrices.
#[derive(Drop)]
pub struct RoundClaims<EF> {
    commitment: Root,
    matrices: Vec<MatrixClaims<EF>>,
}

/// The value under a name.
pub fn under<'a>(value: &'a Value, name: &str) -> Result<&'a Value, Fail> {
    Ok(field_of(value, name).ok().ok_or("no such field")?)
}

/// The items of the array under a name.
fn items<'a>(value: &'a Value, name: &str) -> Result<&'a [Value], Fail> {
    Ok(under(value, name)?.as_array().ok_or("no array")?)
}

/// A whole number.
pub fn whole(value: &Value) -> Result<usize, Fail> {
    Ok(value.as_u64().ok_or("no whole number")? as usize)
}

/// What a value spells.
pub fn read<T: JsonCodec>(alloc: Global, value: &Value) -> Result<T, Fail> {
    Ok(T::from_json(alloc, value).ok().ok_or("no such value")?)
}

fn read_point<EF: JsonCodec + Drop>(alloc: Global, value: &Value) -> Result<PointClaim<EF>, Fail> {
    let point = read(alloc, under(value, "point")?)?;
    let values = list_from_json(alloc, under(value, "values")?)
        .ok()
        .ok_or("no values")?;
    Ok(PointClaim { point, values })
}

fn read_matrix<EF: JsonCodec + Drop>(
    alloc: Global,
    value: &Value,
) -> Result<MatrixClaims<EF>, Fail> {
    let log_height = whole(under(value, "log_height")?)?;
    let mut points = Vec::new(alloc);
    for item in items(value, "points")? {
        points.push(read_point(alloc, item)?)?;
    }
    Ok(MatrixClaims { log_height, points })
}

fn read_round<EF: JsonCodec + Drop>(alloc: Global, value: &Value) -> Result<RoundClaims<EF>, Fail> {
    let commitment = read(alloc, under(value, "commitment")?)?;
    let mut matrices = Vec::new(alloc);
    for item in items(value, "matrices")? {
        matrices.push(read_matrix(alloc, item)?)?;
    }
    Ok(RoundClaims {
        commitment,
        matrices,
    })
}

/// The rounds of a text's `claims`.
pub fn read_rounds<EF: JsonCodec + Drop>(
    alloc: Global,
    value: &Value,
) -> Result<Vec<RoundClaims<EF>>, Fail> {
    let mut rounds = Vec::new(alloc);
    for item in items(value, "claims")? {
        rounds.push(read_round(alloc, item)?)?;
    }
    Ok(rounds)
}

/// A matrix's claims on the subgroup of its height.
fn matrix_claim<'a, F: TwoAdicField, EF: Copy>(
    alloc: Global,
    matrix: &'a MatrixClaims<EF>,
) -> Result<MatrixClaim<'a, EF, Coset<F>>, Fail> {
    if matrix.log_height > F::TWO_ADICITY {
        return Err(Fail::new("no domain is so large"));
    }
    let mut points: Vec<(EF, &'a [EF])> = Vec::new(alloc);
    for claim in &matrix.points {
        points.push((claim.point, &claim.values))?;
    }
    Ok((Coset::subgroup(matrix.log_height), points))
}

/// The claims, as the verifier takes them.
pub fn opening_claims<'a, F: TwoAdicField, EF: Copy>(
    alloc: Global,
    rounds: &'a [RoundClaims<EF>],
) -> Result<Vec<OpeningClaim<'a, EF, Root, Coset<F>>>, Fail> {
    let mut claims = Vec::new(alloc);
    for round in rounds {
        let mut matrices = Vec::new(alloc);
        for matrix in &round.matrices {
            matrices.push(matrix_claim(alloc, matrix)?)?;
        }
        claims.push((&round.commitment, matrices))?;
    }
    Ok(claims)
}
