//! Conjectured and proved bits, worked apart from the code.
use stark_fri_proof::FriParameters;
use stark_fri_security::{
    conjectured_security_bits, field_bits, fri_regime, listed_security_bits, proved_security_bits,
};
use stark_security::StarkSecurityParams;
use std::test::Fail;

/// Five numbers of FRI; the bits of the field and of collisions; constraints, degree, batched
/// functions and chunks; the height's logarithm; and the bits.
type Line = ([usize; 5], [usize; 2], [usize; 4], usize, usize);

// A field of 31 bits has 123 in its extension of degree 4, one of 12289 elements 54.
const LINES: [Line; 7] = [
    // The queries: 84 + 16.
    ([1, 0, 84, 0, 16], [123, 128], [8, 2, 20, 1], 16, 99),
    // The batch: 123 - 16 - 3 - 5, where the queries have 3 * 28 + 16.
    ([3, 0, 28, 0, 16], [123, 128], [8, 2, 20, 1], 16, 98),
    // Zeta: 123 - 16 - 7 - 1, where the batch has 123 - 16 - 1 - 5.
    ([1, 0, 200, 0, 0], [123, 128], [8, 2, 20, 65], 16, 98),
    // Alpha: 123 - 30.
    ([1, 0, 200, 0, 0], [123, 128], [1073741824, 2, 1, 1], 4, 92),
    // A small field: 54 - 8 - 1 - 5.
    ([1, 0, 100, 0, 0], [54, 128], [2, 2, 20, 1], 8, 39),
    // The hash.
    ([1, 0, 200, 0, 0], [256, 128], [2, 2, 20, 1], 8, 127),
    // Nothing below zero.
    ([1, 0, 1, 0, 0], [54, 0], [0, 0, 0, 0], 63, 0),
];

// Worked in Python, with whole numbers of any size; each with its bad alphas and zetas.
const PROVED_LINES: [(Line, [usize; 2]); 9] = [
    // The queries: 3^85 is some 4^85 / 2^35.3, with 16 bits of work.
    (
        ([1, 0, 85, 0, 16], [123, 128], [8, 2, 20, 1], 16, 51),
        [7, 196608],
    ),
    // Blow-up 4, 120 queries: 97.4 by them, 99.5 by the draws, 97.07 by both.
    (
        ([2, 0, 120, 0, 16], [123, 128], [8, 2, 32, 1], 16, 97),
        [7, 196608],
    ),
    (
        ([2, 0, 120, 0, 16], [123, 128], [8, 2, 32, 1], 20, 95),
        [7, 3145728],
    ),
    // Many claims.
    (
        ([3, 0, 120, 0, 16], [123, 128], [8, 2, 1024, 1], 20, 89),
        [7, 3145728],
    ),
    // A third of the distance leaves 102 bits, half of it 101.
    (
        ([2, 0, 250, 0, 16], [123, 128], [8, 2, 6, 1], 16, 102),
        [7, 196608],
    ),
    // By many queries: what is rounded up for each of them is all that is left.
    (
        ([2, 0, 2000, 0, 0], [256, 128], [8, 2, 32, 1], 16, 103),
        [7, 196608],
    ),
    // A small field: 54 bits, of which the draws leave 38.
    (
        ([2, 0, 120, 0, 16], [54, 128], [8, 2, 32, 1], 8, 38),
        [7, 768],
    ),
    // Bad zetas alone: 2^60 of 2^123.
    (
        ([2, 0, 200, 0, 16], [123, 128], [8, 2, 5, 1], 4, 62),
        [0, 1152921504606846976],
    ),
    // Nothing below zero.
    (([1, 0, 1, 0, 0], [54, 0], [0, 0, 0, 0], 63, 0), [0, 0]),
];

/// What the numbers of a line are reckoned from.
fn params_of(line: &Line) -> Result<StarkSecurityParams, Fail> {
    let (numbers, field, shape, _log_height, _bits) = *line;
    let parameters = FriParameters::new(numbers[0], numbers[1], numbers[2], numbers[3], numbers[4]);
    let parameters = parameters.ok().ok_or("no parameters")?;
    if shape[1] > 2 {
        return Err(Fail::new("no such degree"));
    }
    Ok(StarkSecurityParams::new(
        fri_regime(&parameters),
        field[0],
        field[1],
        shape[0],
        shape[1],
        2,
        shape[2],
        shape[3],
    ))
}

#[test]
fn worked_by_hand(rt: HostRuntime) -> Result<(), Fail> {
    for line in &LINES {
        let params = params_of(line)?;
        assert_eq!(rt; conjectured_security_bits(&params, line.3), line.4);
    }
    Ok(())
}

#[test]
fn proved_bits(rt: HostRuntime) -> Result<(), Fail> {
    for (line, bad) in &PROVED_LINES {
        let params = params_of(line)?;
        assert_eq!(rt;
            proved_security_bits(&params, bad[0], bad[1], line.3),
            line.4
        );
    }
    Ok(())
}

// The field's bits, bad alphas and zetas, and the bits: by hand.
const LISTED: [(usize, usize, usize, usize); 4] = [
    // 2^17 + 7 is above 2^17.
    (123, 7, 131072, 105),
    (123, 0, 131072, 106),
    (54, 0, 0, 54),
    (13, 8192, 8192, 0),
];

#[test]
fn bits_of_listed_columns(rt: HostRuntime) -> Result<(), Fail> {
    for (field, alphas, zetas, bits) in LISTED {
        assert_eq!(rt; listed_security_bits(field, alphas, zetas), bits);
    }
    Ok(())
}

// BabyBear, KoalaBear and 12289 with their extensions of degree four, by Python; a field alone; and
// extensions of 2^127 elements and of 2^128.
const FIELDS: [(u64, usize, usize); 7] = [
    (2013265921, 4, 123),
    (2130706433, 4, 123),
    (12289, 4, 54),
    (12289, 1, 13),
    (2, 127, 127),
    (2, 128, 127),
    (18446744073709551557, 4, 127),
];

#[test]
fn bits_of_fields(rt: HostRuntime) -> Result<(), Fail> {
    for (order, degree, bits) in FIELDS {
        assert_eq!(rt; field_bits(order, degree), bits);
    }
    Ok(())
}
