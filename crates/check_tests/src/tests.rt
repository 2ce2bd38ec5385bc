//! Rows of traces, and what a check finds of them. The values are those of a model that computes
//! the selectors as sums over the domain.
use crate::checking::{Rows, checked};
use crate::proving::{configuration, proved};
use std::test::Fail;

// From the public value on, up by one.
const COUNTER: &str =
    r#"{"width":1,"publics":1,"periodic":[],"constants":[1],"nodes":[["main",0],["first"],["public",0],["sub",0,2],["mul",1,3],["transition"],["next",0],["sub",6,0],["constant",0],["sub",7,8],["mul",5,9]],"constraints":[{"base":4},{"base":10}]}"#;

// The last row is the public value.
const ENDS: &str =
    r#"{"width":1,"publics":1,"periodic":[],"constants":[],"nodes":[["last"],["main",0],["public",0],["sub",1,2],["mul",0,3]],"constraints":[{"base":4}]}"#;

// Up by one in every row, also from the last to the first.
const RISE: &str =
    r#"{"width":1,"publics":0,"periodic":[],"constants":[1],"nodes":[["next",0],["main",0],["sub",0,1],["constant",0],["sub",2,3]],"constraints":[{"base":4}]}"#;

// The sum of two periodic columns.
const PERIODIC: &str =
    r#"{"width":1,"publics":0,"periodic":[[1,2],[3,4,5,6]],"constants":[],"nodes":[["periodic",0],["periodic",1],["add",0,1],["main",0],["sub",3,2]],"constraints":[{"base":4}]}"#;

// A preprocessed column times another's next row.
const PREPROCESSED: &str =
    r#"{"width":1,"publics":0,"periodic":[],"preprocessed":{"width":2,"rows":[[1,2],[3,4],[5,6],[7,8]]},"constants":[],"nodes":[["preprocessed",0],["preprocessed_next",1],["mul",0,1],["main",0],["sub",3,2]],"constraints":[{"base":4}]}"#;

// A product is 7, over the extension and over the base field.
const EXTENSION: &str =
    r#"{"width":2,"publics":0,"periodic":[],"constants":[7],"nodes":[["main",0],["main",1],["mul",0,1],["constant",0],["sub",2,3]],"constraints":[{"ext":4},{"base":4}]}"#;

// A product is 7 over the base field, and then over the extension.
const BASE_FIRST: &str =
    r#"{"width":2,"publics":0,"periodic":[],"constants":[7],"nodes":[["main",0],["main",1],["mul",0,1],["constant",0],["sub",2,3],["sub",0,3]],"constraints":[{"base":5},{"ext":4}]}"#;

const NO_CONSTRAINT: &str =
    r#"{"width":1,"publics":0,"periodic":[],"constants":[],"nodes":[],"constraints":[]}"#;

/// A case of a table: an AIR, the height, a trace, the public values, and what is found.
type Line = (
    &'static str,
    usize,
    &'static str,
    &'static str,
    &'static str,
);

const CHECKS: [Line; 24] = [
    (COUNTER, 2, "[5,6,7,8]", "[5]", "satisfied"),
    (COUNTER, 1, "[5,7]", "[5]", "row 0: constraint 1 is 2"),
    (COUNTER, 1, "[6,7]", "[5]", "row 0: constraint 0 is 2"),
    (COUNTER, 1, "[6,8]", "[5]", "row 0: constraint 0 is 2"),
    (
        COUNTER,
        2,
        "[5,6,7,9]",
        "[5]",
        "row 2: constraint 1 is 1478",
    ),
    (COUNTER, 0, "[5]", "[5]", "satisfied"),
    (COUNTER, 0, "[4]", "[5]", "row 0: constraint 0 is 12288"),
    (ENDS, 2, "[1,2,3,4]", "[4]", "satisfied"),
    (ENDS, 2, "[1,2,3,5]", "[4]", "row 3: constraint 0 is 5916"),
    (ENDS, 0, "[3]", "[4]", "row 0: constraint 0 is 12288"),
    (RISE, 2, "[5,6,7,8]", "[]", "row 3: constraint 0 is 12285"),
    (RISE, 2, "[5,6,8,8]", "[]", "row 1: constraint 0 is 1"),
    (PERIODIC, 2, "[4,6,6,8]", "[]", "satisfied"),
    (PERIODIC, 2, "[4,6,7,8]", "[]", "row 2: constraint 0 is 1"),
    (PERIODIC, 3, "[4,6,6,8,4,6,6,8]", "[]", "satisfied"),
    (
        PERIODIC,
        3,
        "[4,6,6,8,4,6,6,9]",
        "[]",
        "row 7: constraint 0 is 1",
    ),
    (PREPROCESSED, 2, "[4,18,40,14]", "[]", "satisfied"),
    (
        PREPROCESSED,
        2,
        "[4,18,40,15]",
        "[]",
        "row 3: constraint 0 is 1",
    ),
    (
        PREPROCESSED,
        2,
        "[4,18,41,14]",
        "[]",
        "row 2: constraint 0 is 1",
    ),
    (EXTENSION, 1, "[1,7,7,1]", "[]", "satisfied"),
    (
        EXTENSION,
        1,
        "[0,7,7,1]",
        "[]",
        "row 0: constraint 0 is 12282",
    ),
    (EXTENSION, 1, "[1,7,7,2]", "[]", "row 1: constraint 0 is 7"),
    (BASE_FIRST, 1, "[7,1,7,2]", "[]", "row 1: constraint 1 is 7"),
    (NO_CONSTRAINT, 1, "[1,2]", "[]", "satisfied"),
];

const PROOFS: [Line; 6] = [
    (COUNTER, 2, "[5,6,7,8]", "[5]", "accepted"),
    (COUNTER, 0, "[5]", "[5]", "accepted"),
    (COUNTER, 1, "[5,7]", "[5]", "row 0: constraint 1"),
    (RISE, 2, "[5,6,7,8]", "[]", "row 3: constraint 0"),
    (PERIODIC, 2, "[4,6,6,8]", "[]", "accepted"),
    (EXTENSION, 1, "[1,7,7,1]", "[]", "accepted"),
];

fn rows_of(line: &Line) -> Rows {
    let (air, log_height, trace, public_values, _found) = *line;
    Rows {
        air,
        log_height,
        trace,
        public_values,
    }
}

#[test]
fn checks(rt: HostRuntime) -> Result<(), Fail> {
    let alloc = rt.alloc();
    for line in &CHECKS {
        assert_eq!(rt; checked(alloc, &rows_of(line))?.as_str(), line.4);
    }
    Ok(())
}

#[test]
fn proofs(rt: HostRuntime) -> Result<(), Fail> {
    let alloc = rt.alloc();
    let config = configuration();
    for line in &PROOFS {
        assert_eq!(rt; proved(alloc, &config, &rows_of(line))?.as_str(), line.4);
    }
    Ok(())
}
