//! Worked cases: configurations in JSON, the limits under a scheme, and the digest of a statement.
use sha2::{Digest, Sha256};
use stark_fields::F12289;
use stark_fri_proof::FriParameters;
use stark_statement::{AirLimits, Configuration, FieldName, SchemeChoice, Statement};
use stark_support::value_from_bytes;
use std::alloc::Global;
use std::test::Fail;

// A statement's text => its configuration, or what is at fault.
const CASES: &str = r#"
{} => BabyBear 2 0 120 0 16
{"config":null} => BabyBear 2 0 120 0 16
{"config":{}} => BabyBear 2 0 120 0 16
{"config":{"field":null,"scheme":null,"log_blowup":null,"log_final_poly_len":null,"num_queries":null,"commit_proof_of_work_bits":null,"query_proof_of_work_bits":null}} => BabyBear 2 0 120 0 16
{"config":{"field":"koala_bear","scheme":"fri","log_blowup":24,"log_final_poly_len":2,"num_queries":3,"commit_proof_of_work_bits":4,"query_proof_of_work_bits":5}} => KoalaBear 24 2 3 4 5
{"air":7,"config":{"field":"baby_bear","log_blowup":27}} => BabyBear 27 0 120 0 16
{"config":{"field":"f12289","log_blowup":12},"public_values":7,"alpha_bits":7,"ood_bits":7} => F12289 12 0 120 0 16
{"config":{"field":"f12289","scheme":"clear"}} => F12289 clear
{"config":{"scheme":"clear","num_queries":null}} => BabyBear clear
{"config":"default"} => BabyBear 2 0 120 0 16
{"config":"fast","air":7} => BabyBear 1 0 85 0 16
{"config":"proved_100"} => BabyBear 1 0 220 0 16

[] => the statement is no object
{"config":7,"other":1} => the statement has a field "other", which is none of config, air, public_values, alpha_bits, ood_bits, log_height
{"zeta":1,"aIr":{},"air":{}} => the statement has a field "aIr", which is none of config, air, public_values, alpha_bits, ood_bits, log_height
{"a\"b\\c":1} => the statement has a field "a\"b\\c", which is none of config, air, public_values, alpha_bits, ood_bits, log_height
{"config":7} => the field config: it is no object
{"config":"Fast"} => the field config: it is the name of no set: there are default, fast, proved_100
{"config":""} => the field config: it is the name of no set: there are default, fast, proved_100
{"config":{"field":7,"blowup":1}} => the field config: it has a member "blowup", which is neither field, scheme nor a number of FRI
{"config":{"field":7,"scheme":7}} => the field config: field is of the wrong kind
{"config":{"field":"BabyBear"}} => the field config: field is none of baby_bear, koala_bear, f12289
{"config":{"scheme":7,"log_blowup":0}} => the field config: scheme is of the wrong kind
{"config":{"scheme":"stir"}} => the field config: scheme is none of fri, clear
{"config":{"scheme":"clear","log_blowup":"1"}} => the field config: the scheme clear has no log_blowup
{"config":{"scheme":"clear","log_final_poly_len":0}} => the field config: the scheme clear has no log_final_poly_len
{"config":{"scheme":"clear","num_queries":85}} => the field config: the scheme clear has no num_queries
{"config":{"scheme":"clear","commit_proof_of_work_bits":0}} => the field config: the scheme clear has no commit_proof_of_work_bits
{"config":{"scheme":"clear","query_proof_of_work_bits":16}} => the field config: the scheme clear has no query_proof_of_work_bits
{"config":{"log_blowup":-1,"num_queries":-1}} => the field config: log_blowup is of the wrong kind
{"config":{"log_final_poly_len":1.5}} => the field config: log_final_poly_len is of the wrong kind
{"config":{"num_queries":"85"}} => the field config: num_queries is of the wrong kind
{"config":{"commit_proof_of_work_bits":[]}} => the field config: commit_proof_of_work_bits is of the wrong kind
{"config":{"log_blowup":0,"query_proof_of_work_bits":18446744073709551616}} => the field config: query_proof_of_work_bits is of the wrong kind
{"config":{"log_blowup":0}} => the field config: without a blow-up every word is a codeword
{"config":{"log_blowup":64}} => the field config: the logarithm of the blow-up is past 63
{"config":{"log_blowup":63,"num_queries":0}} => the field config: without a query nothing is tested
{"config":{"log_blowup":28}} => the field config: log_blowup is 28, and the field's two-adicity 27
{"config":{"field":"koala_bear","log_blowup":25}} => the field config: log_blowup is 25, and the field's two-adicity 24
{"config":{"field":"f12289","log_blowup":13}} => the field config: log_blowup is 13, and the field's two-adicity 12
"#;

// A statement's text over 12289 => what is at fault.
const FAULTS: &str = r#"
{"air":[] => the statement is no JSON text
{"alpha_bits":1,"alpha_bits":1 => the statement is no JSON text
{"ood_bits":20,"air":7,"ood_bits":20} => line 1, column 35: the name "ood_bits" stands twice in an object
{"config":{"num_queries":100,"num_queries":1},"other":1} => line 1, column 44: the name "num_queries" stands twice in an object
{"air":{"constraints":[{"base":4},{"base":4,"ext":{"a":[{}]},"\u0062ase":10}]},"air":7} => line 1, column 74: the name "base" stands twice in an object
{"air":null,"public_values":[]} => the field air: it is no object
{"air":{"width":1},"publik_values":[]} => the statement has a field "publik_values", which is none of config, air, public_values, alpha_bits, ood_bits, log_height
{"air":{"width":1,"ood_bits":20},"public_values":[]} => the field air: it has a member "ood_bits", which is none of width, publics, periodic, preprocessed, max_constraint_degree, num_constraints, constants, nodes, constraints
{"air":{"width":1,"preprocesed":{}},"public_values":[]} => the field air: it has a member "preprocesed", which is none of width, publics, periodic, preprocessed, max_constraint_degree, num_constraints, constants, nodes, constraints
{"air":{"width":1,"publics":0,"periodic":[],"preprocessed":{"width":1,"rows":[[1]],"row":1}},"public_values":[]} => the field air: the preprocessed trace has a member "row", which is neither width nor rows
{"air":{"width":1,"publics":0,"periodic":[],"preprocessed":{"width":1,"rows":[[1],[2],[12289]]}},"public_values":[]} => the field air: row 2, column 0 of the preprocessed trace is no whole number below the field's order
{"air":{"width":1,"publics":0,"periodic":[],"preprocessed":{"width":1,"rows":[[1],[2],[-1]]}},"public_values":[]} => the field air: row 2, column 0 of the preprocessed trace is no whole number below the field's order
{"air":{"width":1,"publics":0,"periodic":[],"preprocessed":{"width":1,"rows":[[1],[2,3]]}},"public_values":[]} => the field air: row 1 of the preprocessed trace has 2 columns, and its width is 1
{"air":{"width":1,"publics":0,"periodic":[],"constants":[0,1,2,3,-3]},"public_values":[]} => the field air: constant 4 is no whole number below the field's order
{"air":{"width":1,"publics":0,"periodic":[],"constants":[],"nodes":[["main",0],["minus",0,0]]},"public_values":[]} => the field air: node 1: there is no node "minus"
{"air":{"width":1,"publics":0,"periodic":[],"constants":[],"nodes":[["main",0],["add",0]]},"public_values":[]} => the field air: node 1: "add" takes two operands, and has 1
{"air":{"width":1,"publics":0,"periodic":[],"constants":[],"nodes":[["main","x"]]},"public_values":[]} => the field air: node 0: an operand of "main" is no whole number
{"air":{"width":1,"publics":0,"periodic":[],"constants":[],"nodes":[["main",0]],"constraints":[{"bas":0}]},"public_values":[]} => the field air: constraint 0 has a member "bas", which is neither base nor ext
{"air":{"width":1,"publics":0,"periodic":[],"constants":[],"nodes":[["main",0]],"constraints":[{"base":0},{}]},"public_values":[]} => the field air: constraint 1 is neither base nor ext
{"air":{"width":1,"publics":2,"periodic":[],"constants":[],"nodes":[],"constraints":[]},"public_values":[5,12289]} => public value 1 is no whole number below the field's order
{"air":{"width":1,"publics":2,"periodic":[],"constants":[],"nodes":[],"constraints":[]},"public_values":[5]} => the field public_values has 1 values, and air declares 2
{"air":{"width":1,"publics":0,"periodic":[],"constants":[],"nodes":[],"constraints":[]},"public_values":[],"alpha_bits":64,"ood_bits":"1"} => the field alpha_bits asks for 64 bits of work, and no element passes more than 63
{"air":{"width":1,"publics":0,"periodic":[],"constants":[],"nodes":[],"constraints":[]},"public_values":[],"alpha_bits":63,"ood_bits":18446744073709551615} => the field ood_bits asks for 18446744073709551615 bits of work, and no element passes more than 63
{"air":{"width":1,"publics":1,"periodic":[],"constants":[],"nodes":[],"constraints":[]},"public_values":[],"alpha_bits":63,"ood_bits":63} => the field public_values has 0 values, and air declares 1
{"air":{"width":1,"publics":1,"periodic":[],"constants":[],"nodes":[],"constraints":[]},"public_values":[],"log_height":-1} => the field log_height is of the wrong kind
"#;

#[test]
fn faults_have_their_places(rt: HostRuntime) -> Result<(), Fail> {
    let alloc = rt.alloc();
    let mut count = 0usize;
    for case in FAULTS.lines() {
        if !case.is_empty() {
            let (text, expected) = case.split_once(" => ").ok_or("a case without an answer")?;
            let error = Statement::<F12289>::from_slice(alloc, text.as_bytes())
                .err()
                .ok_or("a statement")?;
            let actual = format!(in alloc; "{error}")?;
            assert_eq!(rt; actual.as_str(), expected, "{text}");
            count = count.saturating_add(1);
        }
    }
    assert_eq!(rt; count, 25);
    Ok(())
}

/// A configuration in words.
fn spelled(alloc: Global, config: Configuration) -> Result<String, Fail> {
    let field = config.field;
    match config.scheme {
        SchemeChoice::Fri(p) => {
            let (blowup, length, queries) = (
                p.log_blowup(),
                p.log_final_poly_len(),
                p.num_queries(),
            );
            let (commit, query) = (p.commit_proof_of_work_bits(), p.query_proof_of_work_bits());
            Ok(format!(in alloc; "{field:?} {blowup} {length} {queries} {commit} {query}")?)
        }
        SchemeChoice::Clear => Ok(format!(in alloc; "{field:?} clear")?),
    }
}

#[test]
fn configurations_are_read(rt: HostRuntime) -> Result<(), Fail> {
    let alloc = rt.alloc();
    let mut count = 0usize;
    for case in CASES.lines() {
        if !case.is_empty() {
            let (text, expected) = case.split_once(" => ").ok_or("a case without an answer")?;
            let value = value_from_bytes(alloc, text.as_bytes())
                .ok()
                .ok_or("no JSON")?;
            let actual = match Configuration::from_statement(alloc, &value) {
                Ok(config) => spelled(alloc, config)?,
                Err(error) => format!(in alloc; "{error}")?,
            };
            assert_eq!(rt; actual.as_str(), expected, "{text}");
            count = count.saturating_add(1);
        }
    }
    assert_eq!(rt; count, 40);
    Ok(())
}

// The logarithm of a blow-up, and how many values fixed columns may have.
const CELLS: [(usize, usize); 6] = [
    (1, 1_048_576),
    (4, 1_048_576),
    (5, 524_288),
    (24, 1),
    (25, 0),
    (63, 0),
];

#[test]
fn preprocessed_columns_are_fewer_under_a_blowup(rt: HostRuntime) -> Result<(), Fail> {
    for case in &CELLS {
        let (log_blowup, cells) = *case;
        let parameters = FriParameters::new(log_blowup, 0, 1, 0, 0);
        let parameters = parameters.ok().ok_or("no parameters")?;
        let wanted = AirLimits {
            cells,
            ..AirLimits::default()
        };
        let actual = AirLimits::under(SchemeChoice::Fri(parameters));
        assert_eq!(rt; actual, wanted, "{log_blowup}");
    }
    let actual = AirLimits::under(SchemeChoice::Clear);
    assert_eq!(rt; actual, AirLimits::default());
    Ok(())
}

const STATEMENT: &str =
    r#"{"config":{"field":"f12289","log_blowup":3,"num_queries":7,"commit_proof_of_work_bits":1,"query_proof_of_work_bits":5},"air":{"width":1,"publics":1,"periodic":[[6,7]],"preprocessed":{"width":1,"rows":[[8],[9]]},"max_constraint_degree":2,"constants":[5],"nodes":[["main",0],["public",0],["sub",0,1]],"constraints":[{"base":2},{"ext":2}]},"public_values":[4],"alpha_bits":3}"#;

// How the statement ends, the number of its bytes and their digest: the words that
// `canonical_bytes` describes, written and hashed by Python's hashlib.
const DIGESTS: [(&str, usize, &str); 4] = [
    (
        "}",
        349,
        "e58b62021bdb0989ae6fe4930d22b4768a04e7cdb8935edf2395f63c53756726",
    ),
    (
        ",\"log_height\":null}",
        349,
        "e58b62021bdb0989ae6fe4930d22b4768a04e7cdb8935edf2395f63c53756726",
    ),
    (
        ",\"log_height\":1}",
        357,
        "dcc17a99b53c68ee0715b3556977d1012b7dd5c01c66f020c592bc86ab179506",
    ),
    (
        ",\"log_height\":0}",
        357,
        "7a023a499d17972ccf3fcdfd1c5538dd0808895a3385dcaeb1b5919a9c726bd0",
    ),
];

#[test]
fn bytes_name_configuration_and_height(rt: HostRuntime) -> Result<(), Fail> {
    let alloc = rt.alloc();
    let front = STATEMENT.strip_suffix('}').ok_or("no object")?;
    for (end, length, digest) in &DIGESTS {
        let text = format!(in alloc; "{front}{end}")?;
        let statement = Statement::<F12289>::from_slice(alloc, text.as_bytes())
            .ok()
            .ok_or("no statement")?;
        assert_eq!(rt; statement.config.field, FieldName::F12289);
        let bytes = statement.canonical_bytes(alloc)?;
        assert_eq!(rt; bytes.len(), *length, "{end}");
        let actual = hex::encode(alloc, &Sha256::digest(&bytes))?;
        assert_eq!(rt; actual.as_str(), *digest, "{end}");
    }
    Ok(())
}
