//! Proofs, keys, public values, configurations and AIRs that were spoiled, and the first fault of
//! each. A fault is a few edits of an honest input's text: ` > ` stands between what is taken out
//! and what is put in its place, ` & ` between two edits.
use crate::answers::scalar;
use stark_test_cases::apart;
use std::alloc::Global;
use std::process::Abort;
use std::test::Fail;

// A counter of four rows with a preprocessed column, whose polynomial is X + 2, and a periodic one,
// both of which no constraint reads; the proof is the honest one. The scheme in the clear.
const CLEAR: &str = "\
{\"next\":true,\"fixed\":true,\"fixed_next\":false,\"periodic\":[[0,1]],\"hint\":null,\
\"key\":{\"width\":1,\"height\":2,\"commitment\":[[[2,1,0,0]]]},\
\"challenger\":[4,0,0,0,3,0,0,0],\"work\":0,\"alpha_work\":0,\"publics\":[5],\"fixed_row\":[[5,0,0,0]],\
\"proof\":{\"opened_values\":{\"trace_local\":[[6817,0,0, 0]],\"trace_next\":[[5455,0,0,0]],\
\"quotient_chunks\":[[[2814,0,0,0],[0,0,0,0],[0,0,0,0],[0,0,0,0]]],\"random\":null},\
\"commitments\":{\"trace\":[[[6151,739,6144,11549]]],\
\"quotient_chunks\":[[[1473,9327,9329,0],[0,0,0,0],[0,0,0,0],[0,0,0,0]]],\"random\" :null},\
\"opening_proof\":null,\"degree_bits\":2,\"ood_pow_witness\":0}}";

// Two rows under masks of ones, so that the committed trace has four rows as well.
const MASKED: &str = "\
{\"next\":true,\"fixed\":true,\"fixed_next\":false,\"periodic\":[[0,1]],\"hint\":null,\
\"key\":{\"width\":1,\"height\":2,\"commitment\":[[[2,1,0,0]]]},\
\"challenger\":[4,0,0,0,3,0,0,0],\"work\":0,\"alpha_work\":0,\"publics\":[5],\"fixed_row\":[[5,0,0,0]],\
\"proof\":{\"opened_values\":{\"trace_local\":[[36,0,0, 0]],\"trace_next\":[[12280,0,0,0]],\
\"quotient_chunks\":[[[9603,0,0,0],[9340,0,0,0],[9340,0,0,0],[9340,0,0,0]],\
[[6903,0,0,0],[5345,0,0,0],[5345,0,0,0],[5345,0,0,0]],\
[[2720,0,0,0],[2941,0,0,0],[2941,0,0,0],[2941,0,0,0]],\
[[2254,0,0,0],[3770,0,0,0],[3770,0,0,0],[3770,0,0,0]]],\
\"random\":[[40,0,0,0],[40,0,0,0],[40,0,0,0],[40,0,0,0]]},\
\"commitments\":{\"trace\":[[[6149,6143,1,1]]],\
\"quotient_chunks\":[[[244,5,1625,1625],[12288,12288,1625,1625],[12288,12288,1625,1625],[12288,12288,1625,1625]],\
[[1539,5,5269,5269],[12288,12288,5269,5269],[12288,12288,5269,5269],[12288,12288,5269,5269]],\
[[12049,5,10664,10664],[12288,12288,10664,10664],[12288,12288,10664,10664],[12288,12288,10664,10664]],\
[[10758,9,3518,3518],[3,3,3518,3518],[3,3,3518,3518],[3,3,3518,3518]]],\
\"random\" :[[[1,1,1,1],[1,1,1,1],[1,1,1,1],[1,1,1,1]]]},\
\"opening_proof\":null,\"degree_bits\":2,\"ood_pow_witness\":0}}";

// The single faults, in the order in which the verifier tests: the number of its step, a name | the
// schemes | the edits, and the answer where nothing else is wrong. In the clear no height is too
// low, since the least is one row, and no random row has another length, since there is none.
const FAULTS: &str = "\
1 low height | masked | \"degree_bits\":2 > \"degree_bits\":0 => Err(InvalidProofShape(DegreeBitsTooSmall { air: None, minimum: 1, got: 0 }))
1 high height | both | \"degree_bits\":2 > \"degree_bits\":13 => Err(InvalidProofShape(DegreeBitsTooLarge { air: None, maximum: 12, got: 13 }))
2 rows of no columns | both | \"fixed\":true > \"fixed\":false & \"key\":{ > \"no_key\":{ => Err(InvalidProofShape(UnexpectedPreprocessedValues { air: None }))
2 wide row | both | \"fixed_row\":[ > \"fixed_row\":[[0,0,0,0], => Err(InvalidProofShape(PreprocessedTraceWidthMismatch { expected_local: 1, expected_next: 0, got_local: 2, got_next: 0 }))
2 unread next row | both | \"fixed_row\": > \"fixed_row_after\":[[0,0,0,0]],\"fixed_row\": => Err(InvalidProofShape(PreprocessedTraceWidthMismatch { expected_local: 1, expected_next: 0, got_local: 1, got_next: 1 }))
2 unopened next row | both | \"fixed_next\":false > \"fixed_next\":true => Err(InvalidProofShape(PreprocessedTraceWidthMismatch { expected_local: 1, expected_next: 1, got_local: 1, got_next: 0 }))
2 empty next row | both | \"fixed_row\": > \"fixed_row_after\":[],\"fixed_row\": => Err(InvalidProofShape(UnexpectedPreprocessedNext { air: None }))
2 no rows | both | \"fixed_row\": > \"no_row\": => Err(InvalidProofShape(PreprocessedTraceWidthMismatch { expected_local: 1, expected_next: 0, got_local: 0, got_next: 0 }))
3 key of no columns | both | \"fixed\":true > \"fixed\":false & \"width\":1 > \"width\":0 & \"fixed_row\": > \"no_row\": => Err(InvalidProofShape(PreprocessedVerifierKeyInconsistency))
3 wide key | both | \"width\":1 > \"width\":2 & \"fixed_row\":[ > \"fixed_row\":[[0,0,0,0], => Err(InvalidProofShape(PreprocessedVerifierKeyInconsistency))
3 no key | both | \"key\":{ > \"no_key\":{ => Err(InvalidProofShape(PreprocessedVerifierKeyInconsistency))
4 height of the key | both | \"height\":2 > \"height\":3 => Err(InvalidProofShape(PreprocessedDegreeMismatch { vk_degree_bits: 3, proof_degree_bits: 2 }))
5 number of chunks | clear | \"hint\":null > \"hint\":18446744073709551615 => Err(InvalidProofShape(QuotientDomainTooLarge { air: None, maximum: 63, got: 64 }))
5 number of chunks | masked | \"hint\":null > \"hint\":18446744073709551615 => Err(InvalidProofShape(QuotientDomainTooLarge { air: None, maximum: 63, got: 65 }))
5 size of the quotient | both | \"hint\":null > \"hint\":4611686018427387904 => Err(InvalidProofShape(QuotientDomainTooLarge { air: None, maximum: 63, got: 64 }))
5 domain of the quotient | both | \"hint\":null > \"hint\":2048 => Err(InvalidProofShape(QuotientDomainTooLarge { air: None, maximum: 12, got: 13 }))
6 random commitment | clear | \"random\" :null > \"random\" :[[[1]]] => Err(RandomizationError)
6 random row | clear | \"random\":null > \"random\":[[0,0,0,0]] => Err(RandomizationError)
6 no random commitment | masked | \"random\" : > \"other\" : => Err(RandomizationError)
6 no random row | masked | \"random\": > \"other\": => Err(RandomizationError)
7 public values | both | \"publics\":[5 > \"publics\":[5,5 => Err(InvalidProofShape(PublicValuesLengthMismatch { expected: 1, got: 2 }))
8 no next row | both | \"trace_next\": > \"other_next\": => Err(InvalidProofShape(TraceNextMismatch { air: None }))
8 wide next row | both | \"trace_next\":[ > \"trace_next\":[[0,0,0,0], => Err(InvalidProofShape(TraceNextMismatch { air: None }))
8 unread next row | both | \"next\":true > \"next\":false => Err(InvalidProofShape(UnexpectedTraceNext { air: None }))
9 wide row | both | \"trace_local\":[ > \"trace_local\":[[0,0,0,0], => Err(InvalidProofShape(OpenedValuesDimensionMismatch))
9 another chunk | both | \"quotient_chunks\":[ > \"quotient_chunks\":[[[0,0,0,0],[0,0,0,0],[0,0,0,0],[0,0,0,0]], => Err(InvalidProofShape(OpenedValuesDimensionMismatch))
9 long chunk | both | \"quotient_chunks\":[[ > \"quotient_chunks\":[[[0,0,0,0], => Err(InvalidProofShape(OpenedValuesDimensionMismatch))
9 long random row | masked | \"random\":[ > \"random\":[[0,0,0,0], => Err(InvalidProofShape(OpenedValuesDimensionMismatch))
10 alpha's witness of no work | both | \"ood_pow_witness\" > \"alpha_pow_witness\":7,\"ood_pow_witness\" => Err(InvalidProofShape(NonCanonicalAlphaPowWitness))
10 witness of no work | both | \"ood_pow_witness\":0 > \"ood_pow_witness\":7 => Err(InvalidProofShape(NonCanonicalOodPowWitness))
11 alpha's work not done | both | \"alpha_work\":0 > \"alpha_work\":1 => Err(InvalidAlphaPowWitness)
11 work not done | both | \"work\":0 > \"work\":1 => Err(InvalidOodPowWitness)
12 point of the domain | both | [4,0,0,0,3, > [4,0,0,0,1, => Err(OodPointInDomain)
13 empty column | both | \"periodic\":[[0,1]] > \"periodic\":[[]] => Err(PeriodicColumn(Empty { column: 0 }))
13 odd column | both | \"periodic\":[[0,1]] > \"periodic\":[[0,1,2]] => Err(PeriodicColumn(NotPowerOfTwo { column: 0 }))
13 long column | both | \"periodic\":[[0,1]] > \"periodic\":[[0,1,0,1,0,1,0,1]] => Err(PeriodicColumn(TooLong { column: 0 }))
14 long committed column | clear | \"trace\":[[[ > \"trace\":[[[0, => Err(InvalidOpeningArgument(Shape { round: 0 }))
14 long committed column | masked | \"trace\":[[[ > \"trace\":[[[0, => Err(InvalidOpeningArgument(Shape { round: 1 }))
14 false value | clear | 0, 0] > 0, 1] => Err(InvalidOpeningArgument(Value { round: 0 }))
14 false value | masked | 0, 0] > 0, 1] => Err(InvalidOpeningArgument(Value { round: 1 }))
15 equation | both | \"publics\":[5 > \"publics\":[6 => Err(OodEvaluationMismatch { index: None })";

// The pairs that one text isn't spoiled for by the edits of both faults, or whose answer has the
// numbers of both: names | the edits, where `first` and `both` are those of the first fault and of
// both, and the answer, where `first` is the first fault's. The size of a quotient that has too
// many chunks is too great by itself, and so is its domain.
const JOINT: &str = "\
2 wide row & 2 unread next row | both => Err(InvalidProofShape(PreprocessedTraceWidthMismatch { expected_local: 1, expected_next: 0, got_local: 2, got_next: 1 }))
2 wide row & 2 unopened next row | both => Err(InvalidProofShape(PreprocessedTraceWidthMismatch { expected_local: 1, expected_next: 1, got_local: 2, got_next: 0 }))
2 unopened next row & 2 no rows | both => Err(InvalidProofShape(PreprocessedTraceWidthMismatch { expected_local: 1, expected_next: 1, got_local: 0, got_next: 0 }))
2 rows of no columns & 3 key of no columns | \"fixed\":true > \"fixed\":false & \"width\":1 > \"width\":0 => first
2 rows of no columns & 3 wide key | \"width\":1 > \"width\":0 => first
2 rows of no columns & 4 height of the key | \"width\":1 > \"width\":0 & \"height\":2 > \"height\":3 => first
2 wide row & 3 wide key | both => Err(InvalidProofShape(PreprocessedTraceWidthMismatch { expected_local: 2, expected_next: 0, got_local: 3, got_next: 0 }))
2 unread next row & 3 wide key | both => Err(InvalidProofShape(PreprocessedTraceWidthMismatch { expected_local: 2, expected_next: 0, got_local: 2, got_next: 1 }))
2 unopened next row & 3 wide key | both => Err(InvalidProofShape(PreprocessedTraceWidthMismatch { expected_local: 2, expected_next: 2, got_local: 2, got_next: 0 }))
2 no rows & 3 wide key | \"fixed_row\": > \"no_row\": & \"width\":1 > \"width\":2 => Err(InvalidProofShape(PreprocessedTraceWidthMismatch { expected_local: 2, expected_next: 0, got_local: 0, got_next: 0 }))
3 key of no columns & 3 wide key | \"width\":1 > \"width\":0 & \"fixed_row\": > \"no_row\": => first
5 number of chunks & 5 size of the quotient | first => first
5 number of chunks & 5 domain of the quotient | first => first
5 size of the quotient & 5 domain of the quotient | first => first
13 empty column & 13 odd column | \"periodic\":[[0,1]] > \"periodic\":[[],[0,1,2]] => first
13 empty column & 13 long column | \"periodic\":[[0,1]] > \"periodic\":[[],[0,1,0,1,0,1,0,1]] => first
13 odd column & 13 long column | \"periodic\":[[0,1]] > \"periodic\":[[0,1,0,1,0]] => first";

// The pairs that no input breaks together, with the reason. Two faults of two schemes are such a
// pair too: a scheme hides, or it doesn't.
const NEVER: &str = "\
1 low height & 1 high height | it is one height, below the least or above the greatest
2 rows of no columns & 2 unopened next row | of no columns the next row has no value, and one that isn't opened counts as such
2 rows of no columns & 2 no rows | the rows are opened, or they aren't
2 wide row & 2 no rows | the rows are opened, or they aren't
2 unread next row & 2 unopened next row | the AIR reads the next row, or it doesn't
2 unread next row & 2 empty next row | it is one row, with a value or without
2 unread next row & 2 no rows | a next row stands beside a current one alone
2 unopened next row & 2 empty next row | the AIR reads the next row, or it doesn't
2 empty next row & 2 no rows | a next row stands beside a current one alone
2 rows of no columns & 3 no key | without a key the AIR's columns are asked for: there are none, or there are some
2 wide row & 3 key of no columns | at a key of no columns any row is one too many
2 unread next row & 3 key of no columns | at a key of no columns any row is one too many
2 unopened next row & 3 key of no columns | at a key of no columns no row is asked for
2 empty next row & 3 key of no columns | at a key of no columns any row is one too many
2 no rows & 3 key of no columns | at a key of no columns no row is asked for
3 key of no columns & 3 no key | there is a key, or there is none
3 wide key & 3 no key | there is a key, or there is none
3 no key & 4 height of the key | what isn't there has no height
6 no random row & 9 long random row | what isn't there has no length
8 no next row & 8 wide next row | what isn't there has no length
8 no next row & 8 unread next row | the AIR reads the next row, or it doesn't
8 wide next row & 8 unread next row | the AIR reads the next row, or it doesn't
10 alpha's witness of no work & 11 alpha's work not done | work is asked for, or it isn't
10 witness of no work & 11 work not done | work is asked for, or it isn't";

/// What the verifier with a scheme answers of an input, whose challenger hands out the numbers that
/// stand in it.
fn answer_to(alloc: Global, scheme: &str, text: &str) -> Result<String, Fail> {
    let (_front, rest) = text.split_once("\"challenger\":[").ok_or("no challenger")?;
    let (numbers, _rest) = rest.split_once(']').ok_or("an open list")?;
    let numbers = numbers.replace(alloc, ",", " ")?;
    let case = format!(in alloc; "script {numbers} | {scheme} | {text}")?;
    scalar(alloc, "hostile inputs", &case)
}

/// One fault of an input.
#[derive(Clone, Copy)]
struct Fault<'a> {
    name: &'a str,
    schemes: &'a str,
    edits: &'a str,
    answer: &'a str,
}

fn fault_in(case: &str) -> Result<Fault<'_>, Fail> {
    let (given, answer) = case.split_once(" => ").ok_or("a case without an answer")?;
    let (name, given) = apart(given)?;
    let (schemes, edits) = apart(given)?;
    Ok(Fault {
        name,
        schemes,
        edits,
        answer,
    })
}

/// Whether a fault is one under this scheme.
fn is_under(fault: Fault<'_>, scheme: &str) -> bool {
    fault.schemes == "both" || fault.schemes == scheme
}

/// The text with its edits made in turn; none where one finds nothing to take out.
fn edited(alloc: Global, text: &str, edits: &str) -> Result<Option<String>, Fail> {
    let mut text = String::from_str(alloc, text)?;
    for edit in edits.split(" & ") {
        let (from, to) = edit.split_once(" > ").ok_or("an edit of nothing")?;
        if !text.contains(from) {
            return Ok(None);
        }
        text = text.replacen(alloc, from, to, 1)?;
    }
    Ok(Some(text))
}

/// The case of a table that begins with the names of these two faults.
fn case_of<'a>(table: &'a str, first: &str, second: &str) -> Option<&'a str> {
    for case in table.lines() {
        let (names, _said) = case.split_once(" | ")?;
        if names.split_once(" & ") == Some((first, second)) {
            return Some(case);
        }
    }
    None
}

/// The text that two faults spoil together, and what is answered of it; none where the tables don't
/// say it.
fn spoiled<'a>(
    alloc: Global,
    text: &str,
    first: Fault<'a>,
    second: Fault<'a>,
) -> Result<Option<(String, &'a str)>, Fail> {
    let case = case_of(JOINT, first.name, second.name).unwrap_or("neither | both => first");
    let (_names, said) = apart(case)?;
    let (edits, answer) = said.split_once(" => ").ok_or("a case without an answer")?;
    let answer = if answer == "first" {
        first.answer
    } else {
        answer
    };
    let edits = match edits {
        "first" => String::from_str(alloc, first.edits)?,
        "both" => format!(in alloc; "{} & {}", first.edits, second.edits)?,
        _ => String::from_str(alloc, edits)?,
    };
    Ok(edited(alloc, text, &edits)?.map(|text| (text, answer)))
}

/// Asserts that of each fault of a scheme alone the answer is its own.
fn each_alone(rt: &impl Abort, alloc: Global, scheme: &str, text: &str) -> Result<(), Fail> {
    assert_eq!(rt; answer_to(alloc, scheme, text)?.as_str(), "Ok(())");
    for case in FAULTS.lines() {
        let fault = fault_in(case)?;
        if is_under(fault, scheme) {
            let spoiled = edited(alloc, text, fault.edits)?.ok_or("nothing is taken out")?;
            assert_eq!(rt;
                answer_to(alloc, scheme, &spoiled)?.as_str(),
                fault.answer,
                "{case}"
            );
        }
    }
    Ok(())
}

/// Asserts that of two faults together the answer is the first's, or that no input has both.
fn both_together(
    rt: &impl Abort,
    alloc: Global,
    scheme: &str,
    text: &str,
    first: Fault<'_>,
    second: Fault<'_>,
) -> Result<(), Fail> {
    if case_of(NEVER, first.name, second.name).is_some() {
        return Ok(());
    }
    let case = spoiled(alloc, text, first, second)?;
    assert!(rt;
        case.is_some(),
        "no table has {} & {}",
        first.name,
        second.name
    );
    let (text, expected) = case.ok_or("no table has them")?;
    let (one, other) = (first.name, second.name);
    assert_eq!(rt;
        answer_to(alloc, scheme, &text)?.as_str(),
        expected,
        "{one} & {other}"
    );
    Ok(())
}

/// Asserts that of all pairs of a scheme's faults the first in order is told.
fn all_pairs(rt: &impl Abort, alloc: Global, scheme: &str, text: &str) -> Result<(), Fail> {
    for (place, case) in FAULTS.lines().enumerate() {
        let first = fault_in(case)?;
        for case in FAULTS.lines().skip(place).skip(1) {
            let second = fault_in(case)?;
            if is_under(first, scheme) && is_under(second, scheme) {
                both_together(rt, alloc, scheme, text, first, second)?;
            }
        }
    }
    Ok(())
}

#[test]
fn first_faults_in_the_clear(rt: HostRuntime) -> Result<(), Fail> {
    each_alone(&rt, rt.alloc(), "clear", CLEAR)?;
    all_pairs(&rt, rt.alloc(), "clear", CLEAR)
}

#[test]
fn first_faults_under_masks(rt: HostRuntime) -> Result<(), Fail> {
    each_alone(&rt, rt.alloc(), "masked", MASKED)?;
    all_pairs(&rt, rt.alloc(), "masked", MASKED)
}

/// The place of the fault of this name.
fn place_of(name: &str) -> Option<usize> {
    FAULTS.lines().position(|case| case
        .split_once(" | ")
        .is_some_and(|(known, _)| known == name))
}

// A pair whose names are no faults', or stand in the other order, would never be looked up.
#[test]
fn pairs_are_of_faults_in_their_order(rt: HostRuntime) -> Result<(), Fail> {
    for case in JOINT.lines().chain(NEVER.lines()) {
        let (names, _said) = apart(case)?;
        let (first, second) = names.split_once(" & ").ok_or("one name")?;
        let first = place_of(first).ok_or("no such fault")?;
        let second = place_of(second).ok_or("no such fault")?;
        assert!(rt; first < second, "{case}");
    }
    Ok(())
}

// The honest proof of the counter's trace 5, 6.
const COUNTER: &str = "\
{\"next\":true,\"fixed\":false,\"fixed_next\":false,\"periodic\":[],\"hint\":null,\
\"challenger\":[4,0,0,0,3,0,0,0],\"work\":0,\"alpha_work\":0,\"publics\":[5],\
\"proof\":{\"opened_values\":{\"trace_local\":[[4,0,0,0]],\"trace_next\":[[7,0,0,0]],\
\"quotient_chunks\":[[[12288,0,0,0],[0,0,0,0],[0,0,0,0],[0,0,0,0]]]},\
\"commitments\":{\"trace\":[[[6150,6144]]],\"quotient_chunks\":[[[12288,0],[0,0],[0,0],[0,0]]]},\
\"opening_proof\":null,\"degree_bits\":1,\"ood_pow_witness\":0}}";

// An entry more, one less and another one in each row; another witness, and one before alpha, with
// and without work; the greatest height, and a hint that is past all domains. Then the proof of one
// row, with that hint, and at the scheme's greatest height, of which 3 is a point and 11 is none.
const COUNTERS: &str = "\
[5] > [5] => Ok(())
[[4, > [[0,0,0,0],[4, => Err(InvalidProofShape(OpenedValuesDimensionMismatch))
[[4,0,0,0]] > [] => Err(InvalidProofShape(OpenedValuesDimensionMismatch))
[[4, > [[5, => Err(InvalidOpeningArgument(Value { round: 0 }))
[[7, > [[0,0,0,0],[7, => Err(InvalidProofShape(TraceNextMismatch { air: None }))
[[7,0,0,0]] > [] => Err(InvalidProofShape(TraceNextMismatch { air: None }))
[[7, > [[8, => Err(InvalidOpeningArgument(Value { round: 0 }))
[[[12288,0,0,0] > [[[0,0,0,0],[12288,0,0,0] => Err(InvalidProofShape(OpenedValuesDimensionMismatch))
[[[12288,0,0,0],[0,0,0,0] > [[[12288,0,0,0] => Err(InvalidProofShape(OpenedValuesDimensionMismatch))
[[[12288,0,0,0] > [[[12288,0,0,1] => Err(InvalidOpeningArgument(Value { round: 1 }))
\"ood_pow_witness\":0 > \"ood_pow_witness\":1 => Err(InvalidProofShape(NonCanonicalOodPowWitness))
\"alpha_work\":0 > \"alpha_work\":3 & \"ood_pow_witness\" > \"alpha_pow_witness\":7,\"ood_pow_witness\" => Ok(())
\"alpha_work\":0 > \"alpha_work\":3 & \"ood_pow_witness\" > \"alpha_pow_witness\":6,\"ood_pow_witness\" => Err(InvalidAlphaPowWitness)
\"ood_pow_witness\" > \"alpha_pow_witness\":7,\"ood_pow_witness\" => Err(InvalidProofShape(NonCanonicalAlphaPowWitness))
\"ood_pow_witness\":0 > \"alpha_pow_witness\":7,\"ood_pow_witness\":7 => Err(InvalidProofShape(NonCanonicalAlphaPowWitness))
\"ood_pow_witness\" > \"alpha_pow_witness\":0,\"ood_pow_witness\" => Ok(())
\"alpha_work\":0 > \"alpha_work\":3 => Err(InvalidAlphaPowWitness)
\"alpha_work\":0 > \"alpha_work\":3 & \"work\":0 > \"work\":1 => Err(InvalidAlphaPowWitness)
\"alpha_work\":0 > \"alpha_work\":1 & \"work\":0 > \"work\":13 & \"ood_pow_witness\":0 > \"alpha_pow_witness\":1,\"ood_pow_witness\":8191 => Ok(())
\"degree_bits\":1 > \"degree_bits\":18446744073709551615 => Err(InvalidProofShape(DegreeBitsTooLarge { air: None, maximum: 12, got: 18446744073709551615 }))
\"hint\":null > \"hint\":9223372036854775809 => Err(InvalidProofShape(QuotientDomainTooLarge { air: None, maximum: 63, got: 64 }))
\"periodic\":[] > \"periodic\":[[0,1,0,1],[]] => Err(PeriodicColumn(TooLong { column: 0 }))
[[[6150,6144]]] > [[[5]]] & [12288,0],[0,0],[0,0],[0,0] > [12288],[0],[0],[0] & [[4, > [[5, & [[7, > [[5, & \"degree_bits\":1 > \"degree_bits\":0 => Ok(())
[[[6150,6144]]] > [[[5]]] & [12288,0],[0,0],[0,0],[0,0] > [12288],[0],[0],[0] & [[4, > [[5, & [[7, > [[5, & \"degree_bits\":1 > \"degree_bits\":0 & \"hint\":null > \"hint\":9223372036854775809 => Err(InvalidProofShape(QuotientDomainTooLarge { air: None, maximum: 12, got: 63 }))
[[[6150,6144]]] > [[[5]]] & [12288,0],[0,0],[0,0],[0,0] > [12288],[0],[0],[0] & [[4, > [[5, & [[7, > [[5, & \"degree_bits\":1 > \"degree_bits\":12 => Err(OodPointInDomain)
[[[6150,6144]]] > [[[5]]] & [12288,0],[0,0],[0,0],[0,0] > [12288],[0],[0],[0] & [[4, > [[5, & [[7, > [[5, & \"degree_bits\":1 > \"degree_bits\":12 & [4,0,0,0,3, > [4,0,0,0,11, => Err(InvalidOpeningArgument(Shape { round: 0 }))";

#[test]
fn spoiled_counters(rt: HostRuntime) -> Result<(), Fail> {
    let alloc = rt.alloc();
    for case in COUNTERS.lines() {
        let (edits, expected) = case.split_once(" => ").ok_or("a case without an answer")?;
        let spoiled = edited(alloc, COUNTER, edits)?.ok_or("nothing is taken out")?;
        assert_eq!(rt;
            answer_to(alloc, "clear", &spoiled)?.as_str(),
            expected,
            "{edits}"
        );
    }
    Ok(())
}
