//! Inputs of `verify` of `stark_run` that a stranger spoiled.

pub(crate) const HOSTILE: &str = r#"
# COMMANDS | INPUT | FROM => TO | .. | LINES, as `table.rt` says.

# Before and behind the honest input.
verify counter | <counter> | {"proof" => \ef\bb\bf{"proof" | bad input
verify counter | <counter> | 3,0,0,0]} => 3,0,0,0]}x | bad input
verify counter | <counter> | 3,0,0,0]} => 3,0,0,0]}{} | bad input
verify counter | <counter> | 3,0,0,0]} => 3,0,0,0]}\00 | bad input
verify counter | <counter> | {"proof" => \ff{"proof" | bad input
verify counter | <counter> | 3,0,0,0]} => 3,0,0,0]}\ff | bad input

# A name that is no text, and an object with no member.
verify counter | <counter> | {"proof" => {"\ff":0,"proof" | bad input
verify counter | {} | bad input

# No reader nests so deep, and no number has so many digits.
verify counter | <counter> | {"proof" => {"other":\(100000 [)\(100000 ]),"proof" | bad input
verify counter | <counter> | {"proof" => {"other":\(10000000 7),"proof" | bad input

# Of a name that stands twice in one object the last value counts, and is the one that is read.
verify counter | <counter> | {"proof" => {"publics":[6],"proof" | accepted
verify counter | <counter> | 3,0,0,0]} => 3,0,0,0],"publics":[6]} | refused OodEvaluationMismatch
verify counter | <counter> | 3,0,0,0]} => 3,0,0,0],"publics":[12289]} | bad input
"#;

// The run whose input has each byte replaced.
pub(crate) const REPLACED: &str = r#"
verify counter | <counter> | accepted
"#;

// What a run of `verify` may say, a line each.
pub(crate) const LINES: &str = "
accepted
bad input
refused DegreeBitsTooSmall
refused DegreeBitsTooLarge
refused UnexpectedPreprocessedValues
refused PreprocessedTraceWidthMismatch
refused UnexpectedPreprocessedNext
refused PreprocessedVerifierKeyInconsistency
refused PreprocessedDegreeMismatch
refused QuotientDomainTooLarge
refused PublicValuesLengthMismatch
refused TraceNextMismatch
refused UnexpectedTraceNext
refused OpenedValuesDimensionMismatch
refused NonCanonicalAlphaPowWitness
refused NonCanonicalOodPowWitness
refused PeriodicColumn
refused InvalidOpeningArgument
refused OodEvaluationMismatch
refused RandomizationError
refused OodPointInDomain
refused InvalidAlphaPowWitness
refused InvalidOodPowWitness
";
