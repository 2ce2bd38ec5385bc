//! Runs of `verify` of `stark_run`.

pub(crate) const VERIFY: &str = r#"
# COMMANDS | INPUT | FROM => TO | .. | LINES, as `table.rt` says.

# Honest proofs.
verify counter | <counter> | accepted
verify cubic | <cubic> | accepted
verify fibonacci | <fibonacci> | accepted
verify periodic | <periodic> | accepted
verify preprocessed | <preprocessed> | accepted
verify pair | <pair> | accepted

# Of two faults the first in order is told.
verify counter | <counter> | "trace_next":[[7,0,0,0]] => "trace_next":null | "publics":[5] => "publics":[5,5] | refused PublicValuesLengthMismatch
verify counter | <counter> | "trace_next":[[7,0,0,0]] => "trace_next":null | refused TraceNextMismatch
verify counter | <counter> | "ood_pow_witness":0 => "ood_pow_witness":7 | refused NonCanonicalOodPowWitness
verify counter | <counter> | "challenger":[4,0,0,0,3, => "challenger":[4,0,0,0,1, | refused OodPointInDomain
verify counter | <counter> | "challenger":[4,0,0,0,3, => "challenger":[4,0,0,0,1, | [[4,0,0,0]] => [[5,0,0,0]] | refused OodPointInDomain
verify counter | <counter> | [[4,0,0,0]] => [[5,0,0,0]] | refused InvalidOpeningArgument
verify counter | <counter> | "degree_bits":1 => "degree_bits":8 | refused InvalidOpeningArgument
verify counter | <counter> | "degree_bits":1 => "degree_bits":9 | refused OodPointInDomain
verify counter | <counter> | "degree_bits":1 => "degree_bits":13 | refused DegreeBitsTooLarge
verify counter | <counter> | "random":null,"trace_local" => "random":[[0,0,0,0]],"trace_local" | refused RandomizationError
verify counter | <counter> | "challenger" => "ood_bits":16,"challenger" | refused InvalidOodPowWitness

# Work before alpha. The witness 7 passes three bits, and 6 doesn't; where none is asked for, only zero stands, and is what isn't
# written. It is told before the work before zeta.
verify counter | <counter with work> | accepted
verify counter | <counter with work> | "alpha_pow_witness":7 => "alpha_pow_witness":6 | refused InvalidAlphaPowWitness
verify counter | <counter with work> | "alpha_bits":3 => "alpha_bits":0 | refused NonCanonicalAlphaPowWitness
verify counter | <counter with work> | "alpha_bits":3 => "alpha_bits":0 | "ood_pow_witness":0 => "ood_pow_witness":7 | refused NonCanonicalAlphaPowWitness
verify counter | <counter> | "challenger" => "alpha_bits":0,"challenger" | accepted
verify counter | <counter> | "challenger" => "alpha_bits":3,"challenger" | refused InvalidAlphaPowWitness
verify counter | <counter> | "challenger" => "alpha_bits":3,"ood_bits":16,"challenger" | refused InvalidAlphaPowWitness
verify counter | <counter> | "degree_bits" => "alpha_pow_witness":null,"degree_bits" | accepted

# The trace 5, 7 breaks the AIR, and zeta 3 is one of the points at which that can't be seen.
verify counter | <counter> | [[[6150,6144]]] => [[[6,12288]]] | [[[12288,0], => [[[6143,0], | [[[12288,0,0,0], => [[[6143,0,0,0], | [[4,0,0,0]] => [[3,0,0,0]] | [[7,0,0,0]] => [[9,0,0,0]] | accepted

verify cubic | <cubic> | "degree_bits":2 => "degree_bits":12 | refused QuotientDomainTooLarge
verify fibonacci | <fibonacci> | [1,1,5] => [1,1,6] | refused OodEvaluationMismatch
verify fibonacci | <fibonacci> | [[6822,0,0,0],[10226, => [[10226,0,0,0],[6822, | refused InvalidOpeningArgument
verify preprocessed | <preprocessed> | [[6813, => [[6814, | refused InvalidOpeningArgument
verify preprocessed | <preprocessed> | "preprocessed_local":[[6813,0,0,0]] => "preprocessed_local":null | refused PreprocessedTraceWidthMismatch
verify preprocessed | <preprocessed> | "preprocessed_next":null => "preprocessed_next":[[6813,0,0,0]] | refused PreprocessedTraceWidthMismatch
verify preprocessed | <preprocessed> | "degree_bits":2 => "degree_bits":3 | refused PreprocessedDegreeMismatch
verify periodic | <periodic> | "preprocessed_local":null => "preprocessed_local":[[0,0,0,0]] | refused UnexpectedPreprocessedValues
verify periodic | <periodic> | "trace_next":null => "trace_next":[[0,0,0,0]] | refused UnexpectedTraceNext
verify periodic | <periodic> | "degree_bits":1 => "degree_bits":0 | refused PeriodicColumn
verify pair | <pair> | [[4,0,0,0],[4,0,0,0]] => [[4,0,0,0]] | refused OpenedValuesDimensionMismatch

# Inputs that are not read.
verify counter | <counter> | "challenger":<script> => "challenger":[] | bad input
verify counter | <counter> | "challenger":<script> => "challenger":"sha" | bad input
verify counter | <counter> | "challenger":[4, => "ood_bits":1.5,"challenger":[4, | bad input
verify counter | <counter> | "challenger":[4, => "alpha_bits":1.5,"challenger":[4, | bad input
verify counter | <counter> | "degree_bits" => "alpha_pow_witness":12289,"degree_bits" | bad input
verify counter | <counter> | "publics":[5] => "publics":[12289] | bad input
verify counter | <counter> | "opening_proof":null => "opening_proof":0 | bad input
verify counter | <counter> | "degree_bits":1 => "degree_bits":1.0 | bad input

# By the hashing challenger the point is another one, at which the opened values are not the columns'.
verify counter | <counter> | "challenger":<script> => "challenger":"sha256","ood_bits":null | refused InvalidOpeningArgument
"#;
