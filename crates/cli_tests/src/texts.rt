//! The texts that have a name, which the tables of runs of `stark_run` cite.

pub(crate) const TEXTS: &str = r#"
# NAME = TEXT. A name that stands in a text, a case or a later name is that text.

<nothing> =

# What `check` reads. At zeta 3 on the group of two points the selectors are 4 for the first row, 2 for the last and 4 for the
# transition, and X^2 - 1 is 8; alpha is 4. The counter: 4 * (4 * (4 - 5)) + 4 * (7 - 4 - 1) = -8 = 8 * -1.
<check of counter> = {"log_height":1,"publics":[5],"local":[[4,0,0,0]],"next":[[7,0,0,0]],"alpha":[4,0,0,0],"zeta":[3,0,0,0],"chunks":[[[12288,0,0,0],[0,0,0,0],[0,0,0,0],[0,0,0,0]]]}
<check of cubic> = {"log_height":1,"publics":[],"local":[[3,0,0,0]],"alpha":[4,0,0,0],"zeta":[3,0,0,0],"chunks":[[[7684,0,0,0],[0,0,0,0],[0,0,0,0],[0,0,0,0]],[[7684,0,0,0],[0,0,0,0],[0,0,0,0],[0,0,0,0]]]}
<check of periodic> = {"log_height":1,"publics":[],"local":[[12288,0,0,0]],"alpha":[4,0,0,0],"zeta":[3,0,0,0],"chunks":[[[0,0,0,0],[0,0,0,0],[0,0,0,0],[0,0,0,0]]]}
<check of pair> = {"log_height":1,"publics":[5],"local":[[4,0,0,0],[4,0,0,0]],"next":[[7,0,0,0],[7,0,0,0]],"alpha":[4,0,0,0],"zeta":[3,0,0,0],"chunks":[[[12272,0,0,0],[0,0,0,0],[0,0,0,0],[0,0,0,0]]]}
# The constraints are 12, 16, 12, 4 and 8, which 4 folds to 4312 = 8 * 539.
<check of fibonacci> = {"log_height":1,"publics":[1,2,2],"local":[[4,0,0,0],[6,0,0,0]],"next":[[9,0,0,0],[11,0,0,0]],"alpha":[4,0,0,0],"zeta":[3,0,0,0],"chunks":[[[539,0,0,0],[0,0,0,0],[0,0,0,0],[0,0,0,0]]]}
# The constraint is 5 - 13 = 8 * -1.
<check of preprocessed> = {"log_height":1,"publics":[],"local":[[5,0,0,0]],"preprocessed_local":[[13,0,0,0]],"alpha":[4,0,0,0],"zeta":[3,0,0,0],"chunks":[[[12288,0,0,0],[0,0,0,0],[0,0,0,0],[0,0,0,0]]]}

# What a challenger hands out round and round: alpha 4, then zeta 3.
<script> = [4,0,0,0,3,0,0,0]

# Traces that satisfy their AIRs, as `prove` reads them.
<trace of counter> = {"trace":[[5],[6]],"publics":[5],"challenger":<script>}
<trace of cubic> = {"trace":[[0],[0],[0],[0]],"publics":[],"challenger":<script>}
<trace of fibonacci> = {"trace":[[1,1],[1,2],[2,3],[3,5]],"publics":[1,1,5],"challenger":<script>}
<trace of periodic> = {"trace":[[0],[1]],"publics":[],"challenger":<script>}
<trace of preprocessed> = {"trace":[[1],[2],[3],[4]],"publics":[],"challenger":<script>}
<trace of pair> = {"trace":[[5,5],[6,6]],"publics":[5],"challenger":<script>}
<trace of counter with work> = {"trace":[[5],[6]],"publics":[5],"challenger":<script>,"alpha_bits":3}

# Their proofs by that alpha and zeta. The counter's is that of the trace 5, 6; the others were made by a plain prover outside this repository.
<proof of counter> = {"commitments":{"quotient_chunks":[[[12288,0],[0,0],[0,0],[0,0]]],"random":null,"trace":[[[6150,6144]]]},"degree_bits":1,"ood_pow_witness":0,"opened_values":{"preprocessed_local":null,"preprocessed_next":null,"quotient_chunks":[[[12288,0,0,0],[0,0,0,0],[0,0,0,0],[0,0,0,0]]],"random":null,"trace_local":[[4,0,0,0]],"trace_next":[[7,0,0,0]]},"opening_proof":null}
<proof of cubic> = {"commitments":{"quotient_chunks":[[[0,0,0,0],[0,0,0,0],[0,0,0,0],[0,0,0,0]],[[0,0,0,0],[0,0,0,0],[0,0,0,0],[0,0,0,0]]],"random":null,"trace":[[[0,0,0,0]]]},"degree_bits":2,"ood_pow_witness":0,"opened_values":{"preprocessed_local":null,"preprocessed_next":null,"quotient_chunks":[[[0,0,0,0],[0,0,0,0],[0,0,0,0],[0,0,0,0]],[[0,0,0,0],[0,0,0,0],[0,0,0,0],[0,0,0,0]]],"random":null,"trace_local":[[0,0,0,0]],"trace_next":null},"opening_proof":null}
<proof of fibonacci> = {"commitments":{"quotient_chunks":[[[3246,10584,5776,0],[0,0,0,0],[0,0,0,0],[0,0,0,0]]],"random":null,"trace":[[[3074,9956,3072,8477],[3075,4181,9216,8107]]]},"degree_bits":2,"ood_pow_witness":0,"opened_values":{"preprocessed_local":null,"preprocessed_next":null,"quotient_chunks":[[[959,0,0,0],[0,0,0,0],[0,0,0,0],[0,0,0,0]]],"random":null,"trace_local":[[6822,0,0,0],[10226,0,0,0]],"trace_next":[[8863,0,0,0],[5446,0,0,0]]},"opening_proof":null}
<proof of periodic> = {"commitments":{"quotient_chunks":[[[0,0],[0,0],[0,0],[0,0]]],"random":null,"trace":[[[6145,6144]]]},"degree_bits":1,"ood_pow_witness":0,"opened_values":{"preprocessed_local":null,"preprocessed_next":null,"quotient_chunks":[[[0,0,0,0],[0,0,0,0],[0,0,0,0],[0,0,0,0]]],"random":null,"trace_local":[[12288,0,0,0]],"trace_next":null},"opening_proof":null}
<proof of preprocessed> = {"commitments":{"quotient_chunks":[[[0,0,0,0],[0,0,0,0],[0,0,0,0],[0,0,0,0]]],"random":null,"trace":[[[6147,739,6144,11549]]]},"degree_bits":2,"ood_pow_witness":0,"opened_values":{"preprocessed_local":[[6813,0,0,0]],"preprocessed_next":null,"quotient_chunks":[[[0,0,0,0],[0,0,0,0],[0,0,0,0],[0,0,0,0]]],"random":null,"trace_local":[[6813,0,0,0]],"trace_next":null},"opening_proof":null}
<proof of pair> = {"commitments":{"quotient_chunks":[[[12272,0],[0,0],[0,0],[0,0]]],"random":null,"trace":[[[6150,6144],[6150,6144]]]},"degree_bits":1,"ood_pow_witness":0,"opened_values":{"preprocessed_local":null,"preprocessed_next":null,"quotient_chunks":[[[12272,0,0,0],[0,0,0,0],[0,0,0,0],[0,0,0,0]]],"random":null,"trace_local":[[4,0,0,0],[4,0,0,0]],"trace_next":[[7,0,0,0],[7,0,0,0]]},"opening_proof":null}
# The counter's with three bits of work before alpha: a script's witness passes where the number after it is a multiple of 8.
<worked proof of counter> = {"alpha_pow_witness":7,"commitments":{"quotient_chunks":[[[12288,0],[0,0],[0,0],[0,0]]],"random":null,"trace":[[[6150,6144]]]},"degree_bits":1,"ood_pow_witness":0,"opened_values":{"preprocessed_local":null,"preprocessed_next":null,"quotient_chunks":[[[12288,0,0,0],[0,0,0,0],[0,0,0,0],[0,0,0,0]]],"random":null,"trace_local":[[4,0,0,0]],"trace_next":[[7,0,0,0]]},"opening_proof":null}

# What `verify` reads.
<counter> = {"proof":<proof of counter>,"publics":[5],"challenger":<script>}
<cubic> = {"proof":<proof of cubic>,"publics":[],"challenger":<script>}
<fibonacci> = {"proof":<proof of fibonacci>,"publics":[1,1,5],"challenger":<script>}
<periodic> = {"proof":<proof of periodic>,"publics":[],"challenger":<script>}
<preprocessed> = {"proof":<proof of preprocessed>,"publics":[],"challenger":<script>}
<pair> = {"proof":<proof of pair>,"publics":[5],"challenger":<script>}
<counter with work> = {"proof":<worked proof of counter>,"publics":[5],"challenger":<script>,"alpha_bits":3}
"#;
