//! Runs of `prove` of `stark_run`, and of `verify` on what it wrote.

pub(crate) const PROVE: &str = r#"
# COMMANDS | INPUT | FROM => TO | .. | LINES, as `table.rt` says.

# The proof of each AIR's trace, by alpha 4 and zeta 3.
prove counter | <trace of counter> | <proof of counter>
prove cubic | <trace of cubic> | <proof of cubic>
prove fibonacci | <trace of fibonacci> | <proof of fibonacci>
prove periodic | <trace of periodic> | <proof of periodic>
prove preprocessed | <trace of preprocessed> | <proof of preprocessed>
prove pair | <trace of pair> | <proof of pair>

# By hashing, with a search for a witness, the verifier accepts them.
prove counter then verify counter | <trace of counter> | <script> => "sha256","ood_bits":3 | accepted
prove cubic then verify cubic | <trace of cubic> | <script> => "sha256","ood_bits":3 | accepted
prove fibonacci then verify fibonacci | <trace of fibonacci> | <script> => "sha256","ood_bits":3 | accepted
prove periodic then verify periodic | <trace of periodic> | <script> => "sha256","ood_bits":3 | accepted
prove preprocessed then verify preprocessed | <trace of preprocessed> | <script> => "sha256","ood_bits":3 | accepted
prove pair then verify pair | <trace of pair> | <script> => "sha256","ood_bits":3 | accepted

# Work before alpha: its witness stands in the proof where some is asked for, and not else. Both works have their own bits.
prove counter | <trace of counter with work> | <worked proof of counter>
prove counter | <trace of counter> | <script> => <script>,"alpha_bits":0 | <proof of counter>
prove counter | <trace of counter> | <script> => <script>,"alpha_bits":null | <proof of counter>
prove counter then verify counter | <trace of counter with work> | accepted
prove counter then verify counter | <trace of counter> | <script> => <script>,"alpha_bits":1,"ood_bits":13 | accepted
prove counter then verify counter | <trace of counter> | <script> => "sha256","alpha_bits":3,"ood_bits":2 | accepted
prove fibonacci then verify fibonacci | <trace of fibonacci> | <script> => "sha256","alpha_bits":3 | accepted
prove preprocessed then verify preprocessed | <trace of preprocessed> | <script> => "sha256","alpha_bits":3 | accepted

# A trace that breaks the AIR is proved all the same, and so is one for which zeta is drawn in the domain; the proofs are refused.
prove counter then verify counter | <trace of counter> | [[5],[6]] => [[5],[7]] | <script> => "sha256" | refused OodEvaluationMismatch
prove fibonacci then verify fibonacci | <trace of fibonacci> | [3,5]] => [3,4]] | <script> => "sha256" | refused OodEvaluationMismatch
prove preprocessed then verify preprocessed | <trace of preprocessed> | [3],[4]] => [4],[3]] | <script> => "sha256" | refused OodEvaluationMismatch
prove counter then verify counter | <trace of counter> | [4,0,0,0,3, => [4,0,0,0,1, | refused OodPointInDomain

# No proof: a periodic column that doesn't fit, no witness of so many bits, no group for the quotient.
prove periodic | <trace of periodic> | [[0],[1]] => [[0]] | refused PeriodicColumn
prove counter | <trace of counter> | <script> => <script>,"ood_bits":14 | refused GrindExhausted
prove counter | <trace of counter> | <script> => <script>,"alpha_bits":14,"ood_bits":1 | refused GrindExhausted
prove cubic | <trace of cubic> | [[0],[0],[0],[0]] => [[0]\(4095 ,[0])] | refused QuotientDomainTooLarge
prove cubic | <trace of cubic> | [[0],[0],[0],[0]] => [[0]\(8191 ,[0])] | bad input

# Traces that are not read: of another width, ragged, of no power of two of rows, no rows at all, no elements.
prove counter | <trace of counter> | [[5],[6]] => [[5,6],[6,7]] | bad input
prove counter | <trace of counter> | [[5],[6]] => [[5],[6,7]] | bad input
prove counter | <trace of counter> | [[5],[6]] => [] | bad input
prove counter | <trace of counter> | [[5],[6]] => [[5],[6],[7]] | bad input
prove counter | <trace of counter> | [[5],[6]] => [5,6] | bad input
prove counter | <trace of counter> | [[5],[6]] => null | bad input
prove counter | <trace of counter> | [[5],[6]] => [[12289],[6]] | bad input
prove preprocessed | <trace of preprocessed> | [[1],[2],[3],[4]] => [[1],[2]] | bad input
prove pair | <trace of pair> | [[5,5],[6,6]] => [[5],[6]] | bad input

# And public values, challengers and bits that are not read.
prove counter | <trace of counter> | "publics":[5] => "publics":[] | bad input
prove counter | <trace of counter> | "publics":[5] => "publics":[5,5] | bad input
prove counter | <trace of counter> | <script> => [] | bad input
prove counter | <trace of counter> | <script> => "sha" | bad input
prove counter | <trace of counter> | <script> => "sha256","ood_bits":1.5 | bad input
prove counter | <trace of counter> | <script> => "sha256","alpha_bits":1.5 | bad input
"#;
