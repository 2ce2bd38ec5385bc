//! Runs of `check` of `stark_run`.

pub(crate) const CHECK: &str = r#"
# COMMANDS | INPUT | FROM => TO | .. | LINES, as `table.rt` says.

# Numbers of which the equation holds; a field that isn't known is passed over, and so is white space.
check counter | <check of counter> | accepted
check counter | <check of counter> | "log_height":1, => "other":[],"log_height":1, | accepted
check counter | <check of counter> | [3,0,0,0] => [ 3 , 0 , 0 , 0 ] | accepted

# Another number anywhere breaks the equation.
check counter | <check of counter> | [[4,0,0,0]] => [[5,0,0,0]] | refused OodEvaluationMismatch
check counter | <check of counter> | [[7,0,0,0]] => [[7,0,0,1]] | refused OodEvaluationMismatch
check counter | <check of counter> | "publics":[5] => "publics":[6] | refused OodEvaluationMismatch
check counter | <check of counter> | [12288,0,0,0] => [12287,0,0,0] | refused OodEvaluationMismatch
check counter | <check of counter> | "alpha":[4, => "alpha":[5, | refused OodEvaluationMismatch

# Zeta is a point of the group; 3 is one of the group of 512.
check counter | <check of counter> | "zeta":[3, => "zeta":[1, | refused OodPointInDomain
check counter | <check of counter> | "log_height":1, => "log_height":9, | refused OodPointInDomain

# A height that is too large, no whole number, or missing.
check counter | <check of counter> | "log_height":1, => "log_height":13, | bad input
check counter | <check of counter> | "log_height":1, => "log_height":-1, | bad input
check counter | <check of counter> | "log_height":1, => "log_height":1.0, | bad input
check counter | <check of counter> | "log_height":1, => "log_height":1e0, | bad input
check counter | <check of counter> | "log_height":1, => "log_height":"1", | bad input
check counter | <check of counter> | "log_height":1, => "log_height":null, | bad input
check counter | <check of counter> | "log_height":1, => | bad input

# Rows of other widths, and numbers that are no elements.
check counter | <check of counter> | [[4,0,0,0]] => [[4,0,0,0],[4,0,0,0]] | bad input
check counter | <check of counter> | [[4,0,0,0]] => [] | bad input
check counter | <check of counter> | [[4,0,0,0]] => [4,0,0,0] | bad input
check counter | <check of counter> | [[4,0,0,0]] => [[12289,0,0,0]] | bad input
check counter | <check of counter> | [[4,0,0,0]] => [[4.0,0,0,0]] | bad input
check counter | <check of counter> | [[4,0,0,0]] => [[4e0,0,0,0]] | bad input
check counter | <check of counter> | [[4,0,0,0]] => [[4,0,0]] | bad input
check counter | <check of counter> | [[4,0,0,0]] => [[4,0,0,0,0]] | bad input
check counter | <check of counter> | [[7,0,0,0]] => [[7,0,0,0],[7,0,0,0]] | bad input
check counter | <check of counter> | "publics":[5] => "publics":[5,5] | bad input
check counter | <check of counter> | "publics":[5] => "publics":[] | bad input
check counter | <check of counter> | "publics":[5] => "publics":[12289] | bad input
check counter | <check of counter> | "alpha":[4,0,0,0] => "alpha":4 | bad input
check counter | <check of counter> | "zeta":[3,0,0,0] => "zeta":[3,0,0,18446744073709551616] | bad input

# Chunks of another count, or missing.
check counter | <check of counter> | ,[0,0,0,0]]] => ]] | bad input
check counter | <check of counter> | [0,0,0,0]]] => [0,0,0,0],[0,0,0,0]]] | bad input
check counter | <check of counter> | "chunks":[ => "chunks":[[], | bad input
check counter | <check of counter> | "chunks" => "Chunks" | bad input

# No object, and a byte that is no text.
check counter | <nothing> | bad input
check counter | [] | bad input
check counter | \ff | bad input

# A row that the AIR doesn't read is an unknown field. A group of eight times 4096 points isn't there, which comes before the
# number of chunks and before zeta.
check cubic | <check of cubic> | accepted
check cubic | <check of cubic> | "alpha" => "next":7,"preprocessed_local":[],"alpha" | accepted
check cubic | <check of cubic> | [[[7684, => [[[0, | refused OodEvaluationMismatch
check cubic | <check of cubic> | [[[7684,0,0,0],[0,0,0,0],[0,0,0,0],[0,0,0,0]], => [ | bad input
check cubic | <check of cubic> | "publics":[] => "publics":[0] | bad input
check cubic | <check of cubic> | "log_height":1, => "log_height":12, | refused QuotientDomainTooLarge
check cubic | <check of cubic> | "log_height":1, => "log_height":12, | [[[7684,0,0,0],[0,0,0,0],[0,0,0,0],[0,0,0,0]], => [ | refused QuotientDomainTooLarge
check cubic | <check of cubic> | "log_height":1, => "log_height":12, | "zeta":[3, => "zeta":[1, | refused QuotientDomainTooLarge

# A column of two values doesn't fit one row; that zeta is a point of the group comes before it.
check periodic | <check of periodic> | accepted
check periodic | <check of periodic> | [[12288, => [[0, | refused OodEvaluationMismatch
check periodic | <check of periodic> | "log_height":1, => "log_height":0, | refused PeriodicColumn
check periodic | <check of periodic> | "zeta":[3, => "zeta":[12288, | refused OodPointInDomain
check periodic | <check of periodic> | "log_height":1, => "log_height":0, | "zeta":[3, => "zeta":[1, | refused OodPointInDomain

check pair | <check of pair> | accepted
check pair | <check of pair> | [7,0,0,0]], => [8,0,0,0]], | refused OodEvaluationMismatch
check pair | <check of pair> | [7,0,0,0],[7,0,0,0] => [7,0,0,0] | bad input
check pair | <check of pair> | "next" => "Next" | bad input

check fibonacci | <check of fibonacci> | accepted
check fibonacci | <check of fibonacci> | [1,2,2] => [1,2,3] | refused OodEvaluationMismatch
check fibonacci | <check of fibonacci> | [1,2,2] => [1,2] | bad input
check fibonacci | <check of fibonacci> | [[539, => [[538, | refused OodEvaluationMismatch
check fibonacci | <check of fibonacci> | "next" => "Next" | bad input

check preprocessed | <check of preprocessed> | accepted
check preprocessed | <check of preprocessed> | [[13, => [[12, | refused OodEvaluationMismatch
check preprocessed | <check of preprocessed> | [[13,0,0,0]] => [] | bad input
check preprocessed | <check of preprocessed> | [[13,0,0,0]] => [[13,0,0,0],[13,0,0,0]] | bad input
check preprocessed | <check of preprocessed> | "preprocessed_local" => "Preprocessed_local" | bad input

# The numbers of another AIR, and an AIR that has no name.
check periodic | <check of cubic> | bad input
check preprocessed | <check of periodic> | bad input
check cubics | <check of cubic> | bad input
"#;
