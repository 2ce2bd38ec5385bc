//! Runs of `voskligan`.

// Each verb on each example.
pub(crate) const EXAMPLES: &str = r#"
# COMMANDS | INPUT | FROM => TO | .. | LINES, as `table.rt` says.

# The verifier accepts the proof of each example's trace.
prove then verify | <counter> | accepted
prove then verify | <fibonacci> | accepted
prove then verify | <range> | accepted
prove then verify | <machine> | accepted
prove then verify | <preprocessed> | accepted

# It refuses the proof of each trace that breaks a constraint and was not checked.
prove --unchecked then verify | <counter false> | refused OodEvaluationMismatch
prove --unchecked then verify | <fibonacci false> | refused OodEvaluationMismatch
prove --unchecked then verify | <range false> | refused OodEvaluationMismatch
prove --unchecked then verify | <machine false> | refused OodEvaluationMismatch
prove --unchecked then verify | <preprocessed> | \1e[[1] => \1e[[2] | refused OodEvaluationMismatch
prove --unchecked then verify | <counter> | accepted

# Over BabyBear by FRI: where the statement names no configuration, and else with few bits of work.
prove then verify | <example counter> | accepted
prove then verify | <example fibonacci> | "air" => "config":{"query_proof_of_work_bits":2},"air" | accepted
prove then verify | <example range> | "air" => "config":{"query_proof_of_work_bits":2},"air" | accepted
prove then verify | <example machine> | "air" => "config":{"query_proof_of_work_bits":2},"air" | accepted
prove --unchecked then verify | <example counter false> | "air" => "config":{"query_proof_of_work_bits":2},"air" | refused OodEvaluationMismatch
prove --unchecked then verify | <example fibonacci false> | "air" => "config":{"query_proof_of_work_bits":2},"air" | refused OodEvaluationMismatch
prove --unchecked then verify | <example range false> | "air" => "config":{"query_proof_of_work_bits":2},"air" | refused OodEvaluationMismatch
prove --unchecked then verify | <example machine false> | "air" => "config":{"query_proof_of_work_bits":2},"air" | refused OodEvaluationMismatch

# Each field by each scheme.
prove then verify | <example counter> | "air" => "config":{},"air" | accepted
prove then verify | <example counter> | "air" => "config":{"field":"koala_bear","num_queries":20,"query_proof_of_work_bits":2},"air" | accepted
prove then verify | <example counter> | "air" => "config":{"field":"f12289","scheme":"fri","log_blowup":2,"log_final_poly_len":1,"num_queries":4,"commit_proof_of_work_bits":2,"query_proof_of_work_bits":3},"air" | accepted
prove then verify | <example counter> | "air" => "config":{"scheme":"clear"},"air" | accepted
prove then verify | <example counter> | "air" => "config":{"field":"koala_bear","scheme":"clear"},"air" | accepted

# A proof as bytes says what it says as JSON.
prove --binary then verify | <counter> | accepted
prove --binary then verify | <preprocessed> | accepted
prove --binary then verify | <example range> | "air" => "config":{"query_proof_of_work_bits":2},"air" | accepted
prove --binary then verify | <example machine> | "air" => "config":{"query_proof_of_work_bits":2},"air" | accepted
prove --unchecked --binary then verify | <counter false> | refused OodEvaluationMismatch
prove --unchecked --binary then verify | <example counter false> | "air" => "config":{"query_proof_of_work_bits":2},"air" | refused OodEvaluationMismatch

# A proof with another configuration is none.
verify | <proved> | "field":"f12289" => "field":"baby_bear" | refused InvalidOpeningArgument
verify | <proved> | "field":"f12289" => "field":"koala_bear" | refused InvalidOpeningArgument
verify | <proved> | "config":{"field":"f12289","scheme":"clear"}, =>  | bad input

# With work.
prove then verify | <counter> | "public_values" => "ood_bits":3,"public_values" | accepted
prove then verify | <counter> | "public_values" => "alpha_bits":3,"public_values" | accepted
prove then verify | <counter> | "public_values" => "alpha_bits":2,"ood_bits":3,"public_values" | accepted
prove then verify | <counter> | "public_values" => "alpha_bits":null,"ood_bits":0,"public_values" | accepted

# A proof that was computed elsewhere. It is one for this statement alone.
prove | <two rows> | <proof of two rows>
verify | <proved> | accepted
verify | <proved> | "public_values":[5] => "public_values":[6] | refused InvalidOpeningArgument
verify | <proved> | "constants":[1] => "constants":[2] | refused InvalidOpeningArgument
verify | <proved> | [{"base":4},{"base":10}] => [{"base":10},{"base":4}] | refused InvalidOpeningArgument
verify | <proved> | ["sub",7,8] => ["add",7,8] | refused InvalidOpeningArgument
verify | <proved> | "constants":[1] => "max_constraint_degree":2,"constants":[1] | refused InvalidOpeningArgument
verify | <proved> | "constants":[1] => "constants":[1,3] | refused InvalidOpeningArgument
verify | <proved> | "public_values" => "alpha_bits":20,"public_values" | refused InvalidAlphaPowWitness
verify | <proved> | "public_values" => "ood_bits":20,"public_values" | refused InvalidOodPowWitness

# Work that no element passes is no work.
prove | <two rows> | "public_values" => "alpha_bits":64,"public_values" | bad input
verify | <proved> | "public_values" => "ood_bits":18446744073709551615,"public_values" | bad input

# At a height that the statement fixes. A proof is one for this statement alone.
prove then verify | <two rows> | "public_values" => "log_height":1,"public_values" | accepted
check | <two rows> | "public_values" => "log_height":1,"public_values" | satisfied
check | <two rows> | "public_values" => "log_height":0,"public_values" | bad input
prove | <two rows> | "public_values" => "log_height":2,"public_values" | bad input
prove --unchecked | <two rows> | "public_values" => "log_height":64,"public_values" | bad input
verify | <proved> | "public_values" => "log_height":null,"public_values" | accepted
verify | <proved> | "public_values" => "log_height":1,"public_values" | refused InvalidOpeningArgument
verify | <proved> | "public_values" => "log_height":0,"public_values" | refused DegreeBitsTooLarge
verify | <proved> | "public_values" => "log_height":2,"public_values" | refused DegreeBitsTooSmall
verify | <proved> | "public_values" => "log_height":64,"public_values" | refused DegreeBitsTooSmall
verify | <proved> | "public_values" => "log_height":"1","public_values" | bad input

# Where its worth has a floor. At 2^1 rows an alpha and at most four zetas of 12289^4, some 2^54, are bad.
verify --at-least 51 | <proved> | accepted
verify --at-least 52 | <proved> | not judged: worth 51 proved bits at this height
verify --at-least 51 | <proved> | "public_values":[5] => "public_values":[6] | refused InvalidOpeningArgument
verify --at-least 1 | <proved> | "degree_bits":1 => "degree_bits":13 | not judged: worth 0 proved bits at this height
verify --at-least 52 | <proved> | "public_values" => "log_height":"1","public_values" | bad input
verify --at-least 52 | <proved> | "degree_bits":1 => "degree_bits":"1" | bad input

# Names that stand twice in an object of the statement.
verify | <proved> | "public_values" => "public_values":[5],"public_values" | bad input
check | <two rows> | {"base":4} => {"base":4,"base":4} | bad input

# A proof whose AIR was chosen behind zeta.
verify | <forged> | refused InvalidOpeningArgument
"#;

// What a check says, and a prover of what a check finds broken.
pub(crate) const CHECKED: &str = r#"
# Each example's trace, and its false one.
check | <counter> | satisfied
check | <fibonacci> | satisfied
check | <range> | satisfied
check | <machine> | satisfied
check | <preprocessed> | satisfied
check | <example counter> | satisfied
check | <example fibonacci> | satisfied
check | <example range> | satisfied
check | <example machine> | satisfied
check | <example counter false> | <check of example counter>
check | <example fibonacci false> | <check of example fibonacci>
check | <example range false> | <check of example range>
check | <example machine false> | <check of example machine>
check | <counter false> | <check of counter>
check | <fibonacci false> | <check of fibonacci>
check | <range false> | <check of range>
check | <machine false> | <check of machine>

# The last row alone is wrong, beside a preprocessed and a periodic column.
check | <preprocessed> | \1e[[1],[2],[3],[4]] => \1e[[1],[2],[3],[5]] | row 3: constraint 0 is 1\0a<equation of preprocessed>
check | <periodic>\1e[[1],[3],[1],[4]] | row 3: constraint 0 is 1\0a<equation of periodic>
check | <periodic>\1e[[1],[3],[1],[3]] | satisfied

# A periodic column that doesn't fit the trace: longer than it, empty, or of three values.
check | <periodic>\1e[[1]] | refused PeriodicColumn
prove | <periodic>\1e[[1]] | refused PeriodicColumn
prove --unchecked | <periodic>\1e[[1]] | refused PeriodicColumn
check | <periodic>\1e[[2]] | refused PeriodicColumn
check | <counter> | "periodic":[] => "periodic":[[]] | refused PeriodicColumn
prove | <counter> | "periodic":[] => "periodic":[[]] | refused PeriodicColumn
check | <counter false> | "periodic":[] => "periodic":[[1],[1,2,3]] | refused PeriodicColumn
prove | <counter false> | "periodic":[] => "periodic":[[1],[1,2,3]] | refused PeriodicColumn

# One row, which is the first, the last and behind itself.
check | <counter> | \1e[[5],[6],[7],[8],[9],[10],[11],[12]] => \1e[[5]] | satisfied
check | <counter> | \1e[[5],[6],[7],[8],[9],[10],[11],[12]] => \1e[[6]] | row 0: constraint 0 is 1\0a<equation 0 of counter>
check | <round>\1e[[1,0]] | row 0: constraint 1 is 12288\0a<equation 1 of round>

# Behind the last row comes the first: 0 - 1 - 1, and 12288 - 2 - 1.
check | <round>\1e[[0,0],[1,1]] | row 1: constraint 1 is 12287\0a<equation 1 of round>
check | <round>\1e[[0,12288],[1,0],[1,1],[0,2]] | row 3: constraint 1 is 12285\0a<equation 1 of round>

# Of several the first row, and in it the first constraint.
check | <round>\1e[[3,0],[2,1]] | row 0: constraint 0 is 6\0a<equation 0 of round>
check | <round>\1e[[0,0],[2,1]] | row 1: constraint 0 is 2\0a<equation 0 of round>

# No proof is made of a trace that breaks a constraint, whatever else would keep one from it.
prove | <counter false> | <check of counter>
prove | <fibonacci false> | <check of fibonacci>
prove | <range false> | <check of range>
prove | <machine false> | <check of machine>
prove | <preprocessed> | \1e[[1] => \1e[[2] | row 0: constraint 0 is 1\0a<equation of preprocessed>
prove | <counter false> | "public_values" => "ood_bits":20,"public_values" | <check of counter>
prove --unchecked | <counter false> | "public_values" => "ood_bits":20,"public_values" | refused GrindExhausted

# What is no trace of the AIR's, and an AIR past a limit.
check | <counter> | "air" => "Air" | bad input
check | <counter> | \1e[[5], => \1e[ | bad input
check | <counter> | \1e[[5], => \1e[[5,5], | bad input
check | <counter> | \1e[[5], => \1e[[12289], | bad input
check | <preprocessed> | [[1],[2],[3],[4]]}, => [[1],[2]]}, | bad input
check | <small>\1e[[],[]] | bad input
check | <small> | bad input
check | <wide>\1e[[]] | bad input
check | <wide>\1e[[]] | 65536 => 65537 | refused AirTooLarge
check | <wide>\1e | 65536 => 65537 | refused AirTooLarge
prove --unchecked | <wide>\1e | 65536 => 65537 | refused AirTooLarge
"#;

// What is shown of each example.
pub(crate) const SHOWN: &str = r#"
show | <example counter> | <lines of example counter>
show | <example fibonacci> | <lines of example fibonacci>
show | <example range> | <lines of example range>
show | <example machine> | <lines of example machine>
show | <counter> | <lines of counter>
show | <fibonacci> | <lines of fibonacci>
show | <range> | <lines of range>
show | <machine> | <lines of machine>

# Brackets where they are needed, and a node that is too long for an operand.
show | <mixed> | <lines of mixed>
show | <squares> | <lines of squares>

show | <small> | <lines of small>

# By FRI: bits at 2^16 rows and at the greatest height, or at the latter alone where it isn't above; and none for a degree above the blow-up
# and one, or for too many openings.
show | <counter> | "public_values" => "log_height":3,"public_values" | columns: 1 main, 1 public, 0 periodic, 0 preprocessed\0aconstraint 0 (base, degree 2): first_row * (main[0] - public[0]) = 0\0aconstraint 1 (base, degree 1): transition * (next[0] - main[0] - 1) = 0\0aquotient chunks: 1\0aerror bound at 2^12 rows: 1 alpha, 8191 zeta\0a<challenges over 12289>\0aproved: 40 bits at 2^12 rows (by count; SHA-256 as a random oracle)\0aconjectured: nothing; in the clear the proof lists its columns\0aconfiguration: f12289, in the clear\0aheight: 2^3 rows, fixed\0awork: 0 bits before alpha, 0 before zeta\0apublic values (1): 5
show | <counter> | {"field":"f12289","scheme":"clear"} => {"field":"f12289"} | <counter to> 2^10 rows: 1 alpha, 2047 zeta\0a<challenges over 12289>\0aproved: 39 bits at 2^10 rows (by count; SHA-256 as a random oracle)\0aconjectured: 39 bits at 2^10 rows (ethSTARK's conjecture of 2021; ePrint 2025/2010 and 2025/2046 speak against it)\0aconfiguration: f12289, fri, log_blowup 2, log_final_poly_len 0, num_queries 120, commit_proof_of_work_bits 0, query_proof_of_work_bits 16\0aheight: the prover's choice\0awork: 0 bits before alpha, 0 before zeta\0apublic values (1): 5
show | <counter> | {"field":"f12289","scheme":"clear"} => {"field":"koala_bear","log_blowup":8} | <counter to> 2^16 rows: 1 alpha, 131071 zeta\0a<challenges over KoalaBear>\0aproved: 95 bits at 2^16 rows (by count; SHA-256 as a random oracle)\0aconjectured: 95 bits at 2^16 rows (ethSTARK's conjecture of 2021; ePrint 2025/2010 and 2025/2046 speak against it)\0aconfiguration: koala_bear, fri, log_blowup 8, log_final_poly_len 0, num_queries 120, commit_proof_of_work_bits 0, query_proof_of_work_bits 16\0aheight: the prover's choice\0awork: 0 bits before alpha, 0 before zeta\0apublic values (1): 5
show | <counter> | {"field":"f12289","scheme":"clear"} => {"field":"koala_bear","log_blowup":7} | <counter to> 2^17 rows: 1 alpha, 262143 zeta\0a<challenges over KoalaBear>\0aproved: 96 bits at 2^16 rows, 95 at 2^17 (by count; SHA-256 as a random oracle)\0aconjectured: 96 bits at 2^16 rows, 95 at 2^17 (ethSTARK's conjecture of 2021; ePrint 2025/2010 and 2025/2046 speak against it)\0aconfiguration: koala_bear, fri, log_blowup 7, log_final_poly_len 0, num_queries 120, commit_proof_of_work_bits 0, query_proof_of_work_bits 16\0aheight: the prover's choice\0awork: 0 bits before alpha, 0 before zeta\0apublic values (1): 5
show | <fourth power> | "config":{} => "config":"fast" | <equation of fourth power>\0aquotient chunks: 4\0aerror bound at 2^26 rows: 0 alpha, 335544319 zeta\0a<challenges by default>\0asecurity: no bits are stated for a constraint's degree above 3\0aconfiguration: baby_bear, fri, log_blowup 1, log_final_poly_len 0, num_queries 85, commit_proof_of_work_bits 0, query_proof_of_work_bits 16\0aheight: the prover's choice\0awork: 0 bits before alpha, 0 before zeta\0apublic values (0):
show | <fourth power> | <equation of fourth power>\0aquotient chunks: 4\0aerror bound at 2^25 rows: 0 alpha, 167772159 zeta\0a<challenges by default>\0aproved: 97 bits at 2^16 rows, 91 at 2^25 (by count; SHA-256 as a random oracle)\0aconjectured: 99 bits at 2^16 rows, 91 at 2^25 (ethSTARK's conjecture of 2021; ePrint 2025/2010 and 2025/2046 speak against it)\0aconfiguration: baby_bear, fri, log_blowup 2, log_final_poly_len 0, num_queries 120, commit_proof_of_work_bits 0, query_proof_of_work_bits 16\0aheight: the prover's choice\0awork: 0 bits before alpha, 0 before zeta\0apublic values (0):
show | <fourth power> | "width":1 => "max_constraint_degree":18446744073709551615,"width":1 | <equation of fourth power>\0aquotient chunks: 18446744073709551616\0aerror bound at 2^25 rows: none\0a<challenges by default>\0asecurity: no bits are stated for 2^64 opened values and more\0aconfiguration: baby_bear, fri, log_blowup 2, log_final_poly_len 0, num_queries 120, commit_proof_of_work_bits 0, query_proof_of_work_bits 16\0aheight: the prover's choice\0awork: 0 bits before alpha, 0 before zeta\0apublic values (0):
"#;

// Inputs that are bad.
pub(crate) const BAD: &str = r#"
# No JSON, no object, no AIR.
verify | {"air"\1e<proof of two rows> | bad input
prove | []\1e[] | bad input
show | \ff | bad input
show | <nothing> | bad input
verify | {"config":<in the clear>,"air":null,"public_values":[]}\1e<proof of two rows> | bad input
prove | <counter> | "air" => "Air" | bad input
show | <counter> | "air" => "other" | bad input

# A statement has no other field: one that is misspelt would ask for no work.
prove | <counter> | "public_values" => "ood_bit":3,"public_values" | bad input
verify | <proved> | "public_values" => "challenger":"sha256","public_values" | bad input
verify | <proved> | "public_values":[5] => "public_values":[5],"proof":null | bad input

# Nor have an AIR, its preprocessed trace and a constraint other members.
show | <counter> | "periodic":[] => "periodic":[],"preprocesed":{} | bad input
show | <counter> | "periodic":[] => "periodic":[],"ood_bits":20 | bad input
show | <preprocessed> | "preprocessed":{ => "preprocessed":{"row":[], | bad input
check | <counter> | {"base":4} => {"base":4,"bas":4} | bad input
check | <counter> | {"base":4} => {"bas":4} | bad input

# A configuration that is none: each fault, and numbers of FRI beside the scheme in the clear.
show | <counter> | {"field":"f12289","scheme":"clear"} => [] | bad input
show | <counter> | {"field":"f12289","scheme":"clear"} => "clear" | bad input
show | <counter> | "f12289" => "F12289" | bad input
show | <counter> | "f12289" => 12289 | bad input
show | <counter> | "scheme":"clear" => "scheme":"open" | bad input
show | <counter> | "scheme":"clear" => "scheme":"clear","num_queries":20 | bad input
show | <counter> | "scheme":"clear" => "queries":20 | bad input
show | <counter> | "scheme":"clear" => "log_blowup":0 | bad input
show | <counter> | "scheme":"clear" => "log_blowup":13 | bad input
show | <counter> | "scheme":"clear" => "num_queries":0 | bad input
show | <counter> | "scheme":"clear" => "num_queries":"20" | bad input
show | <counter> | "scheme":"clear" => "query_proof_of_work_bits":64 | bad input

# Its other faults: no public values, too many, one that isn't canonical, bits that are no number.
prove | <counter> | ,"public_values":[5] =>  | bad input
prove | <counter> | "public_values":[5] => "public_values":[5,5] | bad input
prove | <counter> | "public_values":[5] => "public_values":[] | bad input
verify | <proved> | "public_values":[5] => "public_values":[12294] | bad input
verify | <proved> | "public_values":[5] => "public_values":5 | bad input
verify | <proved> | "public_values" => "alpha_bits":-1,"public_values" | bad input
verify | <proved> | "public_values" => "ood_bits":"1","public_values" | bad input

# Each fault of an AIR.
prove | <counter> | "width":1, =>  | bad input
verify | <proved> | "width":1 => "width":-1 | bad input
show | <machine> | [1,0,0,0,3] => [1,0,0,0] | bad input
verify | <proved> | "constants":[1] => "constants":[12289] | bad input
prove | <counter> | ["main",0] => ["main",1] | bad input
verify | <proved> | ["sub",0,2] => ["sub",0,3] | bad input
show | <counter> | {"base":10} => {"base":11} | bad input

# A trace that the AIR doesn't fit: its width, its height, the height of the preprocessed columns; and none.
prove | <counter> | "width":1 => "width":2 | bad input
prove | <counter> | \1e[[5], => \1e[[5,5], | bad input
prove | <counter> | \1e[[5], => \1e[ | bad input
prove | <counter> | \1e[[5], => \1e[[12289], | bad input
prove | <counter> | \1e[[5], => \1e[5, | bad input
prove | <preprocessed> | [[1],[2],[3],[4]]}, => [[1],[2],[3]]}, | bad input
prove | <preprocessed> | [[1],[2],[3],[4]]}, => [[1],[2]]}, | bad input
verify | <proved> | "preprocessed":null => "preprocessed":{"width":1,"rows":[[1],[2],[3]]} | bad input
prove | <small>\1e[[],[]] | bad input
prove | <small> | bad input

# What is no proof.
verify | {"config":<in the clear>,"air":<air of counter>,"public_values":[5]}\1e | bad input
verify | {"config":<in the clear>,"air":<air of counter>,"public_values":[5]}\1enull | bad input
verify | {"config":<in the clear>,"air":<air of counter>,"public_values":[5]}\1e{"proof":<proof of two rows>} | bad input

# What begins as a proof's bytes do is read as such, and as no JSON: it is cut, or says no more.
verify | {"config":<in the clear>,"air":<air of counter>,"public_values":[5]}\1evoskligan proof 2 | bad input
verify | {"config":<in the clear>,"air":<air of counter>,"public_values":[5]}\1evoskligan proof 2<proof of two rows> | bad input
verify | {"config":<in the clear>,"air":<air of counter>,"public_values":[5]}\1evoskligan proof <proof of two rows> | bad input
verify | <proved> | "degree_bits":1 => "degree_bits":-1 | bad input
verify | <proved> | [6349, => [12289, | bad input
"#;

// AIRs at the limits of what is taken, and past them: nothing else of the statement, the proof or
// the trace is looked at then.
pub(crate) const LARGE: &str = r#"
# Columns.
show | <wide> | columns: 65536 main, 0 public, 0 periodic, 0 preprocessed\0a<of nothing>
show | <wide> | 65536 => 65537 | refused AirTooLarge
show | <wide> | 65536 => 18446744073709551615 | refused AirTooLarge
show | <fixed> | columns: 1 main, 0 public, 0 periodic, 65535 preprocessed\0a<of nothing>
show | <fixed> | 65535 => 65536 | refused AirTooLarge
show | <fixed> | "width":1 => "width":2 | refused AirTooLarge
show | <fixed> | "width":1 => "width":18446744073709551615 | 65535 => 18446744073709551615 | refused AirTooLarge

# Public values.
show | <public> | columns: 0 main, 65536 public, 0 periodic, 0 preprocessed\0aquotient chunks: 1\0aerror bound at 2^12 rows: 0 alpha, 8191 zeta\0a<challenges over 12289>\0aproved: 41 bits at 2^12 rows (by count; SHA-256 as a random oracle)\0aconjectured: nothing; in the clear the proof lists its columns\0aconfiguration: f12289, in the clear\0aheight: the prover's choice\0awork: 0 bits before alpha, 0 before zeta\0apublic values (65536, the first 20): 1 1 1 1 1 1 1 1 1 1 1 1 1 1 1 1 1 1 1 1\0ano constraints: each trace of the AIR's shape satisfies it
show | <public> | 65536 => 65537 | 65535 => 65536 | refused AirTooLarge

# Under the other verbs.
prove | <wide>\1e[[]] | bad input
prove | <wide>\1e[[]] | 65536 => 65537 | refused AirTooLarge
verify | <wide>\1e<proof of two rows> | refused UnexpectedTraceNext
verify | <wide>\1e<proof of two rows> | 65536 => 65537 | refused AirTooLarge

# Beside other faults: of the proof, of the trace, of the preprocessed columns' height; but what spells no statement is bad input.
verify | <wide>\1e | 65536 => 65537 | refused AirTooLarge
prove | <wide>\1e | 65536 => 65537 | refused AirTooLarge
verify | <fixed>\1e<proof of two rows> | bad input
verify | <fixed>\1e<proof of two rows> | 65535 => 65536 | refused AirTooLarge
show | <wide> | 65536,"publics":0 => 65537,"publics":1 | bad input
"#;

// Inputs by which a stranger tries to have much done: they are small as JSON, or in the AIR that
// they spell.
pub(crate) const DEAR: &str = r#"
# As many public values as there are numbers, without one of them.
show | {"config":<in the clear>,"air":{"width":0,"publics":18446744073709551615,"periodic":[],"constants":[],"nodes":[],"constraints":[]},"public_values":[]} | bad input

# A preprocessed column of 4096 values, of which no proof opens a row; and a periodic one, at the height that a proof claims.
verify | {"config":<in the clear>,"air":{"width":1,"publics":0,"periodic":[],"preprocessed":{"width":1,"rows":[\(4095 [1],)[1]]},"constants":[],"nodes":[],"constraints":[]},"public_values":[]}\1e<proof of two rows> | refused PreprocessedTraceWidthMismatch
verify | <proved> | "periodic":[] => "periodic":[[\(4095 1,)1]] | "degree_bits":1 => "degree_bits":12 | refused InvalidOpeningArgument

# A fixed value that a blow-up makes 2^27 of, and one of 2^24, which is within the limit and no text of a proof.
verify | {"config":{"log_blowup":27},"air":{"width":1,"publics":0,"periodic":[],"preprocessed":{"width":1,"rows":[[1]]},"constants":[],"nodes":[],"constraints":[]},"public_values":[]}\1e<proof of two rows> | refused AirTooLarge
verify | {"config":{"log_blowup":24},"air":{"width":1,"publics":0,"periodic":[],"preprocessed":{"width":1,"rows":[[1]]},"constants":[],"nodes":[],"constraints":[]},"public_values":[]}\1e<proof of two rows> | bad input

# As many chunks as the field has places for at 64 rows, and twice as many as it has at one.
prove then verify | {"config":<in the clear>,"air":{"width":1,"publics":0,"periodic":[],"max_constraint_degree":65,"constants":[],"nodes":[],"constraints":[]},"public_values":[]}\1e[\(63 [0],)[0]] | accepted
prove | {"config":<in the clear>,"air":{"width":1,"publics":0,"periodic":[],"max_constraint_degree":4098,"constants":[],"nodes":[],"constraints":[]},"public_values":[]}\1e[[0]] | refused QuotientDomainTooLarge
"#;

// Expressions that are huge once they are written out.
pub(crate) const HUGE: &str = r#"
prove then verify | <doublings>\1e[[0],[0]] | accepted
prove --unchecked then verify | <doublings>\1e[[0],[1]] | refused OodEvaluationMismatch
check | <many doublings>\1e[[0],[0]] | satisfied
prove then verify | <many doublings>\1e[[0],[0]] | accepted
prove then verify | <many sums>\1e[[0],[0]] | accepted
verify | <many doublings>\1e<proof of two rows> | refused UnexpectedTraceNext
prove | <many squares>\1e[[0],[0]] | refused QuotientDomainTooLarge
verify | <many squares>\1e<proof of two rows> | refused QuotientDomainTooLarge
"#;

// One of each verb: its inputs are cut before each byte, each of their reads fails, and each write.
pub(crate) const WHOLE: &str = r#"
verify | <proved> | accepted
show | {"config":<in the clear>,"air":<air of counter>,"public_values":[5]} | <lines of counter>
check | <two rows> | satisfied
"#;

// Runs whose proof goes to an output of its own: what it has, or the writer.
pub(crate) const DELIVERED: &str = r#"
prove | <two rows> | <proof of two rows>
prove --unchecked | <two rows> | <proof of two rows>
prove | <two rows> | [[5],[6]] => [[6],[7]] | row 0: constraint 0 is 2\0a<equation 0 of counter>
prove | <two rows> | [[5],[6]] => [[5],[6],[7]] | bad input
check | <two rows> | satisfied
verify | <proved> | accepted
show | <small> | <lines of small>
"#;

// What is told of the stages of runs, a line each.
pub(crate) const STAGES: &str = r#"
prove | <two rows> | reading the statement\0areading the trace\0aparsing: statement of 330 bytes, trace of 9 bytes\0achecking: rows 2, columns 1\0aproving: rows 2, columns 1\0awriting the proof: 406 bytes
prove --unchecked | <two rows> | reading the statement\0areading the trace\0aparsing: statement of 330 bytes, trace of 9 bytes\0aproving: rows 2, columns 1\0awriting the proof: 406 bytes
prove | <two rows> | [[5],[6]] => [[6],[7]] | reading the statement\0areading the trace\0aparsing: statement of 330 bytes, trace of 9 bytes\0achecking: rows 2, columns 1
prove | {} | reading the statement\0areading the trace\0aparsing: statement of 2 bytes, trace of 0 bytes
check | <two rows> | reading the statement\0areading the trace\0aparsing: statement of 330 bytes, trace of 9 bytes\0achecking: rows 2, columns 1
verify | <proved> | reading the statement\0areading the proof\0averifying: statement of 330 bytes, proof of 405 bytes
show | <small> | reading the statement\0ashowing: statement of 152 bytes
"#;

// Words and what they ask for, or what is wrong with them. A line that is empty or begins with `#`
// is none. Two quotes stand for the empty word.
pub(crate) const WORDS: &str = "
verify statement.json proof.json = verify, file statement.json, file proof.json
verify statement.json - = verify, file statement.json, standard
verify statement.json = verify, file statement.json, standard
verify - proof.json = verify, standard, file proof.json
prove statement.json trace.json = prove, file statement.json, file trace.json
prove statement.json = prove, file statement.json, standard
check statement.json trace.json = check, file statement.json, file trace.json
check statement.json = check, file statement.json, standard
show statement.json = show, file statement.json, nothing
show - = show, standard, nothing
show verify = show, file verify, nothing
--help = help
-h = help
help = help
--version = version

prove --unchecked statement.json trace.json = prove unchecked, file statement.json, file trace.json
prove --binary statement.json trace.json = prove binary, file statement.json, file trace.json
prove --binary --unchecked statement.json = prove unchecked binary, file statement.json, standard
prove --unchecked --binary statement.json = prove unchecked binary, file statement.json, standard
prove --quiet --binary --output out in = prove binary, file in, standard, output out, quiet
prove --unchecked statement.json = prove unchecked, file statement.json, standard
prove --unchecked - trace.json = prove unchecked, standard, file trace.json
verify --quiet statement.json proof.json = verify, file statement.json, file proof.json, quiet
verify --quiet statement.json = verify, file statement.json, standard, quiet
verify --quiet - proof.json = verify, standard, file proof.json, quiet
verify --at-least 100 statement.json proof.json = verify at least 100, file statement.json, file proof.json
verify --quiet --at-least 0 - proof.json = verify at least 0, standard, file proof.json, quiet
verify --at-least 18446744073709551615 --quiet in = verify at least 18446744073709551615, file in, standard, quiet
check --quiet statement.json trace.json = check, file statement.json, file trace.json, quiet
check --quiet statement.json - = check, file statement.json, standard, quiet
prove --quiet statement.json trace.json = prove, file statement.json, file trace.json, quiet
prove --output proof.json statement.json trace.json = prove, file statement.json, file trace.json, output proof.json
prove --output proof.json statement.json = prove, file statement.json, standard, output proof.json
prove --output proof.json - trace.json = prove, standard, file trace.json, output proof.json

# In any order.
prove --unchecked --quiet --output out in = prove unchecked, file in, standard, output out, quiet
prove --unchecked --output out --quiet in = prove unchecked, file in, standard, output out, quiet
prove --quiet --unchecked --output out in = prove unchecked, file in, standard, output out, quiet
prove --quiet --output out --unchecked in = prove unchecked, file in, standard, output out, quiet
prove --output out --unchecked --quiet in = prove unchecked, file in, standard, output out, quiet
prove --output out --quiet --unchecked in = prove unchecked, file in, standard, output out, quiet

# Paths that are like options.
prove --output -out -in -trace = prove, file -in, file -trace, output -out
prove --output ./--out ./--in ./--trace = prove, file ./--in, file ./--trace, output ./--out
prove --output quiet output unchecked = prove, file output, file unchecked, output quiet

# Options that are given twice.
verify --quiet --quiet statement.json = --quiet is there twice
check --quiet --quiet statement.json = --quiet is there twice
prove --quiet --quiet statement.json = --quiet is there twice
prove --quiet --unchecked --quiet statement.json = --quiet is there twice
prove --unchecked --unchecked statement.json = --unchecked is there twice
prove --binary --binary statement.json = --binary is there twice
prove --binary --unchecked --binary statement.json = --binary is there twice
verify --binary statement.json proof.json = verify takes no --binary
check --binary statement.json trace.json = check takes no --binary
show --binary statement.json = show takes no --binary
prove --unchecked --quiet --unchecked statement.json = --unchecked is there twice
prove --output out --output out statement.json = --output is there twice
prove --output out --quiet --output another statement.json = --output is there twice

# Options of another verb.
verify --unchecked statement.json proof.json = verify takes no --unchecked
verify --output out statement.json proof.json = verify takes no --output
check --unchecked statement.json trace.json = check takes no --unchecked
check --output out statement.json trace.json = check takes no --output
check --unchecked statement.json = check takes no --unchecked
show --quiet statement.json = show takes no --quiet
show --unchecked statement.json = show takes no --unchecked
show --output out statement.json = show takes no --output

# Options of none.
prove --uncheck statement.json trace.json = unknown option --uncheck
prove --quie statement.json = unknown option --quie
prove --quietly statement.json = unknown option --quietly
prove --Quiet statement.json = unknown option --Quiet
prove --output=out statement.json = unknown option --output=out
prove -- statement.json = unknown option --
prove --force statement.json = unknown option --force
verify --help = unknown option --help
show --help = unknown option --help
show --statement.json = unknown option --statement.json
verify --statement.json proof.json = unknown option --statement.json
verify statement.json --proof.json = unknown option --proof.json

# Options behind an input, or before the verb.
prove statement.json --unchecked = --unchecked stands after an input
prove statement.json --quiet = --quiet stands after an input
prove statement.json --output = --output stands after an input
prove statement.json trace.json --quiet = --quiet stands after an input
prove statement.json --output out = --output stands after an input
prove - --quiet = --quiet stands after an input
prove --unchecked statement.json --quiet = --quiet stands after an input
verify statement.json --quiet = --quiet stands after an input
check statement.json --quiet = --quiet stands after an input
--quiet = unknown verb --quiet
--quiet verify statement.json = unknown verb --quiet
--unchecked prove statement.json = unknown verb --unchecked

# No path for the proof.
prove --output = no path stands after --output
prove --output out = prove wants a statement
prove --output - statement.json = no path stands after --output
prove --output -- statement.json = no path stands after --output
verify --at-least = no number of bits stands after --at-least
verify --at-least statement.json = no number of bits stands after --at-least
verify --at-least -1 statement.json = no number of bits stands after --at-least
verify --at-least 18446744073709551616 statement.json = no number of bits stands after --at-least
verify --at-least 100 --at-least 100 statement.json = --at-least is there twice
prove --at-least 100 statement.json = prove takes no --at-least
check --at-least x statement.json = check takes no --at-least
show --at-least = show takes no --at-least
verify --at-least 100 = verify wants a statement
verify --at-least 100 - = both inputs would be standard input
verify statement.json --at-least 100 = --at-least stands after an input
prove --output --quiet statement.json trace.json = no path stands after --output
prove --output --quiet out statement.json = no path stands after --output
prove --quiet --output = no path stands after --output

# No inputs, too many, or standard input twice.
verify = verify wants a statement
verify - = both inputs would be standard input
verify - - = both inputs would be standard input
verify --quiet = verify wants a statement
verify --quiet - = both inputs would be standard input
verify --quiet - - = both inputs would be standard input
verify statement.json proof.json more = one word more than wanted: more
verify --quiet statement.json proof.json more = one word more than wanted: more
prove = prove wants a statement
prove - = both inputs would be standard input
prove - - = both inputs would be standard input
prove --unchecked = prove wants a statement
prove --unchecked - = both inputs would be standard input
prove --unchecked - - = both inputs would be standard input
prove --unchecked statement.json trace.json more = one word more than wanted: more
prove --output out - = both inputs would be standard input
prove --output out - - = both inputs would be standard input
prove --output out statement.json trace.json more = one word more than wanted: more
check = check wants a statement
check - - = both inputs would be standard input
check --quiet = check wants a statement
check statement.json trace.json more = one word more than wanted: more
show = show wants a statement
show statement.json proof.json = one word more than wanted: proof.json

# Other verbs.
Check statement.json = unknown verb Check
Verify statement.json proof.json = unknown verb Verify
verif statement.json = unknown verb verif
--help --help = unknown verb --help
--version --quiet = unknown verb --version
-help = unknown verb -help
'' = the first word is empty
'' statement.json = the first word is empty
";
