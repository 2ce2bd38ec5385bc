//! What is said on standard error of inputs of `voskligan`.

// COMMANDS | INPUT | FROM => TO | .. | REASON, as `table.rt` says. Lines and columns of a text
// count from 1, rows and columns of a trace from 0.
pub(crate) const REASONS: &str = r#"
# Traces that are no JSON.
check | <two rows> | [[5],[6]] => [[5],[6],] | the trace: line 1, column 10: expected a value
check | <two rows> | [[5],[6]] => [[5] [6]] | the trace: line 1, column 6: expected a comma or a closing bracket
check | <two rows> | [[5],[6]] => [[5],[6] | the trace: line 1, column 9: expected a comma or a closing bracket, and the text ends
check | <two rows> | [[5],[6]] => [[5],\0a [06]] | the trace: line 2, column 4: expected a comma or a closing bracket
check | <two rows> | [[5],[6]] => [[5],[\ff]] | the trace: line 1, column 7: expected UTF-8
check | <two rows> | [[5],[6]] => [[1e400],[6]] | the trace: line 1, column 3: expected a number that isn't too large
check | <two rows> | [[5],[6]] =>  | the trace: line 1, column 1: expected a value, and the text ends
prove | <two rows> | [[5],[6]] => [[5],[6]]] | the trace: line 1, column 10: expected the end of the text
prove --unchecked | <two rows> | [[5],[6]] => 5, | the trace: line 1, column 2: expected the end of the text

# Traces with a value that is no element of the field.
check | <two rows> | [[5],[6]] => [[5],[6.5]] | the trace: row 1, column 0: 6.5 is no whole number below 12289
check | <two rows> | [[5],[6]] => [[-1],[6]] | the trace: row 0, column 0: -1 is no whole number below 12289
check | <two rows> | [[5],[6]] => [[5],[12289]] | the trace: row 1, column 0: 12289 is no whole number below 12289
check | <two rows> | [[5],[6]] => [[5,6,"7"],[6]] | the trace: row 0, column 2: "7" is no whole number below 12289
check | <two rows> | [[5],[6]] => [[5],[{"a":[1]}]] | the trace: row 1, column 0: {"a":[1]} is no whole number below 12289
check | <two rows> | [[5],[6]] => [[5],[null]] | the trace: row 1, column 0: null is no whole number below 12289
check | <two rows> | [[5],[6]] => [[5],["\(39 x)"]] | the trace: row 1, column 0: "\(39 x).. is no whole number below 12289
check | <two rows> | [[5],[6]] => [[5],["\(38 x)"]] | the trace: row 1, column 0: "\(38 x)" is no whole number below 12289
check | <two rows> | [[5],[6]] => [[5],["\(14 €)"]] | the trace: row 1, column 0: "\(13 €).. is no whole number below 12289
check | <two rows> | [[5],[6]] => [[5],["x\(14 €)"]] | the trace: row 1, column 0: "x\(12 €).. is no whole number below 12289
check | <example counter> | \1e[[5],[6],[7],[8],[9],[10],[11],[12]] => \1e[[5],[2013265921]] | the trace: row 1, column 0: 2013265921 is no whole number below 2013265921

# Traces that are no rows, and rows of different lengths.
check | <two rows> | [[5],[6]] => {"rows":[[5],[6]]} | the trace is no array of rows
check | <two rows> | [[5],[6]] => 5 | the trace is no array of rows
check | <two rows> | [[5],[6]] => [[5],6] | the trace: row 1 is no array
check | <two rows> | [[5],[6]] => [5,6] | the trace: row 0 is no array
check | <two rows> | [[5],[6]] => [[5],[6,7]] | the trace: row 1 has 2 columns, row 0 has 1
check | <two rows> | [[5],[6]] => [[5,6],[6,7],[]] | the trace: row 2 has 0 columns, row 0 has 2

# Rows that are no trace of the AIR's.
check | <two rows> | [[5],[6]] => [[5],[6],[7]] | the trace has 3 rows, which is no power of two
check | <two rows> | [[5],[6]] => [] | the trace has 0 rows, which is no power of two
check | <two rows> | [[5],[6]] => [[5,6],[6,7]] | the rows have 2 columns, and the AIR 1
check | <two rows> | [[5],[6]] => [[],[]] | the rows have 0 columns, and the AIR 1
check | <two rows> | [[5],[6]] => [\(8191 [5],)[5]] | the trace has 8192 rows, more than 2^12
check | <preprocessed> | \1e[[1],[2],[3],[4]] => \1e[[1],[2]] | the trace has 2 rows, and the preprocessed columns 2^2
check | <two rows> | "public_values" => "log_height":0,"public_values" | the trace has 2 rows, and the statement's log_height asks for 2^0

# Statements and proofs that are no JSON.
show | {"air": | the statement: line 1, column 8: expected a value, and the text ends
show | {"air":{},} | the statement: line 1, column 11: expected a name in quotation marks
show | {"air" {}} | the statement: line 1, column 8: expected a colon
show | {"air":{},"air":{}} | the statement: line 1, column 17: the name "air" stands twice in an object
show | {'air':{}} | the statement: line 1, column 2: expected a name in quotation marks or a closing brace
verify | <two rows> | \1e[[5],[6]] => \1e{"degree_bits":1 | the proof: line 1, column 17: expected a comma or a closing brace, and the text ends
verify | <two rows> | the proof is no object

# Proofs that are refused.
verify | <proved> | "degree_bits":1 => "degree_bits":13 | the proof is refused: a trace of 2^13 rows, more than 2^12
verify | <proved> | "public_values" => "log_height":2,"public_values" | the proof is refused: a trace of 2^1 rows, and the statement's log_height asks for 2^2
verify | <proved> | "trace_next":[[ => "trace_nxt":[[ | the proof is refused: the next row is missing or has the wrong width
verify | <proved> | "public_values":[5] => "public_values":[6] | the proof is refused: invalid opening argument: round 0: a claimed value isn't the column's (a proof made for another statement ends so too)
"#;
