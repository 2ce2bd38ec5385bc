//! Runs of `stark_run` that are cut off, and runs whose streams fail.

// One of each command: its input is cut before each byte, each of its reads fails, and each of its
// writes.
pub(crate) const WHOLE: &str = r#"
check counter | <check of counter> | accepted
verify counter | <counter> | accepted
prove counter | <trace of counter> | <proof of counter>
"#;

// Words that name no command, a line each; the first line has none. They are compared whole. Two
// quotes stand for the empty word.
pub(crate) const WORDS: &str = "
check
check counter counter
check count
check counters
chec counter
checks counter
Check counter
counter check
'' ''
";
