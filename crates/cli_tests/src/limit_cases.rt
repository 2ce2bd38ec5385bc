//! AIRs against limits.

pub(crate) const LIMITS: &str = r#"
# COLUMNS PUBLIC_VALUES CELLS CONSTANTS NODES CONSTRAINTS | STATEMENT | `within`, or why not

# Each limit met.
7 2 80 1 42 7 | <machine> | within
3 0 16 1 24 5 | <range> | within
0 0 0 0 0 0 | <small> | within

# Each passed by one.
6 2 80 1 42 7 | <machine> | it has 2 main and 5 preprocessed columns, more than 6
2 0 16 1 24 5 | <range> | it has 3 main and 0 preprocessed columns, more than 2
7 1 80 1 42 7 | <machine> | it has 2 public values, more than 1
7 2 79 1 42 7 | <machine> | its periodic and preprocessed columns have more than 79 values
3 0 15 1 24 5 | <range> | its periodic and preprocessed columns have more than 15 values
7 2 80 0 42 7 | <machine> | it has 1 constants, more than 0
7 2 80 1 41 7 | <machine> | it has 42 nodes, more than 41
7 2 80 1 42 6 | <machine> | it has 7 constraints, more than 6

# Passed by more: by the main columns alone, by the first periodic column alone.
1 2 80 1 42 7 | <machine> | it has 2 main and 5 preprocessed columns, more than 1
3 0 7 1 24 5 | <range> | its periodic and preprocessed columns have more than 7 values

# Of several the first.
0 0 0 0 0 0 | <machine> | it has 2 main and 5 preprocessed columns, more than 0
7 0 0 0 0 0 | <machine> | it has 2 public values, more than 0
7 2 0 0 0 0 | <machine> | its periodic and preprocessed columns have more than 0 values
7 2 80 0 0 0 | <machine> | it has 1 constants, more than 0
7 2 80 1 0 0 | <machine> | it has 42 nodes, more than 0

# The numbers of a text are the greatest that there are.
18446744073709551615 0 0 0 0 0 | {"air":{"width":18446744073709551615,"publics":0,"periodic":[],"constants":[],"nodes":[],"constraints":[]},"public_values":[]} | within
18446744073709551615 0 0 0 0 0 | {"air":{"width":18446744073709551615,"publics":0,"periodic":[],"preprocessed":{"width":1,"rows":[]},"constants":[],"nodes":[],"constraints":[]},"public_values":[]} | it has 18446744073709551615 main and 1 preprocessed columns, more than 18446744073709551615
"#;
