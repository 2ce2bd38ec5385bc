//! Worked cases of statements, and of FRI's parameters as reports on security take them.
#![tactic(auto)]

#[cfg(test)]
mod fri_security;
#[cfg(test)]
mod statements;
