//! Tests of the encoder.
#![tactic(auto)]

#[cfg(test)]
mod tests;
