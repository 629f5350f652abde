//! Tests of texts: canonical JSON, the small forms that many objects share, and signed texts under the test rings.
//! There is nothing here but tests.
#![tactic(auto)]

#[cfg(test)]
mod tests;
