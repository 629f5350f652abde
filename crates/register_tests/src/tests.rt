//! What the tests share, and the tests.
mod making;
mod rows;
