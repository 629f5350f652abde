//! A call that a desk in memory keeps.

use crate::outcome::Outcome;
use crate::request::Request;
use ebl_base::Moment;

/// A call of a desk: what it was asked at which moment, and what came of it.
#[derive(Drop)]
pub struct KeptCall {
    pub now: Moment,
    pub request: Request,
    pub outcome: Outcome,
}
