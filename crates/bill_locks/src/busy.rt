//! The answer to a turn that another pass has.
/// The turn is out with another pass. The job comes back.
#[derive(Debug, Drop)]
pub struct Busy<J> {
    pub job: J,
}
