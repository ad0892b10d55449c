//! What is called round each job.

/// Is told of each job: the position of this number in the list of the root's next positions is
/// asked about at some depth.
///
/// A gate may wait, and so bring about an order of the workers' steps. It changes no answer.
pub trait Gate: Sync {
    /// A worker is about to ask about the job.
    fn enter(&self, job: u32);

    /// It has asked.
    fn leave(&self, job: u32);
}

/// The gate that does nothing.
#[derive(Clone, Copy, Debug)]
pub struct NoGate;

impl Gate for NoGate {
    fn enter(&self, _job: u32) {}

    fn leave(&self, _job: u32) {}
}
