//! The gate that jobs go through before their work.

/// What a job enters before its work. It promises nothing, and a test sees by it which jobs run side by
/// side.
pub trait Gate {
    /// Job number `job` enters.
    fn enter(&self, job: u32);
}

/// A gate that does nothing.
pub struct NoGate;

impl Gate for NoGate {
    fn enter(&self, _job: u32) {}
}
