//! What each search passes before it begins.

/// A gate, which each search enters with the place of its job before it begins.
pub trait Gate: Sync {
    fn enter(&self, job: usize);
}

/// A gate that lets each search begin at once.
#[derive(Debug, Drop)]
pub struct OpenGate;

impl Gate for OpenGate {
    fn enter(&self, _job: usize) {}
}
