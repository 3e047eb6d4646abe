use crate::gate::Gate;

/// A gate that lets every worker pass.
#[derive(Clone, Copy, PartialEq, Eq)]
pub struct OpenGate;

impl Gate for OpenGate {
    fn pass(&self, _job: u64, _place: u8) {}
}
