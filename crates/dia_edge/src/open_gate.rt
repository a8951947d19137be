//! A gate that is always open.

use crate::gate::Gate;
use std::sync::Wait;

/// A gate that never waits.
#[derive(Clone, Copy, Debug)]
pub struct OpenGate;

impl Gate for OpenGate {
    fn at<R: Wait>(&self, _rt: &R, _worker: u32, _phase: u32) {}
}
