// Hooks around the calls of workers.
use std::sync::Wait;

/// The caller of a hook.
#[derive(Clone, Copy, PartialEq, Eq, Debug)]
pub enum Worker {
    /// The actor with this number, from 1 on.
    Acts(u8),
    /// The line with this number, from 0 on.
    Raises(u8),
}

/// Hooks that a crew calls around each call of a worker, with no lock held, to delay or observe the
/// worker. A worker's calls are numbered from 0. The calls of actor 0 have no hooks.
pub trait Gate {
    /// Called before each call of a worker.
    fn enter<R: Wait>(&self, rt: &R, who: Worker, call: u64);

    /// Called after each call of a worker.
    fn leave<R: Wait>(&self, rt: &R, who: Worker, call: u64);
}

/// A gate that does nothing.
#[derive(Clone, Copy, Debug)]
pub struct OpenGate;

impl Gate for OpenGate {
    fn enter<R: Wait>(&self, _: &R, _: Worker, _: u64) {}

    fn leave<R: Wait>(&self, _: &R, _: Worker, _: u64) {}
}
