//! What a client's worker passes before each of its steps: the client and the step go in.

/// Holds the workers of clients between their steps. Whoever runs clients at once can have them
/// meet by it; it promises nothing, and what a run comes to does not rest on it.
pub trait Gate {
    /// Returns once the client of this number may do its step of this number. Both are counted from
    /// 0. The worker of a client calls it before each of the client's steps, in their order.
    fn pass(&self, client: u32, step: u32);
}

/// The gate that lets every client pass at once.
#[derive(Clone, Copy, Debug)]
pub struct FreeGate;

impl Gate for FreeGate {
    fn pass(&self, _client: u32, _step: u32) {}
}
