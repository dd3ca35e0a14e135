//! Inputs that a search has asked.

/// Inputs, and the answer to them.
#[derive(Clone, Copy)]
pub struct AnsweredInputs<A> {
    /// A bit for each signal of the interface that is offered.
    pub inputs: u64,
    /// A bit for each signal that was asked, offered or not. The answer is that to all inputs that
    /// are the same where it is asked.
    pub asked: u64,
    /// What comes of it.
    pub answer: A,
}
