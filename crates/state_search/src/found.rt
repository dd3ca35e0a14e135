//! What a search has found.

/// A state that a search has reached.
#[derive(Clone, Copy)]
pub struct Node<S> {
    /// The state.
    pub state: S,
    /// The row that led here first. The first state has none.
    pub by: usize,
    /// How many steps that took.
    pub depth: usize,
}

/// A step between two states that a search has reached.
#[derive(Clone, Copy)]
pub struct Row<L> {
    /// The place of the state before it.
    pub from: usize,
    /// What is to be seen of it.
    pub label: L,
    /// The place of the state after it, if there is one.
    pub next: Option<usize>,
}

/// The states that a search has reached, in the order found, and the steps between them.
#[derive(Drop)]
pub struct Found<S: Copy + Drop, L: Copy + Drop> {
    /// The states.
    pub nodes: Vec<Node<S>>,
    /// Their steps, in the order of the states before them.
    pub rows: Vec<Row<L>>,
    /// How many of the states have all their steps here.
    pub done: usize,
}
