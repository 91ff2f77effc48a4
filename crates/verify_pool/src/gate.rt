//! What is called before and after each check of a part of a frame.

/// Called before and after each check of a part of a frame, in the thread that checks it. A part is named by its place in the list.
pub trait Gate {
    /// A check of this part is about to start.
    fn before(&self, part: usize);

    /// The check of this part has ended with this answer.
    fn after(&self, part: usize, answer: bool);
}

/// A gate that does nothing.
#[derive(Drop)]
pub struct NoGate;

impl Gate for NoGate {
    fn before(&self, _part: usize) {}

    fn after(&self, _part: usize, _answer: bool) {}
}
