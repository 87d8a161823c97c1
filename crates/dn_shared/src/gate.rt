// What a thread does between its turns.

/// What each thread calls after it gave its turn back. It tells nothing; a test may hold a thread there.
pub trait Gate {
    /// An actor has made so many events, whatever they answered.
    fn between(&self, who: u32, event: u32);
}

/// The gate that returns at once.
#[derive(Clone, Copy, Debug, Drop)]
pub struct Open;

impl Gate for Open {
    fn between(&self, who: u32, event: u32) {
        let _ = (who, event);
    }
}
