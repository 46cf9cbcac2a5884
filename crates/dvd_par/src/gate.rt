//! What is asked before each piece of a pass: a test sees by it that pieces are done at once.

/// It is asked once at the start of each piece, in each pass, by the worker that does the piece. It can let a worker
/// wait, and changes nothing that the work reads. No contract can say that two threads ran, so a test has to see it:
/// its gate lets two pieces wait for each other. That gate, in dvd_trial, is for runs of whole commands: so the trait
/// is public, and commands hand a gate on. It is `Sync`, since several threads ask one gate.
pub trait Gate: Sync {
    /// Piece `piece` of a pass begins: rows or columns that one worker does, numbered from 0 on in each pass, at most
    /// as many pieces as workers. All of a pass are done at the same time only where a thread could be made for each
    /// but the last, so a gate may not wait for another piece without an end: that of dvd_trial looks a number of times
    /// and gives up. It has no clause: all that it can do is let its caller wait.
    fn pass(&self, piece: usize);
}

/// A gate where nobody waits: the one that programs have.
#[derive(Clone, Copy, Debug, Drop)]
pub struct OpenGate;

impl Gate for OpenGate {
    fn pass(&self, _piece: usize) {}
}
