// What a queue adds to the fault of its storage: its name and the call.
ghost use Rattle.std.specs.Prelude.{◌≡◌, Some};
ghost use Rattle.queue.specs.Faults.{spelled};

use std::fmt;

// The calls of a queue that reach the storage.
#[derive(Clone, Copy, PartialEq, Eq, Debug)]
pub enum QueueCall {
    Open,
    Format,
}

impl QueueCall {
    // The one place that spells the names; Display rests on it.
    pub fn text(self) -> &'static str
        ensures { result.now ≡ spelled self }
    {
        match self {
            QueueCall::Open => "open",
            QueueCall::Format => "format",
        }
    }
}

impl fmt::Display for QueueCall {
    ghost output = { λ c. Some (spelled c) };

    fn fmt<W: fmt::Write>(&self, f: &mut fmt::Formatter<W>) -> fmt::Result {
        f.write_str(self.text())
    }
}

// The call that a storage's fault ended, and that fault, whole. A layer's fault has a link with
// an offset in the place of the call.
#[derive(Debug, Drop)]
pub struct QueueFault<G> {
    pub call: QueueCall,
    pub below: G,
}
