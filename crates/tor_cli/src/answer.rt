//! What the program answers if no fault stops it.
ghost use Rattle.std.specs.Prelude.{◌≡◌, ◌≤◌};
ghost use Rattle.tor_cli.specs.steps.Ending.{status_of_answer};

/// What came of a request.
#[derive(Clone, Copy)]
pub enum Answer {
    /// It was done, and if it asks something the answer is yes.
    Yes,
    /// It asks something, and the answer is no.
    No,
}

impl Answer {
    /// The status that the program ends with.
    pub fn status(self) -> u8
        ensures value { result ≡ status_of_answer self }
        ensures within { result ≤ 4 }
    {
        match self {
            Answer::Yes => 0,
            Answer::No => 1,
        }
    }
}
