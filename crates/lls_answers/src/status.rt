// How a run ends.
ghost use Rattle.std.specs.Prelude.{◌≡◌};
ghost use Rattle.lls_answers.specs.Status.{code_of};

/// How a run ends, with the exit status that stands for it.
#[derive(Clone, Copy, Debug, PartialEq, Eq)]
pub enum Status {
    /// 0: the answer, and the yes of a check.
    Done,
    /// 1: the proof isn't accepted, or the history isn't a solution.
    Refused,
    /// 2: the words are no command line.
    Words,
    /// 3: an input isn't in its grammar.
    Content,
    /// 4: an input or the output failed.
    Outside,
    /// 5: an allocation was refused.
    Memory,
    /// 6: an input passes a limit.
    Limit,
    /// 10: a pattern was found.
    Pattern,
    /// 20: there is no pattern.
    NoPattern,
    /// 30: the budget is spent.
    Undecided,
}

impl Status {
    /// The exit status.
    pub fn code(self) -> u8
        ensures { result ≡ code_of self }
    {
        match self {
            Status::Done => 0,
            Status::Refused => 1,
            Status::Words => 2,
            Status::Content => 3,
            Status::Outside => 4,
            Status::Memory => 5,
            Status::Limit => 6,
            Status::Pattern => 10,
            Status::NoPattern => 20,
            Status::Undecided => 30,
        }
    }
}
