// How a run ended.
ghost use Rattle.std.specs.Prelude.{◌≡◌};
ghost use Rattle.top_reply.specs.Status.{code_of};

/// How a run of the program ended.
#[derive(Clone, Copy, Debug, PartialEq, Eq)]
pub enum Status {
    /// The command is done and its report is out.
    Done,
    /// The command was refused, by a cause that the report names.
    Refused,
    /// The words are no command.
    Usage,
    /// A file outside could not be read.
    InputFault,
    /// The database's folder could not be read or written.
    StoreFault,
    /// The report could not be written.
    OutputFault,
    /// Memory was refused.
    NoMemory,
    /// The command found something amiss, which the report names.
    Found,
}

impl Status {
    /// The program's exit status, 0 to 7.
    pub fn code(&self) -> u8
        ensures { result ≡ code_of self.now }
    {
        match *self {
            Status::Done => 0,
            Status::Refused => 1,
            Status::Usage => 2,
            Status::InputFault => 3,
            Status::StoreFault => 4,
            Status::OutputFault => 5,
            Status::NoMemory => 6,
            Status::Found => 7,
        }
    }
}
