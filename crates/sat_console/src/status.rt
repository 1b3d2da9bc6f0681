ghost use Rattle.std.specs.Prelude.{◌≡◌};

/// How a run ends.
#[derive(Clone, Copy, Debug, PartialEq, Eq)]
pub enum Status {
    /// The command ran to its end.
    Ok = 0,
    /// The words are outside the grammar.
    Usage = 2,
    /// The keeper of the store failed.
    StoreFault = 3,
    /// A row of the store is no record, or its tables break a rule.
    BadStore = 4,
    /// The console could not be written.
    SinkFault = 5,
    /// A worker met a full term, or a lane had as many sessions as it may have.
    TermFull = 6,
    /// A wait for a connection failed.
    LaneFault = 7,
    /// The command refused what it was given.
    Refused = 8,
    /// Memory runs out.
    NoMemory = 9,
    /// Random words ran out.
    WordsFault = 10,
    /// The console could not be read.
    InputFault = 11,
    /// The input has more than 1048576 bytes.
    InputLong = 12,
}

impl Status {
    ghost use Rattle.sat_console.specs.Run.{code_of, fault_line};

    /// The status that the process ends with.
    pub fn code(self) -> u8
        ensures { result ≡ code_of self }
    {
        self as u8
    }

    /// What the console says of it, with its LF; nothing where the run ended well or can't be told, or where
    /// the command has a line of its own.
    pub fn line(self) -> &'static [u8]
        ensures { result.now ≡ fault_line (code_of self) }
    {
        match self {
            Status::Ok | Status::BadStore | Status::SinkFault | Status::Refused => b"",
            Status::Usage => b"error: usage\n",
            Status::StoreFault => b"error: store\n",
            Status::TermFull => b"error: term-full\n",
            Status::LaneFault => b"error: lane\n",
            Status::WordsFault => b"error: words\n",
            Status::NoMemory => b"error: memory\n",
            Status::InputFault => b"error: input\n",
            Status::InputLong => b"error: input-long\n",
        }
    }
}
