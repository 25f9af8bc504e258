//! How a run ends.
ghost use Rattle.std.specs.Prelude.{◌≡◌};
ghost use Rattle.run_base.specs.Exits.{exit_number};
ghost use Rattle.run_base.specs.Faults.{IsCarriedOut};
ghost use Rattle.run_base.specs.Report.{found};

/// What a run answers.
#[derive(Clone, Copy, Debug, PartialEq, Eq)]
pub enum Status {
    /// The request was carried out, no snapshot was refused, and no error was found.
    Clean,
    /// The request was carried out, and a snapshot was refused or an error was found.
    Found,
    /// The words give no request.
    Usage,
    /// A file couldn't be read.
    ReadFault,
    /// The output or the error stream couldn't be written.
    WriteFault,
    /// No memory was found.
    Memory,
    /// The timetable, the zone, the list or the JSON file was refused.
    Refused,
}

impl Status {
    /// The answer of a request that was carried out, by whether an error was found.
    pub fn found(error: bool) -> Status
        ensures answer { result ≡ found error }
        ensures carried_out { IsCarriedOut result }
    {
        if error { Status::Found } else { Status::Clean }
    }

    /// The exit status of the program.
    pub fn number(self) -> u8
        ensures { result ≡ exit_number self }
    {
        match self {
            Status::Clean => 0,
            Status::Found => 1,
            Status::Usage => 2,
            Status::ReadFault => 3,
            Status::WriteFault => 4,
            Status::Memory => 5,
            Status::Refused => 6,
        }
    }
}
