// The status that a program ends with.
ghost use Rattle.std.specs.Prelude.{◌≡◌};
ghost use Rattle.output.specs.Status.{rank};

use std::fs::OpenOptions;
use std::io::Write;
use std::rt::Files;
use std::{fs, io};

// Where a program says its status: descriptor 3, which is one digit as it ends. Nobody need read it.
const STATUS_FILE: &str = "/dev/fd/3";

// All was answered and accepted; something was refused; there was a complaint.
#[derive(Clone, Copy, PartialEq, Eq)]
pub enum Status {
    Accepted,
    Refused,
    Complaint,
}

impl Status {
    // The number that a program says.
    pub fn number(self) -> u8
        ensures { result ≡ rank self }
    {
        self as u8
    }
}

// Where the descriptor is not open for writing, nobody reads the status. Else it is opened once more by its name, and written behind what
// is there.
pub fn write_status(rt: &impl Files, status: Status) -> io::Result<()> {
    if fs::symlink_metadata(rt, STATUS_FILE)?
        .permissions()
        .readonly()
    {
        return Ok(());
    }
    let mut file = OpenOptions::new().append(true).open(rt, STATUS_FILE)?;
    let digit = status.number();
    write!(file, "{digit}")
}
