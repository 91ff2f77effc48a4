//! Standard streams that a program was started without.
ghost use Rattle.std.specs.Prelude.{IfErr};
ghost use Rattle.byte_streams.specs.Faults.{IsRefusalOf};

use crate::program_fault::ProgramFault;
use crate::resource::Resource;
use std::os::fd::AsFd;

/// The system's number of the error that a descriptor isn't open.
const NOT_OPEN: i32 = 9;

/// Refuses a stream whose descriptor is closed, since a socket would take its number. A duplicate of the descriptor shows whether it is
/// open, without a read or a write, which might wait. A limit on duplicates is no refusal.
pub fn require_open<S: AsFd>(stream: &S, resource: Resource) -> Result<(), ProgramFault>
    ensures { IfErr result (IsRefusalOf resource) }
{
    match stream.as_fd().try_clone_to_owned() {
        Err(error) if error.raw_os_error() == Some(NOT_OPEN) => {
            Err(ProgramFault::Refused(resource, error))
        }
        _ => Ok(()),
    }
}
