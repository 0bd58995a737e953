//! From the name of a file to its bytes.

ghost use Rattle.std.specs.Prelude.{◌<◌, ◌^◌};
ghost use Rattle.probe_io.specs.Devices.{shelf_at};
ghost use Rattle.command_base.specs.Stages.{file, JudgesAs};

use crate::endings::{Stop, Which};
use probe_io::{Name, ReadAllFault, Shelf, read_all};
use std::alloc::Global;

/// The bytes of the file of this kind and name, which is refused for `too_long` where it has over `limit` bytes.
pub fn read_file<H: Shelf, R: Drop>(
    alloc: Global,
    shelf: &mut H,
    which: Which,
    name: &Name,
    limit: usize,
    too_long: R,
) -> Result<Vec<u8>, Stop<R>>
    requires { limit < 2 ^ 32 }
    ensures { JudgesAs (λ v. v.items) (file which name.now limit too_long) (shelf_at H.Shelf shelf.old) (shelf_at H.Shelf shelf.new) result }
{
    match read_all(alloc, shelf, name.as_str(), limit) {
        Ok(bytes) => Ok(bytes),
        Err(ReadAllFault::StartFailed) => Err(Stop::OpenFault(which)),
        Err(ReadAllFault::ReadFailed) => Err(Stop::ReadFault(which)),
        Err(ReadAllFault::TooLong) => Err(Stop::Refused(too_long)),
        Err(ReadAllFault::NoMemory) => Err(Stop::NoMemory),
    }
}
