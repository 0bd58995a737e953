// Whole files from a shelf.
ghost use Rattle.std.specs.Prelude.{◌≡◌, ◌≢◌, ◌<◌, ◌≤◌, ◌⊎◌, true, None, length, IfOk, IfSome, OnOk, IsErrOf, ⊤};
ghost use Rattle.probe_io.specs.Causes.{Rose};
ghost use Rattle.probe_io.specs.Files.{IsFile, Lacks, IsFileOver, HoldsOver, left_at};

use crate::outside::Shelf;
use std::alloc::Global;
use thiserror::Error;

/// Why a file was not read whole.
#[derive(Clone, Copy, Debug, PartialEq, Eq, Error)]
pub enum ReadAllFault {
    #[error("the file could not be opened")]
    StartFailed,
    #[error("the file could not be read")]
    ReadFailed,
    #[error("the file is too long")]
    TooLong,
    #[error("out of memory")]
    NoMemory,
}

// How many bytes one read asks for.
const CHUNK: usize = 8192;

/// Reads the whole file of this name, of at most `limit` bytes. Nothing is started afterwards.
///
/// `StartFailed` comes only where starting the file raised `start_faults`, or where the shelf tells
/// its files and has none of this name; there it always comes, and raises no count. `ReadFailed`
/// comes only where a read raised `read_faults`. Neither count falls, and of a strict shelf no other
/// answer raises either. Where the shelf tells its files, a file of over `limit` bytes is never given,
/// and `TooLong` comes for no other. `NoMemory` may come instead of any of these once the file is started.
pub fn read_all<H: Shelf>(
    alloc: Global,
    shelf: &mut H,
    name: &str,
    limit: usize,
) -> Result<Vec<u8>, ReadAllFault>
    ensures file { IfOk result (λ bytes. IsFile (H.files shelf.old) name.now bytes.items) }
    ensures within { IfOk result (λ bytes. length bytes.items ≤ limit) }

    ensures start_cause { IsErrOf result ReadAllFault.StartFailed →
        Lacks (H.files shelf.old) name.now ⊎ Rose (H.start_faults shelf.old) (H.start_faults shelf.new) }
    ensures absent { Lacks (H.files shelf.old) name.now → IsErrOf result ReadAllFault.StartFailed }
    ensures absent_quiet { Lacks (H.files shelf.old) name.now → H.start_faults shelf.new ≡ H.start_faults shelf.old }
    ensures read_cause { IsErrOf result ReadAllFault.ReadFailed → Rose (H.read_faults shelf.old) (H.read_faults shelf.new) }
    ensures long_only { IsErrOf result ReadAllFault.TooLong → IsFileOver (H.files shelf.old) name.now limit }
    ensures long { HoldsOver (H.files shelf.old) name.now limit → OnOk result ⊥ }

    ensures closed { H.at shelf.new ≡ None }
    ensures later_starts { H.start_faults shelf.old ≤ H.start_faults shelf.new }
    ensures later_reads { H.read_faults shelf.old ≤ H.read_faults shelf.new }
    ensures quiet_starts { H.strict ≡ true → result ≢ Err ReadAllFault.StartFailed → H.start_faults shelf.new ≡ H.start_faults shelf.old }
    ensures quiet_reads { H.strict ≡ true → result ≢ Err ReadAllFault.ReadFailed → H.read_faults shelf.new ≡ H.read_faults shelf.old }
    ensures same { H.files shelf.new ≡ H.files shelf.old }
{
    if shelf.start(name).is_err() {
        return Err(ReadAllFault::StartFailed);
    }
    let outcome = read_on(alloc, shelf, limit);
    shelf.stop();
    outcome
}

// Reads what is left of the started file.
fn read_on<H: Shelf>(alloc: Global, shelf: &mut H, limit: usize) -> Result<Vec<u8>, ReadAllFault>
    ensures all { IfOk result (λ bytes. IfSome (left_at (H.files shelf.old) (H.at shelf.old)) (λ left. bytes.items ≡ left)) }
    ensures within { IfOk result (λ bytes. length bytes.items ≤ limit) }

    ensures not_started { result ≢ Err ReadAllFault.StartFailed }
    ensures read_cause { IsErrOf result ReadAllFault.ReadFailed → Rose (H.read_faults shelf.old) (H.read_faults shelf.new) }
    ensures long_only { IsErrOf result ReadAllFault.TooLong →
        IfSome (left_at (H.files shelf.old) (H.at shelf.old)) (λ left. limit < length left) }

    ensures starts_kept { H.start_faults shelf.new ≡ H.start_faults shelf.old }
    ensures later { H.read_faults shelf.old ≤ H.read_faults shelf.new }
    ensures quiet { H.strict ≡ true → result ≢ Err ReadAllFault.ReadFailed → H.read_faults shelf.new ≡ H.read_faults shelf.old }
    ensures same { H.files shelf.new ≡ H.files shelf.old }
{
    let mut bytes = Vec::new(alloc);
    let mut chunk = [0; CHUNK];
    loop {
        let count = shelf
            .read(&mut chunk)
            .map_err(|_| ReadAllFault::ReadFailed)?;
        if count == 0 {
            return Ok(bytes);
        }
        if count > limit - bytes.len() {
            return Err(ReadAllFault::TooLong);
        }
        bytes
            .extend_from_slice(&chunk[..count])
            .map_err(|_| ReadAllFault::NoMemory)?;
    }
}
