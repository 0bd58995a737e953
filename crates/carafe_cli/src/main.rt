//! The program `carafe`: the words of the command line, the files of the system and its two output streams, handed
//! to the top call. It stands on `carafe_core`, whose `carafe` carries every promise; what the system gives and
//! takes is trusted.
#![tactic(auto)]

ghost use Rattle.std.specs.Prelude.{◌≡◌, [], map, drop, string_bytes, IfOk, IfErr, OnOk};
ghost use Rattle.std.specs.Result.{IsOkAnd};
ghost use Rattle.std.specs.IoError.{error_kind};
ghost use Rattle.std.specs.Vec.Iter.{into_iter_items};

use carafe_core::{Status, carafe};
use probe_io::{FileShelf, Name, StreamSink};
use std::alloc::{AllocError, Global};
use std::env::{self, Args};
use std::io::{self, ErrorKind};
use std::process::ExitCode;

fn main(rt: HostRuntime) -> ExitCode {
    let Ok(words) = read_arguments(rt.alloc(), env::args(&rt)) else {
        return ExitCode::from(Status::NoMemory.exit_number());
    };
    let mut shelf = FileShelf::new(&rt);
    let mut out = StreamSink::new(rt.stdout());
    let mut diag = StreamSink::new(rt.stderr());
    let status = carafe(
        rt.alloc(),
        words.as_slice(),
        &mut shelf,
        &mut out,
        &mut diag,
    );
    ExitCode::from(status.exit_number())
}

/// The words after the program's name, or none where an argument is no text. It fails only where no memory is found.
fn read_arguments(alloc: Global, arguments: io::Result<Args>) -> Result<Vec<Name>, AllocError>
    ensures words { IfOk arguments (λ args. IfOk result (λ words. words.items ≡ drop 1 (map string_bytes (into_iter_items args)))) }
    ensures none { IfErr arguments (λ error. (error_kind error ≡ ErrorKind.OutOfMemory → ⊥) → IsOkAnd result (λ words. words.items ≡ [])) }
    ensures memory { IfErr arguments (λ error. error_kind error ≡ ErrorKind.OutOfMemory → OnOk result ⊥) }
{
    match arguments {
        Ok(mut arguments) => {
            let _program = arguments.next();
            words_of(alloc, arguments)
        }
        Err(error) if error.kind() == ErrorKind::OutOfMemory => Err(AllocError),
        Err(_) => Ok(Vec::new(alloc)),
    }
}

/// The arguments as words, in their order.
fn words_of(alloc: Global, arguments: Args) -> Result<Vec<Name>, AllocError>
    ensures { IfOk result (λ words. words.items ≡ map string_bytes (into_iter_items arguments)) }
{
    let mut words = Vec::new(alloc);
    for argument in arguments {
        words.push(Name::new(alloc, argument.as_str())?)?;
    }
    Ok(words)
}
