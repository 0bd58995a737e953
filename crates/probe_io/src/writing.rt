// Whole texts to a sink.
ghost use Rattle.std.specs.Prelude.{◌≡◌, OnOk, OnErr};
ghost use Rattle.std.specs.Fmt.{signed_decimal};
ghost use Rattle.probe_io.specs.Causes.{HasCause};
ghost use Rattle.probe_io.specs.Written.{Appends, AppendsFront};

use crate::outside::{Failed, Sink};
use itoa::Buffer;

/// Writes all the bytes. After `Failed`, a front of them was written. It takes no memory.
pub fn put_all<K: Sink>(sink: &mut K, bytes: &[u8]) -> Result<(), Failed>
    ensures ok { OnOk result (Appends (K.written sink.old) (K.written sink.new) bytes.now) }
    ensures front { OnErr result (AppendsFront (K.written sink.old) (K.written sink.new) bytes.now) }
    ensures cause { HasCause K.strict (K.faults sink.old) (K.faults sink.new) result }
    ensures lender { K.lender sink.new ≡ K.lender sink.old }
{
    let mut done = 0;
    while done < bytes.len() {
        done += sink.write(&bytes[done..])?;
    }
    Ok(())
}

/// Writes a number in plain decimal, with a `-` before it where it is negative. After `Failed`, a
/// front of that text was written. It takes no memory.
pub fn put_number<K: Sink>(sink: &mut K, n: i64) -> Result<(), Failed>
    ensures ok { OnOk result (Appends (K.written sink.old) (K.written sink.new) (signed_decimal n)) }
    ensures front { OnErr result (AppendsFront (K.written sink.old) (K.written sink.new) (signed_decimal n)) }
    ensures cause { HasCause K.strict (K.faults sink.old) (K.faults sink.new) result }
    ensures lender { K.lender sink.new ≡ K.lender sink.old }
{
    put_all(sink, Buffer::new().format(n).as_bytes())
}
