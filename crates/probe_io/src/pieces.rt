// Lines of text from their pieces.
ghost use Rattle.std.specs.Prelude.{◌≡◌, OnOk, OnErr};
ghost use Rattle.probe_io.specs.Causes.{HasCause};
ghost use Rattle.probe_io.specs.Text.{piece_text, pieces_text};
ghost use Rattle.probe_io.specs.Written.{Appends, AppendsFront};

use crate::outside::{Failed, Sink};
use crate::writing::{put_all, put_number};
use itoa::Buffer;

/// A piece of printed text.
#[derive(Clone, Copy, Debug)]
pub enum Piece<'a> {
    /// Bytes as they stand.
    Text(&'a [u8]),
    /// A number in plain decimal.
    Number(u64),
    /// A number in plain decimal, with a `-` before it where it is negative.
    Signed(i64),
}

/// Writes the texts of the pieces, one behind the other. After `Failed`, a front of that text was
/// written. It takes no memory.
pub fn put_pieces<K: Sink>(sink: &mut K, pieces: &[Piece]) -> Result<(), Failed>
    ensures ok { OnOk result (Appends (K.written sink.old) (K.written sink.new) (pieces_text pieces.now)) }
    ensures front { OnErr result (AppendsFront (K.written sink.old) (K.written sink.new) (pieces_text pieces.now)) }
    ensures cause { HasCause K.strict (K.faults sink.old) (K.faults sink.new) result }
    ensures lender { K.lender sink.new ≡ K.lender sink.old }
{
    for piece in pieces {
        put_piece(sink, piece)?;
    }
    Ok(())
}

// Writes the text of one piece.
fn put_piece<K: Sink>(sink: &mut K, piece: &Piece) -> Result<(), Failed>
    ensures ok { OnOk result (Appends (K.written sink.old) (K.written sink.new) (piece_text piece.now)) }
    ensures front { OnErr result (AppendsFront (K.written sink.old) (K.written sink.new) (piece_text piece.now)) }
    ensures cause { HasCause K.strict (K.faults sink.old) (K.faults sink.new) result }
    ensures lender { K.lender sink.new ≡ K.lender sink.old }
{
    match piece {
        Piece::Text(text) => put_all(sink, text),
        Piece::Number(number) => put_all(sink, Buffer::new().format(*number).as_bytes()),
        Piece::Signed(number) => put_number(sink, *number),
    }
}
