//! The top call on rows of text. A line of the input that begins with `$ carafe` is a call over the files of the folder.
//!
//! Each line is printed again. After a call comes its report, then its line of diagnostics after the word `diag:`, and
//! then its exit number and its status. So the wanted output reads as a session, and a row more is a line of the input,
//! its files and its answer.
#![tactic(auto)]

use carafe_core::carafe;
use probe_io::{FileShelf, MemSink, Name};
use std::alloc::{AllocError, Global};
use std::io::{self, Write};

fn main(rt: HostRuntime) -> io::Result<()> {
    for line in rt.lines(rt.alloc()) {
        let line = line?;
        println!(rt; "{line}")?;
        if let Some(words) = line.as_str().strip_prefix("$ carafe") {
            show_answer(&rt, words)?;
        }
    }
    Ok(())
}

/// Prints what a call with these words writes, and how it ends.
fn show_answer(rt: &HostRuntime, words: &str) -> io::Result<()> {
    let alloc = rt.alloc();
    let words = names(alloc, words)?;
    let mut shelf = FileShelf::new(rt);
    let mut out = MemSink::new(alloc, Vec::new(alloc), usize::MAX);
    let mut diag = MemSink::new(alloc, Vec::new(alloc), usize::MAX);
    let status = carafe(alloc, words.as_slice(), &mut shelf, &mut out, &mut diag);
    rt.stdout().write_all(out.bytes())?;
    if !diag.bytes().is_empty() {
        print!(rt; "diag: ")?;
        rt.stdout().write_all(diag.bytes())?;
    }
    println!(rt; "exit {}: {status:?}", status.exit_number())
}

/// The words that stand in a text with blanks between them.
fn names(alloc: Global, text: &str) -> Result<Vec<Name>, AllocError> {
    let mut names = Vec::new(alloc);
    for word in text.split_whitespace() {
        names.push(Name::new(alloc, word)?)?;
    }
    Ok(names)
}
