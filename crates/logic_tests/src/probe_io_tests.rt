//! The devices in memory with faults at chosen calls, and those of the system over a real file.
use probe_io::*;
use std::alloc::{AllocError, Global};
use std::fs;
use std::test::Fail;

// Two files, the second of which is empty.
fn two_files(alloc: Global) -> Result<Vec<(Name, Vec<u8>)>, AllocError> {
    let mut files = Vec::new(alloc);
    let digits = Vec::from_slice(alloc, b"0123456789")?;
    files.push((Name::new(alloc, "digits")?, digits))?;
    files.push((Name::new(alloc, "nothing")?, Vec::new(alloc)))?;
    Ok(files)
}

#[test]
fn reads_in_small_steps(rt: HostRuntime) -> Result<(), Fail> {
    let alloc = rt.alloc();
    for step in 1..12 {
        let mut shelf = MemShelf::new(two_files(alloc)?, Vec::new(alloc), step);
        let digits = read_all(alloc, &mut shelf, "digits", 10)?;
        assert_eq!(rt; digits.as_slice(), b"0123456789".as_slice(), "step {step}");
        let nothing = read_all(alloc, &mut shelf, "nothing", 0)?;
        assert_eq!(rt; nothing.len(), 0);
        let long = read_all(alloc, &mut shelf, "digits", 9);
        assert_eq!(rt; long.err(), Some(ReadAllFault::TooLong), "step {step}");
    }
    let mut shelf = SureShelf::new(two_files(alloc)?);
    let digits = read_all(alloc, &mut shelf, "digits", 10)?;
    assert_eq!(rt; digits.as_slice(), b"0123456789".as_slice());
    let absent = read_all(alloc, &mut shelf, "letters", 10);
    assert_eq!(rt; absent.err(), Some(ReadAllFault::StartFailed));
    Ok(())
}

// With steps of one byte, call 0 starts the file, and calls 1 to 11 read it.
#[test]
fn each_call_may_fail(rt: HostRuntime) -> Result<(), Fail> {
    let alloc = rt.alloc();
    for call in 0..14 {
        let fail_at = vec![in alloc; call]?;
        let mut shelf = MemShelf::new(two_files(alloc)?, fail_at, 1);
        let outcome = read_all(alloc, &mut shelf, "digits", 10);
        let want = match call {
            0 => Some(ReadAllFault::StartFailed),
            1..=11 => Some(ReadAllFault::ReadFailed),
            _ => None,
        };
        assert_eq!(rt; outcome.err(), want, "call {call}");
        let digits = read_all(alloc, &mut shelf, "digits", 10);
        let want = if call == 12 {
            Some(ReadAllFault::StartFailed)
        } else if call == 13 {
            Some(ReadAllFault::ReadFailed)
        } else {
            None
        };
        assert_eq!(rt; digits.err(), want, "the second time, call {call}");
    }
    Ok(())
}

#[test]
fn an_absent_name_raises_no_count(rt: HostRuntime) -> Result<(), Fail> {
    let alloc = rt.alloc();
    let mut shelf = MemShelf::new(two_files(alloc)?, vec![in alloc; 0, 1]?, 1);
    assert_eq!(rt; shelf.start("letters"), Err(Failed));
    let mut buf = [0; 4];
    assert_eq!(rt;
        shelf.read(&mut buf),
        Ok(0),
        "nothing is started, and call 1 does not fail"
    );
    assert_eq!(rt; shelf.start("digits"), Ok(()));
    assert_eq!(rt; shelf.read(&mut buf), Ok(1));
    shelf.stop();
    assert_eq!(rt; shelf.read(&mut buf), Ok(0));
    Ok(())
}

#[test]
fn writes_fronts_and_wholes(rt: HostRuntime) -> Result<(), Fail> {
    let alloc = rt.alloc();
    let line = b"total -12 of 7\n".as_slice();
    for step in 1..20 {
        let mut sink = MemSink::new(alloc, Vec::new(alloc), step);
        let total = [Piece::Text(b"total "), Piece::Signed(-12)];
        put_pieces(&mut sink, &total).ok().ok_or("total")?;
        let pieces = [
            Piece::Text(b" of "),
            Piece::Number(7),
            Piece::Text(b""),
            Piece::Text(b"\n"),
        ];
        put_pieces(&mut &mut sink, &pieces).ok().ok_or("of")?;
        assert_eq!(rt; sink.bytes(), line, "step {step}");
    }
    for call in 0..15 {
        let mut sink = MemSink::new(alloc, vec![in alloc; call]?, 1);
        let outcome = put_all(&mut sink, line);
        assert_eq!(rt; outcome, Err(Failed), "call {call}");
        assert!(rt; line.starts_with(sink.bytes()));
        assert_eq!(rt; sink.bytes().len() as u64, call);
    }
    Ok(())
}

#[test]
fn numbers_at_their_ends(rt: HostRuntime) -> Result<(), Fail> {
    let alloc = rt.alloc();
    let rows = [
        (0, "0"),
        (-1, "-1"),
        (i64::MAX, "9223372036854775807"),
        (i64::MIN, "-9223372036854775808"),
    ];
    for (number, text) in rows {
        let mut sink = SureSink::with_room(alloc, 20)?;
        put_number(&mut sink, number)
            .ok()
            .ok_or("a sure sink failed")?;
        assert_eq!(rt; sink.bytes(), text.as_bytes());
    }
    let mut sink = SureSink::with_room(alloc, 3)?;
    put_all(&mut sink, b"abc").ok().ok_or("a sure sink failed")?;
    assert_eq!(rt; sink.bytes(), b"abc".as_slice());
    put_pieces(&mut sink, &[Piece::Number(u64::MAX)])
        .ok()
        .ok_or("a sure sink failed")?;
    Ok(())
}

#[test]
fn a_sure_sink_holds_what_fitted(rt: HostRuntime) -> Result<(), Fail> {
    let alloc = rt.alloc();
    let mut sink = SureSink::with_room(alloc, 3)?;
    assert_eq!(rt; sink.write(b"abcd"), Ok(4));
    assert_eq!(rt; sink.bytes(), b"".as_slice(), "it doesn't fit");
    assert_eq!(rt; sink.write(b"xy"), Ok(2));
    assert_eq!(rt;
        sink.bytes(),
        b"".as_slice(),
        "it comes behind one that doesn't fit"
    );
    let mut sink = SureSink::with_room(alloc, 3)?;
    assert_eq!(rt; sink.write(b"ab"), Ok(2));
    assert_eq!(rt; sink.write(b"cd"), Ok(2));
    assert_eq!(rt; sink.write(b"e"), Ok(1));
    assert_eq!(rt; sink.bytes(), b"ab".as_slice());
    Ok(())
}

#[test]
fn real_files(rt: HostRuntime) -> Result<(), Fail> {
    let alloc = rt.alloc();
    fs::write(&rt, "greeting.txt", "Good morning.\n")?;
    let mut shelf = FileShelf::new(&rt);
    let greeting = read_all(alloc, &mut shelf, "greeting.txt", 100)?;
    assert_eq!(rt; greeting.as_slice(), b"Good morning.\n".as_slice());
    let long = read_all(alloc, &mut shelf, "greeting.txt", 13);
    assert_eq!(rt; long.err(), Some(ReadAllFault::TooLong));
    fs::remove_file(&rt, "greeting.txt")?;
    let absent = read_all(alloc, &mut shelf, "greeting.txt", 100);
    assert_eq!(rt; absent.err(), Some(ReadAllFault::StartFailed));
    let folder = read_all(alloc, &mut shelf, ".", 100);
    assert_eq!(rt;
        folder.err(),
        Some(ReadAllFault::ReadFailed),
        "a folder is no file to read"
    );
    Ok(())
}

#[test]
fn real_streams(rt: HostRuntime) -> Result<(), Fail> {
    let alloc = rt.alloc();
    let mut sink = StreamSink::new(fs::create(&rt, "written.txt")?);
    put_all(&mut sink, b"row ").ok().ok_or("row")?;
    put_number(&mut sink, -3).ok().ok_or("number")?;
    assert_eq!(rt; sink.write(b""), Ok(0));
    let mut shelf = FileShelf::new(&rt);
    let written = read_all(alloc, &mut shelf, "written.txt", 100)?;
    assert_eq!(rt; written.as_slice(), b"row -3".as_slice());
    fs::remove_file(&rt, "written.txt")?;
    let mut room = [0u8; 2];
    let mut full = StreamSink::new(room.as_mut_slice());
    assert_eq!(rt;
        put_all(&mut full, b"abc"),
        Err(Failed),
        "a writer with no room left takes 0 bytes"
    );
    Ok(())
}
