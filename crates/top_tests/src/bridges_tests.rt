//! The command `bridges`, on two boxes of one metal.

use crate::fixtures::{
    Answer, Ending, Faults, Files, NONE, at_out, at_shelf, call, expect, names, shelved,
};
use carafe_core::{Refusal, Status, Stream, Which, carafe};
use layer_map::{MapRefusal, Side};
use probe_io::{SureShelf, SureSink};
use std::alloc::{AllocError, Global};
use std::test::Fail;

const WORDS: &str = "bridges map cif 3";

const CIF: (&str, &str) = (
    "cif",
    "L CMF; B 10 10 5 5; B 10 10 17 5; 94 Vdd 5 5; 94 GND 17 5; E",
);

const FILES: Files = &[
    (
        "map",
        "wire metal CMF\nlabel CMF metal\nhigh Vdd\nlow GND\n",
    ),
    CIF,
];

const REPORT: &str =
    "carafe bridges 1\nside 3\nnets 2\nlabels 2 0 0\nbridges 1\nbridge 1 Vdd GND 25 metal=25\ntally bridges 1\n";

const fn open_fault(which: Which, diag: &str) -> Answer<'_> {
    Answer {
        status: Status::OpenFault(which),
        exit: 4,
        diag,
    }
}

const fn read_fault(which: Which, diag: &str) -> Answer<'_> {
    Answer {
        status: Status::ReadFault(which),
        exit: 4,
        diag,
    }
}

const WRITE_FAULT: Answer = Answer {
    status: Status::WriteFault(Stream::Out),
    exit: 5,
    diag: "carafe: WriteFault out\n",
};

// The map is started at call 0 and read by the next four, and the layout is started at call 5.
#[test]
fn faults_name_their_device(rt: HostRuntime) -> Result<(), Fail> {
    let open_map = open_fault(Which::Map, "carafe: OpenFault map\n");
    let open_cif = open_fault(Which::Cif, "carafe: OpenFault cif\n");
    for (words, faults, answer) in [
        ("bridges absent cif 3", NONE, open_map),
        ("bridges map absent 3", NONE, open_cif),
        (WORDS, at_shelf(&[0]), open_map),
        (
            WORDS,
            at_shelf(&[1]),
            read_fault(Which::Map, "carafe: ReadFault map\n"),
        ),
        (WORDS, at_shelf(&[5]), open_cif),
        (
            WORDS,
            at_shelf(&[6]),
            read_fault(Which::Cif, "carafe: ReadFault cif\n"),
        ),
        (WORDS, at_out(&[0]), WRITE_FAULT),
    ] {
        expect(&rt, rt.alloc(), words, FILES, &faults, answer)?;
    }
    Ok(())
}

// The map is started at call 0 and read by the next two. Each call after these would fail.
#[test]
fn a_refused_map_leaves_the_layout_unopened(rt: HostRuntime) -> Result<(), Fail> {
    let files = [("map", "wire metal !CMF"), CIF];
    let faults = at_shelf(&[3, 4, 5, 6, 7, 8]);
    let unbounded = refused_map(MapRefusal::Unbounded(1), "carafe: Unbounded 1\n");
    expect(&rt, rt.alloc(), WORDS, &files, &faults, unbounded)
}

const fn refused_map(refusal: MapRefusal, diag: &str) -> Answer<'_> {
    Answer {
        status: Status::Refused(Refusal::Map(refusal)),
        exit: 2,
        diag,
    }
}

#[test]
fn a_long_map_is_refused(rt: HostRuntime) -> Result<(), Fail> {
    let no_supply = MapRefusal::NoSupplyLine(Side::High);
    for (length, answer) in [
        (
            65_536,
            refused_map(no_supply, "carafe: NoSupplyLine high\n"),
        ),
        (
            65_537,
            refused_map(MapRefusal::MapTooLong, "carafe: MapTooLong\n"),
        ),
    ] {
        let map = "#".repeat(rt.alloc(), length)?;
        let files = [("map", map.as_str())];
        expect(
            &rt,
            rt.alloc(),
            "bridges map absent 3",
            &files,
            &NONE,
            answer,
        )?;
    }
    Ok(())
}

#[test]
fn a_failed_write_leaves_a_prefix(rt: HostRuntime) -> Result<(), Fail> {
    let length = REPORT.len() as u64;
    for write in 0..length {
        let ending = call_with_failed_write(rt.alloc(), write)?;
        assert_eq!(rt; ending.status, WRITE_FAULT.status, "write {write}");
        assert_eq!(rt; ending.out.bytes().len() as u64, write);
        assert!(rt;
            REPORT.as_bytes().starts_with(ending.out.bytes()),
            "write {write}"
        );
    }
    let whole = call_with_failed_write(rt.alloc(), length)?;
    assert_eq!(rt; whole.status, Status::Done);
    assert_eq!(rt; whole.out.bytes(), REPORT.as_bytes());
    Ok(())
}

/// Each write takes one byte, and this one fails.
fn call_with_failed_write(alloc: Global, write: u64) -> Result<Ending, AllocError> {
    let calls = [write];
    let faults = Faults {
        step: 1,
        ..at_out(&calls)
    };
    call(alloc, WORDS, FILES, &faults)
}

#[test]
fn a_sure_sink_tells_the_report(rt: HostRuntime) -> Result<(), Fail> {
    let words = names(rt.alloc(), WORDS)?;
    let mut shelf = SureShelf::new(shelved(rt.alloc(), FILES)?);
    let mut out = SureSink::with_room(rt.alloc(), REPORT.len())?;
    let mut diag = SureSink::with_room(rt.alloc(), 0)?;
    let status = carafe(
        rt.alloc(),
        words.as_slice(),
        &mut shelf,
        &mut out,
        &mut diag,
    );
    assert_eq!(rt; status, Status::Done);
    assert_eq!(rt; out.told(), Some(REPORT.as_bytes()));
    assert_eq!(rt; diag.told(), Some(b"".as_slice()));
    Ok(())
}
