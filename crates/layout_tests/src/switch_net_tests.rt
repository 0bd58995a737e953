//! Circuits, which of them are refused, and the drives of their nets.

use std::alloc::{AllocError, Global};
use std::process::Abort;
use std::test::Fail;
use switch_net::{
    Circuit, CircuitRefusal, Drive, Fet, Kind, NetId, Pair, Scratch, are_parts, chosen, gates,
    terminals,
};

fn fet(kind: Kind, gate: u32, a: u32, b: u32) -> Fet {
    Fet {
        kind,
        gate: NetId(gate),
        a: NetId(a),
        b: NetId(b),
    }
}

/// The nets A 0, GND 1, Y 2, Vdd 3.
fn inverter() -> [Fet; 2] {
    [fet(Kind::N, 0, 1, 2), fet(Kind::P, 0, 2, 3)]
}

/// Two inverters of the inputs 0 and 1, with the outputs 4 and 6. A transistor that the high supply 3 gates links 4 and 5, and
/// the low supply is 2.
fn seven_nets() -> [Fet; 5] {
    [
        fet(Kind::N, 0, 2, 4),
        fet(Kind::P, 0, 3, 4),
        fet(Kind::N, 3, 4, 5),
        fet(Kind::N, 1, 2, 6),
        fet(Kind::P, 1, 3, 6),
    ]
}

/// A NAND of the inputs 0 and 1, with the output 4. Net 5 is between its two n transistors, the low supply is 2 and the high
/// one 3.
fn nand() -> [Fet; 4] {
    [
        fet(Kind::N, 0, 5, 4),
        fet(Kind::P, 0, 4, 3),
        fet(Kind::N, 1, 2, 5),
        fet(Kind::P, 1, 4, 3),
    ]
}

fn made(
    rt: &impl Abort,
    alloc: Global,
    labelled: &[bool],
    fets: &[Fet],
    supplies: (u32, u32),
    asked: &[NetId],
) -> Result<Circuit, CircuitRefusal> {
    let (high, low) = (NetId(supplies.0), NetId(supplies.1));
    assert!(rt; are_parts(labelled, fets, high, low, asked));
    let labelled = Vec::from_slice(alloc, labelled)?;
    let fets = Vec::from_slice(alloc, fets)?;
    let asked = Vec::from_slice(alloc, asked)?;
    Circuit::new(alloc, labelled, fets, high, low, asked)
}

/// The drive of the net, by a scratch of its own.
fn driven(
    rt: &impl Abort,
    alloc: Global,
    circuit: &Circuit,
    net: u32,
    values: &[bool],
) -> Result<Drive, AllocError> {
    let nets = circuit.labelled().len();
    assert!(rt; (net as usize) < nets && values.len() == nets);
    let mut scratch = Scratch::new(alloc, nets)?;
    Ok(circuit.drive(NetId(net), values, &mut scratch))
}

/// For each transistor, whether it conducts.
fn conducting(
    rt: &impl Abort,
    alloc: Global,
    circuit: &Circuit,
    values: &[bool],
) -> Result<Vec<bool>, AllocError> {
    assert!(rt; values.len() == circuit.labelled().len());
    let mut all = Vec::new(alloc);
    for fet in 0..circuit.fets().len() {
        all.push(circuit.conducting(fet, values))?;
    }
    Ok(all)
}

fn all_gates(alloc: Global, circuit: &Circuit) -> Result<Vec<NetId>, AllocError> {
    let marks = gates(alloc, circuit.labelled().len(), circuit.fets())?;
    chosen(alloc, marks.as_slice())
}

fn all_terminals(alloc: Global, circuit: &Circuit) -> Result<Vec<NetId>, AllocError> {
    let marks = terminals(alloc, circuit.labelled().len(), circuit.fets())?;
    chosen(alloc, marks.as_slice())
}

#[test]
fn a_pair_has_the_smaller_number_first(rt: HostRuntime) -> Result<(), Fail> {
    let pair = Pair::new(NetId(2), NetId(5)).expect(&rt, "rising");
    assert_eq!(rt; pair.a(), NetId(2));
    assert_eq!(rt; pair.b(), NetId(5));
    assert_eq!(rt; Pair::new(NetId(5), NetId(2)), None);
    assert_eq!(rt; Pair::new(NetId(5), NetId(5)), None);
    Ok(())
}

#[test]
fn an_inverter_drives_the_opposite_value(rt: HostRuntime) -> Result<(), Fail> {
    let alloc = rt.alloc();
    let circuit = made(&rt, alloc, &[true; 4], &inverter(), (3, 1), &[]).expect(&rt, "a circuit");
    let rows = [
        ([false, false, true, true], Drive::High, [false, true]),
        ([true, false, false, true], Drive::Low, [true, false]),
    ];
    for (values, drive, conducts) in rows {
        assert_eq!(rt; driven(&rt, alloc, &circuit, 2, &values)?, drive);
        assert_eq!(rt; driven(&rt, alloc, &circuit, 0, &values)?, Drive::Neither);
        assert_eq!(rt; driven(&rt, alloc, &circuit, 1, &values)?, Drive::Low);
        assert_eq!(rt; driven(&rt, alloc, &circuit, 3, &values)?, Drive::High);
        assert_eq!(rt;
            conducting(&rt, alloc, &circuit, &values)?.as_slice(),
            conducts.as_slice()
        );
    }
    assert_eq!(rt; circuit.inputs(), [NetId(0)].as_slice());
    Ok(())
}

#[test]
fn seven_nets_have_two_inputs(rt: HostRuntime) -> Result<(), Fail> {
    let alloc = rt.alloc();
    let labelled = [true; 7];
    let asked = [NetId(6), NetId(5)];
    let circuit = made(&rt, alloc, &labelled, &seven_nets(), (3, 2), &asked).expect(
        &rt,
        "a circuit",
    );
    assert_eq!(rt; circuit.inputs(), [NetId(0), NetId(1)].as_slice());
    assert_eq!(rt; circuit.asked(), asked.as_slice());
    assert_eq!(rt; circuit.fets(), seven_nets().as_slice());
    assert_eq!(rt; circuit.labelled(), labelled.as_slice());
    assert_eq!(rt; (circuit.high(), circuit.low()), (NetId(3), NetId(2)));
    let supplies = [false, false, true, true, false, false, false];
    for (net, is_supply) in supplies.iter().enumerate() {
        assert_eq!(rt; circuit.is_supply(NetId(net as u32)), *is_supply, "{net}");
    }
    assert_eq!(rt;
        all_gates(alloc, &circuit)?.as_slice(),
        [NetId(0), NetId(1), NetId(3)].as_slice()
    );
    assert_eq!(rt;
        all_terminals(alloc, &circuit)?.as_slice(),
        [NetId(2), NetId(3), NetId(4), NetId(5), NetId(6)].as_slice()
    );
    Ok(())
}

#[test]
fn a_chain_of_transistors_drives_its_end(rt: HostRuntime) -> Result<(), Fail> {
    let alloc = rt.alloc();
    let circuit = made(&rt, alloc, &[true; 6], &nand(), (3, 2), &[]).expect(&rt, "a circuit");
    let rows = [
        ([false, false], Drive::High, Drive::Neither),
        ([false, true], Drive::High, Drive::Low),
        ([true, false], Drive::High, Drive::High),
        ([true, true], Drive::Low, Drive::Low),
    ];
    for ([a, b], output, between) in rows {
        let values = [a, b, false, true, !(a && b), false];
        assert_eq!(rt;
            driven(&rt, alloc, &circuit, 4, &values)?,
            output,
            "{a} {b}"
        );
        assert_eq!(rt;
            driven(&rt, alloc, &circuit, 5, &values)?,
            between,
            "{a} {b}"
        );
    }
    Ok(())
}

#[test]
fn no_path_goes_through_a_supply(rt: HostRuntime) -> Result<(), Fail> {
    let alloc = rt.alloc();
    // from 3 to the low supply 1, and from there on to the high supply 2
    let fets = [fet(Kind::N, 0, 3, 1), fet(Kind::N, 0, 1, 2)];
    let circuit = made(&rt, alloc, &[true; 4], &fets, (2, 1), &[]).expect(&rt, "a circuit");
    let values = [true, false, true, false];
    assert_eq!(rt; driven(&rt, alloc, &circuit, 3, &values)?, Drive::Low);
    assert_eq!(rt; driven(&rt, alloc, &circuit, 2, &values)?, Drive::High);
    assert_eq!(rt; driven(&rt, alloc, &circuit, 1, &values)?, Drive::Low);
    Ok(())
}

#[test]
fn two_paths_fight(rt: HostRuntime) -> Result<(), Fail> {
    let alloc = rt.alloc();
    // the later transistor is nearer to the net that is asked, so that a second pass is wanted
    let fets = [
        fet(Kind::N, 0, 5, 2),
        fet(Kind::N, 0, 4, 5),
        fet(Kind::N, 0, 3, 4),
        fet(Kind::N, 0, 3, 1),
    ];
    let circuit = made(&rt, alloc, &[true; 6], &fets, (2, 1), &[]).expect(&rt, "a circuit");
    let mut values = [true, false, true, false, false, false];
    assert_eq!(rt; driven(&rt, alloc, &circuit, 3, &values)?, Drive::Both);
    values[0] = false;
    assert_eq!(rt; driven(&rt, alloc, &circuit, 3, &values)?, Drive::Neither);
    Ok(())
}

/// Transistors between the nets 0 and 2 that are gated by the nets from 3 on, up to the end.
fn gated_up_to(alloc: Global, end: u32) -> Result<Vec<Fet>, AllocError> {
    let mut fets = Vec::new(alloc);
    for net in 3..end {
        fets.push(fet(Kind::N, net, 0, 2))?;
    }
    Ok(fets)
}

#[test]
fn floating_gates_come_first_then_inputs_then_nets_asked_for(rt: HostRuntime) -> Result<(), Fail> {
    let alloc = rt.alloc();
    let mut labelled = vec![in alloc; true; 260]?;
    let many = gated_up_to(alloc, 260)?;
    let few = gated_up_to(alloc, 259)?;
    let bad = [NetId(2), NetId(5), NetId(0)];
    let refusal = |labelled: &[bool], fets: &[Fet], asked: &[NetId]| {
        made(&rt, alloc, labelled, fets, (0, 1), asked).err()
    };
    let many = many.as_slice();
    let few = few.as_slice();
    assert_eq!(rt; refusal(labelled.as_slice(), few, &[NetId(2)]), None);
    assert_eq!(rt;
        refusal(labelled.as_slice(), few, &bad),
        Some(CircuitRefusal::NotTerminal(1))
    );
    assert_eq!(rt;
        refusal(labelled.as_slice(), few, &[NetId(0), NetId(2)]),
        Some(CircuitRefusal::NotTerminal(0))
    );
    assert_eq!(rt;
        refusal(labelled.as_slice(), many, &bad),
        Some(CircuitRefusal::TooManyInputs)
    );
    labelled[9] = false;
    labelled[7] = false;
    assert_eq!(rt;
        refusal(labelled.as_slice(), many, &bad),
        Some(CircuitRefusal::FloatingGate(NetId(7)))
    );
    Ok(())
}
