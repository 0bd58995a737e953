//! Commands that are read, and bytes that begin with none.

use cif_grammar::{Command, Number, Signed, Spot, Transformation, next_command};
use std::alloc::{AllocError, Global};
use std::test::Fail;

/// The kind of the next command of a whole text, and how many bytes stand after it.
fn next_kind(alloc: Global, text: &[u8]) -> Result<(&'static str, usize), AllocError> {
    let found = next_command(alloc, text.len(), text)?;
    Ok(match found {
        None => ("none", text.len()),
        Some((command, rest)) => (kind(&command), rest.len()),
    })
}

fn kind(command: &Command<'_>) -> &'static str {
    match command {
        Command::Box {
            direction: None,
            ..
        } => "box",
        Command::Box { .. } => "directed box",
        Command::Polygon(_) => "polygon",
        Command::Wire { .. } => "wire",
        Command::Layer(_) => "layer",
        Command::Call { .. } => "call",
        Command::User(_) => "user",
        Command::Comment => "comment",
        Command::Start { scale: None, .. } => "start",
        Command::Start { .. } => "scaled start",
        Command::Finish => "finish",
    }
}

fn layer_name<'a>(command: &'a Command<'_>) -> &'a [u8] {
    match command {
        Command::Layer(name) => name.as_bytes(),
        _ => b"",
    }
}

fn plus(at: usize, value: u64) -> Signed {
    Signed {
        minus: false,
        size: Number { at, value },
    }
}

#[test]
fn reads_each_kind(rt: HostRuntime) -> Result<(), Fail> {
    for (text, kind, left) in [
        ("B10,20,30,40;\nE", "box", 1),
        ("BOX LENGTH 25 WIDTH 60 CENTER 80,40;", "box", 0),
        ("B 1 2 3 4 0 -1 ; ;; E", "directed box", 1),
        ("B1 2-3 4;", "none", 9),
        ("B 1 2 3 4", "none", 9),
        ("P 0 0 1 0 1 -1;", "polygon", 0),
        ("W 4 0 0 10 0;", "wire", 0),
        ("W 4 0 0 10;", "none", 11),
        ("L CMF;", "layer", 0),
        ("LAYER CMF;", "none", 10),
        ("L abc;", "none", 6),
        ("L CMFAB;", "none", 8),
        ("C 1 R 1 1 T 2 3 M X MY;", "call", 0),
        ("C 1 MZ;", "none", 7),
        ("94 A 1 1;94 B;", "user", 5),
        ("94 A 1 1", "none", 8),
        ("(a (b;) c);E", "comment", 1),
        ("(a (b c);E", "none", 10),
        ("(a) b);E", "none", 8),
        ("DS 1;", "start", 0),
        ("DS 1 25 2;", "scaled start", 0),
        ("DS 1 2;", "none", 7),
        ("D F;", "finish", 0),
        ("DD 1;", "none", 5),
        ("End", "none", 3),
        (" L CMF;", "none", 7),
        ("", "none", 0),
    ] {
        assert_eq!(rt;
            next_kind(rt.alloc(), text.as_bytes())?,
            (kind, left),
            "{text}"
        );
    }
    Ok(())
}

#[test]
fn reads_the_numbers_of_a_box(rt: HostRuntime) -> Result<(), Fail> {
    let text = b"B 1 2147483648 -03 4,1111111111222222222233333333334444444444 0;";
    match next_command(rt.alloc(), text.len(), text)? {
        Some(
            (
                Command::Box {
                    length,
                    width,
                    centre,
                    direction,
                },
                _,
            ),
        ) => {
            assert_eq!(rt; (length.at, length.value), (2, 1));
            assert_eq!(rt; (width.at, width.value), (4, 2_147_483_648));
            let x = Signed {
                minus: true,
                size: Number { at: 16, value: 3 },
            };
            assert!(rt; centre == Spot { x, y: plus(19, 4) });
            let far = Spot {
                x: plus(21, 2_147_483_648),
                y: plus(62, 0),
            };
            assert!(rt; direction == Some(far));
            Ok(())
        }
        _ => Err("no box")?,
    }
}

#[test]
fn reads_the_points_of_a_wire(rt: HostRuntime) -> Result<(), Fail> {
    let text = b"W 4 0 0 10 0 X20 5;";
    match next_command(rt.alloc(), text.len(), text)? {
        Some((Command::Wire { width, path }, _)) => {
            assert_eq!(rt; (width.at, width.value), (2, 4));
            let spot = |x, y| Spot { x, y };
            assert!(rt; path.first == spot(plus(4, 0), plus(6, 0)));
            let others = [
                spot(plus(8, 10), plus(11, 0)),
                spot(plus(14, 20), plus(17, 5)),
            ];
            assert!(rt; path.others.as_slice() == others.as_slice());
            Ok(())
        }
        _ => Err("no wire")?,
    }
}

#[test]
fn reads_transformations_from_left_to_right(rt: HostRuntime) -> Result<(), Fail> {
    let text = b"CALL 7 MX T 2 3 R 0 1 M Y;";
    match next_command(rt.alloc(), text.len(), text)? {
        Some(
            (
                Command::Call {
                    symbol,
                    transformations,
                },
                _,
            ),
        ) => {
            assert_eq!(rt; (symbol.at, symbol.value), (5, 7));
            let spot = |x, y| Spot { x, y };
            let wanted = [
                Transformation::MirrorX,
                Transformation::Translate(spot(plus(12, 2), plus(14, 3))),
                Transformation::Rotate(spot(plus(18, 0), plus(20, 1))),
                Transformation::MirrorY,
            ];
            assert!(rt; transformations.as_slice() == wanted.as_slice());
            Ok(())
        }
        _ => Err("no call")?,
    }
}

#[test]
fn lends_user_text_and_names(rt: HostRuntime) -> Result<(), Fail> {
    let text = b"94 A 1 1 ;;";
    match next_command(rt.alloc(), text.len(), text)? {
        Some((Command::User(user), rest)) => {
            assert_eq!(rt; user, b"94 A 1 1 ".as_slice());
            assert_eq!(rt; rest, b"".as_slice());
        }
        _ => Err("no user command")?,
    }
    let text = b"L NW1Z;E";
    let (command, rest) = next_command(rt.alloc(), text.len(), text)?.ok_or("no command")?;
    assert_eq!(rt; layer_name(&command), b"NW1Z".as_slice());
    assert_eq!(rt; rest, b"E".as_slice());
    Ok(())
}
