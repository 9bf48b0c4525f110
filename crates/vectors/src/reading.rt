// Files that read well, and files that are refused: number and place of every refusal.
use policy::{Attribute, Commands, Row, check, nationality};
use std::alloc::Global;
use std::process::Abort;
use std::test::Fail;

// What a file comes to: its number of pairs, or the refusal's number and place.
type Reading = Result<u8, (u8, usize)>;

// A file, and what it comes to.
struct Case {
    file: &'static [u8],
    reading: Reading,
}

fn comes_to(rt: &impl Abort, file: &[u8], reading: Reading) {
    let answer = check(file).map_err(|fault| (fault.number(), fault.place()));
    assert_eq!(rt; answer, reading);
}

// The nationality file with one byte changed.
fn with(heap: Global, place: usize, byte: u8) -> Result<Vec<u8>, Fail> {
    let mut file = nationality().to_vec(heap)?;
    if let Some(there) = file.get_mut(place) {
        *there = byte;
    }
    Ok(file)
}

#[test]
fn damaged_nationality_files(rt: HostRuntime) -> Result<(), Fail> {
    let heap = rt.alloc();
    let file = nationality();
    comes_to(&rt, file, Ok(2));
    comes_to(&rt, &file[0..28], Err((4, 28)));
    comes_to(&rt, &file[0..3], Err((3, 3)));
    comes_to(&rt, &file[0..0], Err((3, 0)));
    comes_to(&rt, &file[0..5], Err((4, 5)));
    comes_to(&rt, &file[0..14], Err((4, 14)));
    comes_to(&rt, &file[0..15], Err((4, 15)));
    let mut longer = file.to_vec(heap)?;
    longer.push(0)?;
    comes_to(&rt, longer.as_slice(), Err((10, 29)));
    comes_to(&rt, with(heap, 17, 3)?.as_slice(), Err((7, 15)));
    comes_to(&rt, with(heap, 14, 0x30)?.as_slice(), Ok(48));
    comes_to(&rt, with(heap, 14, 0x31)?.as_slice(), Err((7, 5)));
    comes_to(&rt, with(heap, 14, 0)?.as_slice(), Err((7, 5)));
    comes_to(&rt, with(heap, 14, 1)?.as_slice(), Err((7, 22)));
    comes_to(&rt, with(heap, 6, 0)?.as_slice(), Err((7, 5)));
    Ok(())
}

#[test]
fn damaged_commands(rt: HostRuntime) -> Result<(), Fail> {
    let heap = rt.alloc();
    comes_to(&rt, with(heap, 4, 2)?.as_slice(), Err((3, 4)));
    comes_to(&rt, with(heap, 15, 0)?.as_slice(), Err((5, 15)));
    comes_to(&rt, with(heap, 20, 0x58)?.as_slice(), Err((6, 20)));
    comes_to(&rt, with(heap, 20, 0x67)?.as_slice(), Err((8, 20)));
    comes_to(&rt, with(heap, 27, 0x20)?.as_slice(), Err((7, 26)));
    comes_to(&rt, with(heap, 7, 0x7f)?.as_slice(), Err((7, 5)));
    comes_to(&rt, with(heap, 8, 0x20)?.as_slice(), Err((7, 5)));
    comes_to(&rt, with(heap, 10, 0x21)?.as_slice(), Err((7, 5)));
    Ok(())
}

#[test]
fn the_longest_file(rt: HostRuntime) -> Result<(), Fail> {
    let heap = rt.alloc();
    let long = vec![in heap; 0; 65536]?;
    comes_to(&rt, long.as_slice(), Err((2, 0)));
    comes_to(&rt, &long.as_slice()[0..65535], Err((3, 0)));
    Ok(())
}

// Each of these files is short enough to be read by eye; the opening is the first five bytes of each.
const CASES: [Case; 19] = [
    // the end with nothing on the stack
    Case {
        file: b"PTAC\x01.",
        reading: Err((10, 5)),
    },
    // a target at the end
    Case {
        file: b"PTAC\x01Aa\0\0\0\0\0\0\0\x01t\0.",
        reading: Err((10, 17)),
    },
    // the same name twice
    Case {
        file: b"PTAC\x01Aa\0\0\0\0\0\0\0\x01Aa\0\0\0\0\0\0\0\x01",
        reading: Err((7, 15)),
    },
    // a digit above 2
    Case {
        file: b"PTAC\x01O\0\0\0\0\0\0\0\0\x03",
        reading: Err((7, 5)),
    },
    // the own operator 21 where only 20 is declared
    Case {
        file: b"PTAC\x01O\0\0\0\0\0\0\0\0\01b\x21",
        reading: Err((7, 16)),
    },
    // a code between the standard operators and the own ones, on an empty stack: 7 comes before 8
    Case {
        file: b"PTAC\x01b\x16",
        reading: Err((7, 5)),
    },
    // a guard over two policies
    Case {
        file: b"PTAC\x0111g",
        reading: Err((8, 7)),
    },
    // a policy below a target
    Case {
        file: b"PTAC\x01Aa\0\0\0\0\0\0\0\x011t\0g",
        reading: Err((8, 18)),
    },
    // a target and a policy combined
    Case {
        file: b"PTAC\x01Aa\0\0\0\0\0\0\0\x01t\01b\x10",
        reading: Err((8, 18)),
    },
    // nothing to change
    Case {
        file: b"PTAC\x01n\0",
        reading: Err((8, 5)),
    },
    // a one-operand code above 2
    Case {
        file: b"PTAC\x011n\x03",
        reading: Err((7, 6)),
    },
    // an attribute after a policy, which is also cut short: 6 comes before 4
    Case {
        file: b"PTAC\x011A",
        reading: Err((6, 6)),
    },
    // a pair that excludes itself
    Case {
        file: b"PTAC\x01Aa\0\0\0\0\0\0\0\x02X\x01\x01",
        reading: Err((7, 15)),
    },
    // no such attribute
    Case {
        file: b"PTAC\x01Aa\0\0\0\0\0\0\0\x02L\x01\0",
        reading: Err((7, 15)),
    },
    // seventeen items
    Case {
        file: b"PTAC\x0111111111111111111",
        reading: Err((9, 21)),
    },
    Case {
        file: b"PTAC\x011.",
        reading: Ok(0),
    },
    // sixteen items, and then fifteen combinations
    Case {
        file: b"PTAC\x011111111111111111b\x10b\x10b\x10b\x10b\x10b\x10b\x10b\x10b\x10b\x10b\x10b\x10b\x10b\x10b\x10.",
        reading: Ok(0),
    },
    // a name of eight letters, and a limit that is the count
    Case {
        file: b"PTAC\x01Aabcdefgh\x03M\0\x030.",
        reading: Ok(3),
    },
    // an own operator in use
    Case {
        file: b"PTAC\x01O\0\0\0\0\0\0\0\0\010b\x20.",
        reading: Ok(0),
    },
];

#[test]
fn small_files(rt: HostRuntime) {
    for case in &CASES {
        comes_to(&rt, case.file, case.reading);
    }
}

#[test]
fn nine_own_operators(rt: HostRuntime) -> Result<(), Fail> {
    let mut file = b"PTAC\x01".to_vec(rt.alloc())?;
    for _ in 0..9 {
        file.extend_from_slice(b"O\0\0\0\0\0\0\0\0\0")?;
    }
    comes_to(&rt, file.as_slice(), Err((7, 85)));
    Ok(())
}

// A second pass meets a command at each of these places, the last of them the end, and then no more.
#[test]
fn commands_of_the_nationality_file(rt: HostRuntime) {
    let mut commands = Commands::of(nationality());
    for place in [5, 15, 18, 20, 21, 22, 24, 25, 26, 28] {
        assert_eq!(rt; commands.reader().place(), place);
        let ends = commands.next().map(|command| command.is_end());
        assert_eq!(rt; ends, Some(place == 28));
    }
    assert_eq!(rt; commands.next(), None);
}

// What the declarations of a file say: its attributes by number and by pair, and its operators by code.
#[test]
fn declarations(rt: HostRuntime) {
    let file = b"PTAC\x01Aa\0\0\0\0\0\0\0\x02Abcdefghi\x03O\x02\0\0\0\x01\0\0\0\x021.";
    let mut commands = Commands::of(file);
    for _ in 0..3 {
        let _ = commands.next();
    }
    let reader = commands.reader();
    assert_eq!(rt; reader.pairs(), 5);
    let second = Attribute {
        name: b"bcdefghi",
        start: 2,
        count: 3,
    };
    assert_eq!(rt; reader.attribute(1), Some(second));
    assert_eq!(rt; reader.attribute(2), None);
    assert_eq!(rt;
        reader.attribute_with(1).map(|attribute| attribute.start),
        Some(0)
    );
    assert_eq!(rt; reader.attribute_with(5), None);
    let own = Row {
        entries: [2, 0, 0, 0, 1, 0, 0, 0, 2],
    };
    assert_eq!(rt; reader.row(0x20), Some(own));
    assert_eq!(rt; reader.row(0x21), None);
}
