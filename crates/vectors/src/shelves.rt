// A bench that was just opened: every call is refused, with the layer, number and place that the documents give.
use bench::{Bench, Fault};
use source::Card;
use std::process::Abort;
use std::test::Fail;

// The memory of a bench with room for two nodes and one memo entry, with something in it already.
const NODES: [u32; 14] = [7; 14];

const MEMO: [u32; 4] = [7; 4];

// Refused by the bench, layer 3, at this shelf.
fn refused<T: Drop>(
    rt: &impl Abort,
    answer: Result<T, Fault>,
    number: u8,
    shelf: u8,
) -> Result<(), Fail> {
    match answer {
        Ok(_) => Err(Fail::new("it is answered")),
        Err(fault) => {
            assert_eq!(rt; fault.layer(), 3);
            assert_eq!(rt; fault.number(), number);
            assert_eq!(rt; fault.place(), usize::from(shelf));
            assert_eq!(rt; fault.shelf(), shelf);
            Ok(())
        }
    }
}

// Shelves 0 to 3 are empty (22), and there are no others (1).
#[test]
fn calls_on_a_fresh_bench(rt: HostRuntime) -> Result<(), Fail> {
    let mut nodes = NODES;
    let mut memo = MEMO;
    let mut bench = Bench::open(&mut nodes, &mut memo);
    let card = Card { pairs: 5, label: 0 };
    for (shelf, number) in [(0, 22), (1, 22), (2, 22), (3, 22), (4, 1), (255, 1)] {
        refused(&rt, bench.decide(shelf, &card), number, shelf)?;
        refused(&rt, bench.extend(shelf, &card), number, shelf)?;
        refused(&rt, bench.reach(shelf, &card), number, shelf)?;
        refused(&rt, bench.root(shelf), number, shelf)?;
        refused(&rt, bench.close(shelf), number, shelf)?;
        refused(&rt, bench.drop_shelf(shelf), number, shelf)?;
    }
    Ok(())
}
