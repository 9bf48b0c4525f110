// Times building, closing and counting in a table of 65,536 nodes with a memo of 4,096 entries. The figures go to standard
// error. The diagrams and the state of the random numbers are lent side by side, and are no one value: some functions here take
// only the one or the other.
#![tactic(auto)]

use anyhow::anyhow;
use diagram::{DecisionSets, Diagrams, Kind, Node, Refusal, Rule, Truth};
use std::time::Instant;

const NODES: usize = 65_536;

const ENTRIES: usize = 4_096;

// How many standing nodes are asked for again at each mark.
const ASKED: u32 = 200_000;

// Rules on the codes 0 and 1.
const AND: Rule = Rule::Two([0, 0, 0, 0, 1, 0, 0, 0, 0]);

const OR: Rule = Rule::Two([0, 1, 0, 1, 1, 0, 0, 0, 0]);

const XOR: Rule = Rule::Two([0, 1, 0, 1, 0, 0, 0, 0, 0]);

// Sets of one decision: not applicable where the first is 0, else deny or allow as the second is 0 or 1.
const DECIDE: Rule = Rule::Two([4, 4, 0, 1, 2, 0, 0, 0, 0]);

// The bits of a random number that make a pair absent: in one of two draws, or in seven of eight.
const HALF_ABSENT: u32 = 1;

const MOSTLY_ABSENT: u32 = 7;

// How many nodes a diagram is to have at least that is closed and counted.
const LARGE: usize = 3_000;

// Each closing and count is done so often, and the best time stands.
const RUNS: u32 = 9;

// What a refusal here comes from: pairs are in order, and references stand. By hand, since `?` asks refusals to print, and what
// they print no contract could say.
fn full(_refusal: Refusal) -> anyhow::Error {
    anyhow!("the table is full")
}

// The next number of a linear congruential generator; its high bits are the random ones. The tests have their
// own, and rules and a parity too: a program does not stand on them.
fn random(state: &mut u64) -> u32 {
    *state = state
        .wrapping_mul(6_364_136_223_846_793_005)
        .wrapping_add(1_442_695_040_888_963_407);
    (*state >> 40) as u32
}

// The parity of all 48 pairs.
fn parity(diagrams: &mut Diagrams) -> Result<u32, Refusal> {
    let mut odd = 0;
    for pair in (0..48).rev() {
        let present = diagrams.make(Node {
            pair,
            low: 0,
            high: 1,
        })?;
        odd = diagrams.combine(XOR, present, odd)?;
    }
    Ok(odd)
}

// A random pair, as present where these bits of a random number are 0, else as absent.
fn literal(diagrams: &mut Diagrams, state: &mut u64, bits: u32) -> Result<u32, Refusal> {
    let pair = random(state) % 48;
    let absent = (random(state) & bits).min(1);
    diagrams.make(Node {
        pair,
        low: absent,
        high: 1 - absent,
    })
}

// A random disjunction of three.
fn any_of_three(diagrams: &mut Diagrams, state: &mut u64, bits: u32) -> Result<u32, Refusal> {
    let mut either = literal(diagrams, state, bits)?;
    for _ in 0..2 {
        let other = literal(diagrams, state, bits)?;
        either = diagrams.combine(OR, either, other)?;
    }
    Ok(either)
}

// A random disjunction of three, and-ed or or-ed onto a diagram.
fn clause(diagrams: &mut Diagrams, state: &mut u64, onto: u32) -> Result<u32, Refusal> {
    let either = any_of_three(diagrams, state, HALF_ABSENT)?;
    let rule = if random(state) % 8 == 0 { OR } else { AND };
    diagrams.combine(rule, onto, either)
}

// Random diagrams until so many nodes are in use or the table is full; how many combinations that took.
fn family(diagrams: &mut Diagrams, state: &mut u64, mark: usize) -> u64 {
    let mut combinations = 0u64;
    let mut onto = 1;
    for _ in 0..1_000_000 {
        if diagrams.len() >= mark {
            break;
        }
        match clause(diagrams, state, onto) {
            Ok(next) => onto = if next < 2 { 1 } else { next },
            Err(_) => onto = 1,
        }
        combinations = combinations.wrapping_add(3);
    }
    combinations
}

// How many there were in a second.
fn rate(count: u64, nanoseconds: u128) -> u128 {
    if nanoseconds == 0 {
        return 0;
    }
    u128::from(count).wrapping_mul(1_000_000_000) / nanoseconds
}

fn time_parity(rt: &HostRuntime, diagrams: &mut Diagrams) -> anyhow::Result<()> {
    let start = Instant::now(rt)?;
    let built = parity(diagrams).is_ok();
    let taken = start.elapsed(rt)?.as_nanos();
    let nodes = diagrams.len();
    eprintln!(rt; "parity of 48 pairs: built {built}, {nodes} nodes, {taken} ns")?;
    Ok(())
}

fn time_family(
    rt: &HostRuntime,
    diagrams: &mut Diagrams,
    state: &mut u64,
    mark: usize,
) -> anyhow::Result<()> {
    let before = diagrams.len();
    let start = Instant::now(rt)?;
    let combinations = family(diagrams, state, mark);
    let taken = start.elapsed(rt)?.as_nanos();
    let after = diagrams.len();
    let nodes = rate(after.saturating_sub(before) as u64, taken);
    let steps = rate(combinations, taken);
    eprintln!(rt; "nodes {before} to {after}: {nodes} nodes and {steps} combinations in a second")?;
    Ok(())
}

// How many nodes are made over one pair; the last pair has only leaves below it, and gets fewer.
const BAND: usize = 1_400;

const FIRST_BAND: usize = 50;

// A random node for a table of so many nodes: its parts are nodes of the bands before, which test later pairs.
fn next_node(state: &mut u64, made: usize) -> Node {
    if made < FIRST_BAND {
        return Node {
            pair: 47,
            low: random(state) % 8,
            high: random(state) % 8,
        };
    }
    let band = ((made - FIRST_BAND) / BAND).min(46);
    let below = (8 + FIRST_BAND + BAND * band) as u32;
    Node {
        pair: 46 - band as u32,
        low: random(state) % below,
        high: random(state) % below,
    }
}

// Makes random nodes until so many are in use, and keeps each.
fn grow(
    diagrams: &mut Diagrams,
    nodes: &mut Vec<Node>,
    state: &mut u64,
    mark: usize,
) -> anyhow::Result<()> {
    for _ in 0..1_000_000 {
        let made = diagrams.len();
        if made >= mark {
            break;
        }
        let node = next_node(state, made);
        if diagrams.make(node).is_ok() {
            nodes.push(node)?;
        }
    }
    Ok(())
}

// Asks for nodes that stand already.
fn ask(diagrams: &mut Diagrams, nodes: &[Node], state: &mut u64) -> u32 {
    let mut found = 0u32;
    for _ in 0..ASKED {
        if nodes.is_empty() {
            break;
        }
        let i = random(state) as usize % nodes.len();
        if diagrams.make(nodes[i]).is_ok() {
            found = found.wrapping_add(1);
        }
    }
    found
}

fn time_make(
    rt: &HostRuntime,
    diagrams: &mut Diagrams,
    nodes: &mut Vec<Node>,
    state: &mut u64,
    mark: usize,
) -> anyhow::Result<()> {
    grow(diagrams, nodes, state, mark)?;
    let start = Instant::now(rt)?;
    let found = ask(diagrams, nodes.as_slice(), state);
    let taken = start.elapsed(rt)?.as_nanos();
    let each = taken / u128::from(ASKED);
    let used = diagrams.len();
    eprintln!(rt;
        "{used} nodes in use: {each} ns for each make of a standing node, {found} asked"
    )?;
    Ok(())
}

// How many nodes the diagram alone has. A copy of it on the leaves 4 and 5 shares no node with what stands.
fn size(diagrams: &mut Diagrams, a: u32) -> usize {
    let before = diagrams.len();
    let _ = diagrams.change([4, 5, 0], a);
    let nodes = diagrams.len().saturating_sub(before);
    diagrams.roll_back(before);
    nodes
}

// A random conjunction of disjunctions, until it is large. Most pairs are asked to be absent: a diagram that asks for pairs
// closes to 1 nearly everywhere.
fn large(diagrams: &mut Diagrams, state: &mut u64) -> Result<u32, Refusal> {
    let mut all = 1;
    for _ in 0..48 {
        if size(diagrams, all) >= LARGE {
            break;
        }
        let either = any_of_three(diagrams, state, MOSTLY_ABSENT)?;
        all = diagrams.combine(AND, all, either)?;
    }
    Ok(all)
}

// Closes anew each time: what the run before built is taken away, which empties the memo too.
fn time_closing<K: Kind>(
    rt: &HostRuntime,
    diagrams: &mut Diagrams,
    kind: &str,
    a: u32,
    nodes: usize,
) -> anyhow::Result<()> {
    let before = diagrams.len();
    let mut after = before;
    let mut best = u128::MAX;
    let mut closed = true;
    for _ in 0..RUNS {
        let start = Instant::now(rt)?;
        closed = diagrams.close::<K>(a).is_ok();
        best = best.min(start.elapsed(rt)?.as_micros());
        after = diagrams.len();
        diagrams.roll_back(before);
    }
    eprintln!(rt;
        "closing {nodes} nodes by {kind}: closed {closed}, nodes {before} to {after}, {best} us"
    )?;
    Ok(())
}

fn time_count(
    rt: &HostRuntime,
    diagrams: &mut Diagrams,
    a: u32,
    nodes: usize,
) -> anyhow::Result<()> {
    let used = diagrams.len();
    let mut best = u128::MAX;
    let mut counted = 0;
    for _ in 0..RUNS {
        let start = Instant::now(rt)?;
        counted = diagrams.count(48, a).unwrap_or(0);
        best = best.min(start.elapsed(rt)?.as_micros());
    }
    eprintln!(rt; "counting {nodes} nodes: {counted} queries, {used} nodes in use, {best} us")?;
    Ok(())
}

fn time_large(rt: &HostRuntime, diagrams: &mut Diagrams, state: &mut u64) -> anyhow::Result<()> {
    let truth = large(diagrams, state).map_err(full)?;
    let nodes = size(diagrams, truth);
    time_count(rt, diagrams, truth, nodes)?;
    time_closing::<Truth>(rt, diagrams, "truth", truth, nodes)?;
    let allowed = any_of_three(diagrams, state, HALF_ABSENT).map_err(full)?;
    let mark = diagrams.len();
    let sets = diagrams.combine(DECIDE, truth, allowed).map_err(full)?;
    let nodes = diagrams.len().saturating_sub(mark);
    time_closing::<DecisionSets>(rt, diagrams, "decision sets", sets, nodes)
}

fn run(rt: &HostRuntime) -> anyhow::Result<()> {
    let heap = rt.alloc();
    let mut words = vec![in heap; 0u32; 7 * NODES]?;
    let mut memo = vec![in heap; 0u32; 4 * ENTRIES]?;
    let mut state = 1;
    let mut diagrams = Diagrams::open(words.as_mut_slice(), memo.as_mut_slice());
    time_parity(rt, &mut diagrams)?;
    for mark in [1_000, 10_000, 30_000, 60_000] {
        time_family(rt, &mut diagrams, &mut state, mark)?;
    }
    diagrams.roll_back(0);
    let mut nodes = Vec::new(heap);
    for mark in [1_000, 10_000, 30_000, 60_000] {
        time_make(rt, &mut diagrams, &mut nodes, &mut state, mark)?;
    }
    diagrams.roll_back(0);
    time_large(rt, &mut diagrams, &mut state)
}

fn main(rt: HostRuntime) -> anyhow::Result<()> {
    run(&rt)
}
