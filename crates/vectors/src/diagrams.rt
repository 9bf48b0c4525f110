// Diagrams in small tables.
use diagram::{Diagrams, Node, Refusal, Rule};
use std::test::Fail;

// Rules on the codes 0 and 1.
const NOT: Rule = Rule::One([1, 0, 2]);

const AND: Rule = Rule::Two([0, 0, 0, 0, 1, 0, 0, 0, 0]);

const OR: Rule = Rule::Two([0, 1, 0, 1, 1, 0, 0, 0, 0]);

const XOR: Rule = Rule::Two([0, 1, 0, 1, 0, 0, 0, 0, 0]);

// Present where the pair is.
pub(crate) fn present(diagrams: &mut Diagrams, pair: u32) -> Result<u32, Refusal> {
    diagrams.make(Node {
        pair,
        low: 0,
        high: 1,
    })
}

// Whether the negation of a conjunction is the disjunction of the negations.
fn de_morgan(diagrams: &mut Diagrams) -> Result<bool, Refusal> {
    let a = present(diagrams, 3)?;
    let b = present(diagrams, 5)?;
    let both = diagrams.combine(AND, a, b)?;
    let left = diagrams.combine(NOT, both, 0)?;
    let not_a = diagrams.combine(NOT, a, 0)?;
    let not_b = diagrams.combine(NOT, b, 0)?;
    let right = diagrams.combine(OR, not_a, not_b)?;
    Ok(left == right)
}

#[test]
fn equal_functions_have_one_reference(rt: HostRuntime) {
    let mut words = [u32::MAX; 140];
    let mut memo = [u32::MAX; 28];
    let mut diagrams = Diagrams::open(&mut words, &mut memo);
    assert_eq!(rt; de_morgan(&mut diagrams), Ok(true));
}

// The parity of six pairs; every pair below the first has an odd and an even node.
fn parity(diagrams: &mut Diagrams) -> Result<u32, Refusal> {
    let mut odd = 0;
    for pair in 0..6 {
        let one = present(diagrams, pair)?;
        odd = diagrams.combine(XOR, odd, one)?;
    }
    Ok(odd)
}

#[test]
fn the_memo_does_not_show(rt: HostRuntime) {
    let mut words = [0; 700];
    let mut none = [];
    let first = parity(&mut Diagrams::open(&mut words, &mut none));
    let mut one = [9; 4];
    assert_eq!(rt; parity(&mut Diagrams::open(&mut words, &mut one)), first);
    let mut seven = [1; 28];
    assert_eq!(rt; parity(&mut Diagrams::open(&mut words, &mut seven)), first);
}

#[test]
fn refusals(rt: HostRuntime) {
    let mut words = [5; 13];
    let mut memo = [];
    let mut diagrams = Diagrams::open(&mut words, &mut memo);
    // 13 words are one node
    assert_eq!(rt; present(&mut diagrams, 7), Ok(8));
    assert_eq!(rt; present(&mut diagrams, 7), Ok(8));
    assert_eq!(rt; present(&mut diagrams, 6), Err(Refusal::Full));
    assert_eq!(rt; diagrams.len(), 1);
    let equal_parts = Node {
        pair: 6,
        low: 8,
        high: 8,
    };
    assert_eq!(rt; diagrams.make(equal_parts), Ok(8));
    let unknown = Node {
        pair: 6,
        low: 9,
        high: 0,
    };
    assert_eq!(rt; diagrams.make(unknown), Err(Refusal::Unknown));
    let not_before = Node {
        pair: 7,
        low: 8,
        high: 0,
    };
    assert_eq!(rt; diagrams.make(not_before), Err(Refusal::Unordered));
    assert_eq!(rt; present(&mut diagrams, 48), Err(Refusal::Unordered));
    assert_eq!(rt; diagrams.fix(7, 8), Ok(1));
    diagrams.roll_back(0);
    assert_eq!(rt; diagrams.len(), 0);
    assert_eq!(rt; present(&mut diagrams, 6), Ok(8));
}

// What a diagram comes to where just these pairs are present.
fn value_at(
    diagrams: &Diagrams,
    first: bool,
    second: bool,
    reference: u32,
) -> Result<u32, Refusal> {
    let mut query = [false; 48];
    query[3] = first;
    query[5] = second;
    diagrams.value(query, reference)
}

// Deny overrides, on the codes of decisions: 0 deny, 1 allow, 2 not applicable.
#[test]
fn values_of_deny_overrides(rt: HostRuntime) -> Result<(), Fail> {
    let mut words = [0; 140];
    let mut memo = [0; 16];
    let mut diagrams = Diagrams::open(&mut words, &mut memo);
    let allow = diagrams.make(Node {
        pair: 3,
        low: 2,
        high: 1,
    })?;
    let deny = diagrams.make(Node {
        pair: 5,
        low: 2,
        high: 0,
    })?;
    let both = diagrams.combine(Rule::Two([0, 0, 0, 0, 1, 1, 0, 1, 2]), allow, deny)?;
    assert_eq!(rt; value_at(&diagrams, false, false, both), Ok(2));
    assert_eq!(rt; value_at(&diagrams, true, false, both), Ok(1));
    assert_eq!(rt; value_at(&diagrams, false, true, both), Ok(0));
    assert_eq!(rt; value_at(&diagrams, true, true, both), Ok(0));
    Ok(())
}
