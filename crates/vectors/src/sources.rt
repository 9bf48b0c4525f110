// What sources tell, alone and in piles.
use source::{Card, Joint, Shutter, Slip, Source, Strainer, query_of};
use std::process::Abort;

#[test]
fn a_joint_takes_the_first_label(rt: HostRuntime) {
    let joint = Joint {
        first: Slip::of(&[1, 7]),
        second: Card { pairs: 2, label: 3 },
    };
    assert_eq!(rt; joint.label(1), Some(7));
    let strainer = Strainer {
        labels: &[3],
        below: joint,
    };
    assert_eq!(rt; strainer.label(1), None);
    assert_eq!(rt; strainer.tells(1), false);
}

#[test]
fn a_slip_skips_what_is_no_entry(rt: HostRuntime) {
    assert_eq!(rt; Slip::of(&[]).label(0), None);
    // an odd last byte, and an entry for a pair that there is not
    let slip = Slip::of(&[47, 9, 48, 8, 47, 1, 5]);
    assert_eq!(rt; slip.label(47), Some(9));
    assert_eq!(rt; slip.label(48), None);
    assert_eq!(rt; slip.tells(48), false);
    assert_eq!(rt; slip.tells(5), false);
}

#[test]
fn a_card_ends_at_pair_47(rt: HostRuntime) {
    let card = Card {
        pairs: u64::MAX,
        label: 0,
    };
    assert_eq!(rt; card.label(47), Some(0));
    assert_eq!(rt; card.label(48), None);
    assert_eq!(rt; card.tells(255), false);
    assert_eq!(rt; query_of(&card, 255), 0xffff_ffff_ffff);
    assert_eq!(rt; query_of(&card, 3), 7);
    assert_eq!(rt; query_of(&card, 0), 0);
}

// A shutter over a strainer over a joint of a slip and a card: pair 0 is hidden, pair 1 has label 7 from the slip,
// pair 2 has label 3 from the card, and pair 3 has label 9, which the strainer does not list among its first eight.
#[test]
fn a_pile_four_deep(rt: HostRuntime) {
    let pile = Shutter {
        hidden: 1,
        below: Strainer {
            labels: &[7, 3, 3, 3, 3, 3, 3, 3, 9],
            below: Joint {
                first: Slip::of(&[1, 7, 3, 9]),
                second: Card {
                    pairs: 0b111,
                    label: 3,
                },
            },
        },
    };
    assert_eq!(rt; pile.label(0), None);
    assert_eq!(rt; pile.label(1), Some(7));
    assert_eq!(rt; pile.label(2), Some(3));
    assert_eq!(rt; pile.label(3), None);
    assert_eq!(rt; query_of(&pile, 48), 0b110);
    assert_eq!(rt; query_of(&pile, 2), 0b10);
}

// A second reading of the bytes: entries from the last to the first, so that the first of a pair stays.
fn read_backwards(bytes: &[u8]) -> [Option<u8>; 48] {
    let mut labels = [None; 48];
    for &[pair, label] in bytes.as_chunks::<2>().0.iter().rev() {
        if let Some(first) = labels.get_mut(pair as usize) {
            *first = Some(label);
        }
    }
    labels
}

// Bytes of a linear congruential generator, each below 64.
fn random_bytes(state: &mut u32) -> [u8; 64] {
    let mut bytes = [0u8; 64];
    for byte in bytes.iter_mut() {
        *state = state.wrapping_mul(1_664_525).wrapping_add(1_013_904_223);
        *byte = (*state >> 24 & 0x3f) as u8;
    }
    bytes
}

fn reads_alike(rt: &impl Abort, bytes: &[u8]) {
    let slip = Slip::of(bytes);
    let labels = read_backwards(bytes);
    for (pair, label) in (0..48u8).zip(labels) {
        assert_eq!(rt; slip.label(pair), label);
        assert_eq!(rt; slip.tells(pair), label.is_some());
    }
    assert_eq!(rt; slip.label(63), None);
}

#[test]
fn random_slips(rt: HostRuntime) {
    let mut state = 1;
    for length in 0..64 {
        let bytes = random_bytes(&mut state);
        reads_alike(&rt, &bytes[0..length]);
    }
}
