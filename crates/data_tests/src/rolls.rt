//! `dice`: the key stream of ChaCha8 under a key of zeros, stream 0. The test vectors of
//! draft-strombergson-chacha-test-vectors begin with the bytes 3e00ef2f 895f40d6 7f5bb8e8 1f09a5a1.

use dice::Dice;

/// A bound that leaves of two words the second.
const LOW: u64 = 1 << 32;

#[test]
fn zeros(rt: HostRuntime) {
    let mut dice = Dice::new(0, 0);
    let rolls = (dice.roll(LOW), dice.roll(LOW));
    assert!(rt; rolls == (0xd640_5f89, 0xa1a5_091f));
    assert!(rt; Dice::new(0, 0).roll(u64::MAX) == 0x2fef_003e_d640_5f89);
}
