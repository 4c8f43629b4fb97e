//! A sum that the core's instructions alone don't show, by hand from the manual's pseudocode (DDI 0419: AddWithCarry).
use thumb_core::arith::{Sum, add};

#[test]
fn sum_past_the_largest_signed_number(rt: HostRuntime) {
    let want = Sum {
        value: 0x8000_0000,
        carry: false,
        overflow: true,
    };
    assert_eq!(rt; add(0x7fff_ffff, 0, true), want);
}
