//! Lists, zeros, multiples and little-endian numbers.
use eh_word::Seq;
use eh_word::bytes::{next_multiple, push_half, push_word, push_zeros};
use std::test::Fail;

#[test]
fn elements_stand_in_order(rt: HostRuntime) -> Result<(), Fail> {
    let mut seq = Seq::new(rt.alloc());
    assert!(rt; seq.is_empty());
    seq.push(7u8)?;
    seq.extend_from_slice(&[8, 9])?;
    assert_eq!(rt; seq.as_slice(), [7u8, 8, 9].as_slice());
    assert_eq!(rt; seq.len(), 3);
    Ok(())
}

#[test]
fn vectors_are_kept(rt: HostRuntime) -> Result<(), Fail> {
    let kept = Seq::of_vec(b"ab".to_vec(rt.alloc())?);
    assert_eq!(rt; kept.as_slice(), b"ab".as_slice());
    assert_eq!(rt; kept.into_vec().as_slice(), b"ab".as_slice());
    Ok(())
}

#[test]
fn numbers_lie_lowest_byte_first(rt: HostRuntime) -> Result<(), Fail> {
    let mut bytes = Vec::new(rt.alloc());
    push_half(&mut bytes, 0x0201)?;
    push_zeros(&mut bytes, 2)?;
    push_word(&mut bytes, 0x0605_0403)?;
    assert_eq!(rt; bytes.as_slice(), [1u8, 2, 0, 0, 3, 4, 5, 6].as_slice());
    for (n, want) in [(0u64, 0u64), (1, 4), (4, 4), (5, 8)] {
        assert_eq!(rt; next_multiple(n, 4), want, "of {n}");
    }
    Ok(())
}
