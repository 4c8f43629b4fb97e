//! Names.
use eh_word::Name;
use std::test::Fail;

#[test]
fn names_are_their_bytes(rt: HostRuntime) -> Result<(), Fail> {
    let name = Name::of(rt.alloc(), b"main")?;
    assert_eq!(rt; name.bytes(), b"main".as_slice());
    let copy = Name::of_vec(b"main".to_vec(rt.alloc())?);
    assert!(rt; name == copy);
    Ok(())
}
