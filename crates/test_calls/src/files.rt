//! Files of the system as the program reads them (docs/rules/memory.md).
use eh_port::{FileAnswer, FileFault, Files, HostFiles};
use std::alloc::{AllocError, Global};
use std::fs;
use std::test::Fail;

/// The number of bytes of a file that are read at a time.
const BLOCK: usize = 4096;

/// Bytes in blocks, each of which begins with its own number.
fn numbered_blocks(alloc: Global, count: usize) -> Result<Vec<u8>, AllocError> {
    let mut bytes = Vec::new(alloc);
    for at in 0..count {
        let number = if at % BLOCK == 0 {
            at / BLOCK + 1
        } else {
            at % 251
        };
        bytes.push((number % 256) as u8)?;
    }
    Ok(bytes)
}

/// Whether the answer is a file with these bytes.
fn is_found(answer: &Result<FileAnswer, FileFault>, bytes: &[u8]) -> bool {
    match answer {
        Ok(FileAnswer::Found(found)) => found.as_slice() == bytes,
        Ok(FileAnswer::Missing | FileAnswer::TooLong) | Err(_) => false,
    }
}

/// Files of the system; no call has failed yet.
fn host_files(rt: &HostRuntime) -> HostFiles<&HostRuntime> {
    HostFiles {
        host: rt,
        faults: 0,
        asked: 0,
    }
}

/// Whether a file is found with these bytes, if at most `most` are allowed.
fn finds(rt: &HostRuntime, name: &str, bytes: &[u8], most: usize) -> bool {
    let mut files = host_files(rt);
    let answer = files.read(rt.alloc(), name, most);
    is_found(&answer, bytes) && files.faults == 0
}

/// Whether a file is longer than `most` bytes.
fn is_longer(rt: &HostRuntime, name: &str, most: usize) -> bool {
    let mut files = host_files(rt);
    let answer = files.read(rt.alloc(), name, most);
    matches!(&answer, Ok(FileAnswer::TooLong)) && files.faults == 0
}

/// Whether there is no file with this name, and no call failed.
fn misses(rt: &HostRuntime, name: &str) -> bool {
    let mut files = host_files(rt);
    let answer = files.read(rt.alloc(), name, BLOCK);
    matches!(&answer, Ok(FileAnswer::Missing)) && files.faults == 0
}

#[test]
fn a_file_is_its_bytes_up_to_the_limit(rt: HostRuntime) -> Result<(), Fail> {
    let name = "a_file_of_calls_test";
    for count in [
        1usize,
        BLOCK - 1,
        BLOCK,
        BLOCK + 1,
        2 * BLOCK,
        10_000,
        1_048_576,
    ] {
        let bytes = numbered_blocks(rt.alloc(), count)?;
        fs::write(&rt, name, bytes.as_slice())?;
        let whole = finds(&rt, name, bytes.as_slice(), count);
        let roomy = finds(&rt, name, bytes.as_slice(), count + 1);
        let short = is_longer(&rt, name, count - 1);
        fs::remove_file(&rt, name)?;
        assert!(rt; whole, "{count} of {count} bytes");
        assert!(rt; roomy, "{count} bytes and room");
        assert!(rt; short, "{count} bytes, one too many");
    }
    Ok(())
}

#[test]
fn a_file_without_bytes_is_found(rt: HostRuntime) -> Result<(), Fail> {
    let name = "an_empty_file_of_calls_test";
    fs::write(&rt, name, b"")?;
    let found = finds(&rt, name, b"", 0);
    fs::remove_file(&rt, name)?;
    assert!(rt; found);
    Ok(())
}

#[test]
fn a_missing_file_is_no_fault(rt: HostRuntime) {
    assert!(rt; misses(&rt, "no_file_of_calls_test"));
}

#[test]
fn a_path_through_a_file_is_missing(rt: HostRuntime) -> Result<(), Fail> {
    fs::write(&rt, "a_file_on_the_way_of_calls_test", b"")?;
    let through = misses(&rt, "a_file_on_the_way_of_calls_test/name");
    fs::remove_file(&rt, "a_file_on_the_way_of_calls_test")?;
    assert!(rt; through);
    Ok(())
}

/// A name that is longer than the system allows.
fn long_name(alloc: Global) -> Result<String, AllocError> {
    let mut long = String::new(alloc);
    for _ in 0..300 {
        long.push('n')?;
    }
    Ok(long)
}

#[test]
fn a_name_that_is_too_long_is_missing(rt: HostRuntime) -> Result<(), Fail> {
    let long = long_name(rt.alloc())?;
    assert!(rt; misses(&rt, long.as_str()));
    Ok(())
}

#[test]
fn a_folder_is_a_fault(rt: HostRuntime) {
    let mut files = host_files(&rt);
    let folder = files.read(rt.alloc(), ".", BLOCK);
    assert!(rt; matches!(&folder, Err(FileFault::Failed)));
    assert_eq!(rt; files.faults, 1);
}
