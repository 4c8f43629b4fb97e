//! Builds images from sources in data/.
use std::fs;
use test_rows::Unanswered;
use test_rows::sources::image_of_sources;

/// The bytes of the image of the sources with these names in a folder, and of the stubs.
pub fn build_sources(host: &HostRuntime, folder: &str, names: &str) -> Result<Vec<u8>, Unanswered> {
    let mut texts = Vec::new(host.alloc());
    for name in names.split(' ') {
        let path = format!(in host.alloc(); "{folder}{name}")?;
        texts.push(fs::read_to_string(host, path.as_str())?)?;
    }
    match image_of_sources(host.alloc(), texts.as_slice()) {
        Some(file) => Ok(file),
        None => Err(Unanswered::NotKnown),
    }
}
