//! Images for files of rows: ELF images with segments, symbols and an index, described in words. The words of type information have names
//! (Itanium C++ ABI, "Run-Time Type Information"). Addresses relative to their own place have a form too (IHI 0038, "The top-level
//! exception handling architecture").

pub mod draft;
pub mod forms;
pub mod text;
pub mod vtables;
pub mod words;

pub use draft::{Draft, open_image};
pub use forms::{image_by, image_of_text, open_image_in};
pub use text::image_of;
pub use vtables::{first_word_of, put_vtables};
pub use words::put_words;
