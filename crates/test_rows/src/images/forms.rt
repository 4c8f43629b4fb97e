//! Images from growing texts, and from forms with pieces. Why there is no image is kept in the answer.
use crate::Text;
use crate::images::draft::open_image;
use crate::images::text::image_of;
use elf_image::image::Image;

/// The file of the image that a text describes; None if there is none.
pub fn image_of_text(answer: &mut Text, image: Text) -> Option<Vec<u8>> {
    let image = answer.taken(image.finish())?;
    let file = image_of(answer.alloc(), image.as_str());
    answer.taken(file)
}

/// The file of the image that a form describes, with pieces in place of its `{}`; None if there is none.
pub fn image_by(answer: &mut Text, form: &str, pieces: &[&str]) -> Option<Vec<u8>> {
    let mut image = Text::new(answer.alloc());
    image.fill(form, pieces);
    image_of_text(answer, image)
}

/// The image in a file; None if it can't be read.
pub fn open_image_in<'a>(answer: &mut Text, file: &'a [u8]) -> Option<Image<'a>> {
    let image = open_image(answer.alloc(), file);
    answer.taken(image)
}
