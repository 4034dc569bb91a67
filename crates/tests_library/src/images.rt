//! Images and their texts.
ghost use Rattle.machine_image.specs.Image.{IsInCore};

use crate::trial::Trial;
use autocoder_1401::{
    Image, ImageFault, PackedImage, ReadyImage, Segments, read_image, write_image, write_packed,
};
use console_1401::ToWriter;

/// The image of five and five, in either version.
pub const IMAGES: [&[u8]; 2] = [
    b"IMAGE2 04000\n00400 24 ~?423420~A423420~.414~   ~HI~E\nEND 00400\n",
    b"IMAGE1 4000\n0400 24 ~?423420~A423420~.414~   ~HI~E\nEND 0400\n",
];

/// Texts that are no image's.
pub const OTHERS: [&[u8]; 5] = [
    b"",
    b"IMAGE1 4001\n",
    b"IMAGE1 4000\n0400 25 ~?423420~A423420~.414~   ~HI~E\nEND 0400\n",
    b"IMAGE1 1400\n1399 02 AB\nEND 0000\n",
    b"IMAGE1 4000\n0400 24 ~?423420~A423420~.414~   ~HI~E\nEND 04",
];

/// Shows the text of an image.
pub fn show_image(trial: &mut Trial, image: &Image)
    requires { IsInCore image.now }
{
    match write_image(trial.alloc, image) {
        Ok(text) => trial.text(text.as_slice()),
        Err(_) => trial.refuse("for an image's text"),
    }
}

/// Shows the image of a text and the same of its segments, put together once more; or why there is none.
pub fn read(trial: &mut Trial, text: &[u8]) {
    match read_image(trial.alloc, text) {
        Ok(image) => {
            show_image(trial, &image);
            match Vec::from_slice(trial.alloc, image.segments.as_slice()) {
                Ok(segments) => {
                    let again = Segments::from_vec(segments);
                    let is_same = again.as_slice() == image.segments.as_slice();
                    trial.show(
                        "size, start, same segments",
                        &(image.size, image.start, is_same),
                    );
                }
                Err(_) => trial.refuse("for segments"),
            }
        }
        Err(ImageFault::Memory) => trial.refuse("for an image"),
        Err(fault) => trial.tell(format_args!("{} {fault:?}", fault.number())),
    }
}

/// Shows an image in few bytes, and its text.
pub fn show_packed(trial: &mut Trial, image: PackedImage) {
    let is_empty = image.segments().split_first().is_none();
    trial.show(
        "size, start, empty",
        &(image.size(), image.start(), is_empty),
    );
    match ReadyImage::reserve(trial.alloc, image) {
        Ok(ready) => {
            let written = write_packed(ready, &mut ToWriter::new(trial.output));
            trial.show("written", &written);
        }
        Err(_) => trial.refuse("for a page of an image"),
    }
}
