use bus_law::Mem;
use image_load::{ImageRefusal, load_raw};
use std::alloc::{AllocError, Global};

/// An image, the first address behind memory where it is too long, and the two words of a memory from 80000000 on behind the call.
const IMAGES: &[(&[u8], Option<u64>, u32, u32)] = &[
    (&[], None, 0, 0),
    (&[1, 2, 3, 4, 5, 6, 7], None, 0x0403_0201, 0x0007_0605),
    (&[1, 2, 3, 4, 5, 6, 7, 8], None, 0x0403_0201, 0x0807_0605),
    (&[1, 2, 3, 4, 5, 6, 7, 8, 9], Some(0x8000_0008), 0, 0),
];

/// Whether the call is refused at this address, or not at all, and leaves these two words.
fn loads(mut mem: Mem, image: &[u8], outside: Option<u64>, words: [(u32, u32); 2]) -> bool {
    let loaded = load_raw(image, &mut mem);
    let wanted = match outside {
        Some(addr) => Err(ImageRefusal::Outside { addr }),
        None => Ok(()),
    };
    let [(base, first), (behind, second)] = words;
    loaded == wanted && mem.word_at(base) == Some(first) && mem.word_at(behind) == Some(second)
}

/// Whether each image is loaded or refused as it is to be.
pub fn images_are_right(alloc: Global) -> Result<bool, AllocError> {
    for (image, outside, first, second) in IMAGES {
        let mem = Mem::new(alloc, 0x8000_0000, 8)?;
        let words = [(0x8000_0000, *first), (0x8000_0004, *second)];
        if !loads(mem, *image, *outside, words) {
            return Ok(false);
        }
    }
    // The last word of all ends behind the last address.
    let mem = Mem::new(alloc, 0xffff_fff8, 8)?;
    let words = [(0xffff_fff8, 0), (0xffff_fffc, 0)];
    let image = [1, 2, 3, 4, 5, 6, 7, 8, 9];
    Ok(loads(mem, &image, Some(0x1_0000_0000), words))
}
