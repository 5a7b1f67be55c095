// The image of the memory before a scan: made by a rule, then patched.
use cases::{drawing, octets, reading};

// As many bytes as the file says next are written over the image, each at its offset.
pub fn patch(fd: i32, b: &mut [u8]) {
    for _patch in 0..reading::u16_from(fd) {
        let at = reading::u16_from(fd);
        octets::put(b, at, reading::u8_from(fd));
    }
}

// Rule 6: the image as the case before left it.
pub fn image(fd: i32, b: &mut [u8; 16892], rule: u8) {
    let seed = reading::u32_from(fd);
    drawing::fill(b, 378, rule, seed as u32);
    patch(fd, b);
}
