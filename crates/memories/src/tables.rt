// The bytes of a memory file, and the tables and the leftovers that they mean.
ghost use Rattle.std.specs.Prelude.{length, take, ◌≡◌};
ghost use Rattle.image.specs.Image.{plant_of, image_of, Sizes};
ghost use Rattle.memories.specs.Tables.{plant_in};

// The tables of a memory and the leftovers, in a memory file's sizes.
#[derive(Clone, Copy)]
pub struct Tables {
    pub x: [u8; 32],
    pub y: [u8; 32],
    pub m: [u8; 250],
    pub sm: [u8; 32],
    pub t: [u8; 32],
    pub d: [i16; 8000],
    pub tv: [i16; 256],
    pub rest: [u8; 2],
}

// Zeros, of which the length alone is told, so that no proof writes them out.
pub fn image() -> [u8; 16892]
    ensures { 16892 ≡ length result }
{
    [0; 16892]
}

// X, Y, SM and T contacts.
fn bits() -> [u8; 32]
    ensures { 32 ≡ length result }
{
    [0; 32]
}

fn m_bits() -> [u8; 250]
    ensures { 250 ≡ length result }
{
    [0; 250]
}

fn d_words() -> [i16; 8000]
    ensures { 8000 ≡ length result }
{
    [0; 8000]
}

fn t_values() -> [i16; 256]
    ensures { 256 ≡ length result }
{
    [0; 256]
}

// The leftovers.
fn rest() -> [u8; 2]
    ensures { 2 ≡ length result }
{
    [0; 2]
}

// A memory file as it was read: the bytes at the start of the buffer.
pub fn start(buf: &[u8; 65536], image: &mut [u8; 16892])
    ensures { image.new ≡ take 16892 buf.now }
{
    image::fill_bytes(buf, image);
}

// The tables and the leftovers that the bytes mean.
pub fn split(image: &[u8; 16892]) -> Tables
    ensures value { plant_in result ≡ plant_of image.now }
    ensures back { image_of (plant_of image.now) ≡ image.now }
    ensures sizes { Sizes (plant_in result) }
{
    let mut x = bits();
    let mut y = bits();
    let mut m = m_bits();
    let mut sm = bits();
    let mut t = bits();
    let mut d = d_words();
    let mut tv = t_values();
    let mut rest = rest();
    image::split(
        image, &mut x, &mut y, &mut m, &mut sm, &mut t, &mut d, &mut tv, &mut rest,
    );
    Tables {
        x,
        y,
        m,
        sm,
        t,
        d,
        tv,
        rest,
    }
}

// The bytes that mean them.
pub fn join(tables: Tables, image: &mut [u8; 16892])
    ensures image_after { image.new ≡ image_of (plant_in tables) }
    ensures value { plant_of image.new ≡ plant_in tables }
{
    let t = tables;
    image::join(&t.x, &t.y, &t.m, &t.sm, &t.t, &t.d, &t.tv, &t.rest, image);
}
