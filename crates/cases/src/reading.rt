// Numbers as they follow in the file, the lowest byte first. A file that ends early reads as zeros, and then its cases differ.
ghost use Rattle.std.specs.Prelude.{◌^◌, ◌<◌, ◌≤◌};

pub fn u8_from(fd: i32) -> u8 {
    let mut b = [0u8; 1];
    io::read_full(fd, &mut b);
    b[0]
}

pub fn u16_from(fd: i32) -> usize
    ensures { result < 65536 }
{
    let mut b = [0u8; 2];
    io::read_full(fd, &mut b);
    records::u16_at(&b, 0)
}

pub fn u32_from(fd: i32) -> usize
    ensures { result < 2 ^ 32 }
{
    let mut b = [0u8; 4];
    io::read_full(fd, &mut b);
    records::u32_at(&b, 0)
}

// How many cases the file says that there are; none where it is no case file of this kind.
pub fn head(fd: i32, kind: usize) -> usize
    ensures { result < 2 ^ 32 }
{
    let mut h = [0u8; 12];
    let got = io::read_full(fd, &mut h);
    let named = h.starts_with(b"NHV1");
    if named & (got == 12) & (records::u32_at(&h, 4) == kind) {
        return records::u32_at(&h, 8);
    }
    0
}

fn read_part(fd: i32, file: &mut [u8], n: usize) {
    if n <= file.len() {
        io::read_full(fd, &mut file[..n]);
    }
}

// The file field: the bytes of a file, or the one of the case before, which was so long. No file in a case is longer than the buffer.
pub fn file_field(fd: i32, file: &mut [u8; 65536], size: usize) -> usize
    ensures { size ≤ 65536 → result ≤ 65536 }
{
    let n = u32_from(fd);
    if n > 65536 {
        return size;
    }
    read_part(fd, file, n);
    n
}

// Whether nothing follows in the file.
pub fn at_end(fd: i32) -> bool {
    let mut one = [0u8; 1];
    io::read_full(fd, &mut one) == 0
}
