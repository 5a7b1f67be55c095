// Declarations, as they follow in the file.
use cases::reading;
use units::{Declaration, Table};

fn read(fd: i32) -> Declaration {
    let unit = reading::u32_from(fd) as u32;
    let mut name = [0u8; 8];
    io::read_full(fd, &mut name);
    let start = reading::u32_from(fd) as u32;
    let length = reading::u32_from(fd) as u32;
    Declaration {
        unit,
        name,
        start,
        length,
    }
}

fn empty() -> Table {
    let d = Declaration {
        unit: 0,
        name: [0; 8],
        start: 0,
        length: 0,
    };
    Table { at: [d; 64] }
}

// The next n declarations of the file, of which the table has the first 64.
pub fn table(fd: i32, n: usize) -> Table {
    let mut t = empty();
    for i in 0..n {
        let d = read(fd);
        if i < 64 {
            t.at[i] = d;
        }
    }
    t
}
