// A case of 64 bytes: a group of bits, or a single bit, is read from a table of 20 bytes, and then a number is stored there.
use crate::leaf::Case;
use crate::number;
use records::{u16_at, u32_at};

// What is read is the first of the numbers. The second is stored.
fn bit_agrees(first: usize, table: &mut [u8; 20], numbers: &[u8; 8]) -> bool {
    let read = bits::bit_at(table, first);
    bits::put_bit(table, first, u32_at(numbers, 4) % 2);
    read == u32_at(numbers, 0)
}

fn group_agrees(head: &[u8; 4], table: &mut [u8; 20], numbers: &[u8; 8]) -> bool {
    let n = records::wide(head[0]);
    let w = records::wide(head[1]);
    let first = u16_at(head, 2);
    let read = bits::group_at(table, first, n, w);
    bits::put_group(table, first, n, w, number::signed(numbers, 4, w));
    read == number::signed(numbers, 0, 32)
}

fn agrees(head: &[u8; 4], table: &mut [u8; 20], numbers: &[u8; 8]) -> bool {
    if head[0] == 0 {
        bit_agrees(u16_at(head, 2), table, numbers)
    } else {
        group_agrees(head, table, numbers)
    }
}

pub fn run(fd: i32) -> Case {
    let mut head = [0u8; 4];
    io::read_full(fd, &mut head);
    let mut table = [0u8; 20];
    io::read_full(fd, &mut table);
    let mut numbers = [0u8; 8];
    io::read_full(fd, &mut numbers);
    let mut after = [0u8; 20];
    io::read_full(fd, &mut after);
    let mut zeros = [0u8; 12];
    // a file that ended before has nothing left here
    if io::read_full(fd, &mut zeros) < 12 {
        return Case::Cut;
    }
    let same = agrees(&head, &mut table, &numbers);
    if same & (table == after) {
        Case::Agrees
    } else {
        Case::Differs
    }
}
