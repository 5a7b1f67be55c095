// The bytes that came and are not answered yet: the first n of a buffer.
ghost use Rattle.std.specs.Prelude.{◌+◌, ◌<◌, drop, ◌≡◌};
ghost use Rattle.serial.specs.Held.{is_read, is_write, told_length, reply_length, others_length, is_whole, frame_of, room_for, left_of};
ghost use Rattle.std.proofs.Math.Seq.{paste};

// A function that reads, of any table; one that writes.
fn is_read(n: usize) -> bool
    ensures { result ≡ is_read n }
{
    (n == 1) | (n == 2) | (n == 3) | (n == 4)
}

fn is_write(n: usize) -> bool
    ensures { result ≡ is_write n }
{
    (n == 5) | (n == 6) | (n == 15) | (n == 16)
}

// How many bytes a request has by its function and its byte count; 0 where they do not tell.
fn told_length(n: usize, c: usize) -> usize
    requires { c < 256 }
    ensures { result ≡ told_length n c }
{
    if frames::is_long(n) {
        return 9 + c;
    }
    if is_read(n) | frames::is_short(n) {
        return 8;
    }
    0
}

// How many bytes a reply has by its function and its third byte; 0 where they do not tell.
fn reply_length(n: usize, c: usize) -> usize
    requires { c < 256 }
    ensures { result ≡ reply_length n c }
{
    if is_read(n) {
        return 5 + c;
    }
    if is_write(n) {
        return 8;
    }
    if 128 <= n {
        return 5;
    }
    0
}

// The same of a reply at the start of bytes; 0 where the station is the own, which has not replied yet.
fn others_length(own: usize, b: &[u8]) -> usize
    ensures { result ≡ others_length own b.now }
{
    if frames::byte_at(b, 0) == own {
        return 0;
    }
    reply_length(frames::byte_at(b, 1), frames::byte_at(b, 2))
}

// Whether the first n bytes are there, with a good CRC.
fn is_whole(n: usize, b: &[u8]) -> bool
    ensures { result ≡ is_whole n b.now }
{
    if n < 2 {
        return false;
    }
    if n > b.len() {
        return false;
    }
    frames::crc_fits(&b[..n])
}

// The frame that these bytes begin with: how many bytes it has, or 0 where it has not ended. It ends with its length, where its CRC is good: as a request,
// whatever its station, or as the reply of another station than the own, since on a line with several no silence may be seen between their replies and
// the next request. Else it ends with a silence, and is then all that is held.
pub fn frame(own: usize, b: &[u8], silence: bool) -> usize
    ensures { result ≡ frame_of own silence b.now }
{
    let n = told_length(frames::byte_at(b, 1), frames::byte_at(b, 6));
    if is_whole(n, b) {
        return n;
    }
    let m = others_length(own, b);
    if is_whole(m, b) {
        return m;
    }
    if silence { b.len() } else { 0 }
}

// More bytes after the n that are held. What has no room is lost: a frame that fills the buffer has a length that no function can have. Answers how
// many are held then.
pub fn more(b: &mut [u8], n: usize, came: &[u8]) -> usize
    ensures value { result ≡ n + room_for n came.now b.old }
    ensures b_after { b.new ≡ paste b.old n came.now (room_for n came.now b.old) }
{
    if n > b.len() {
        return n;
    }
    let k = came.len().min(b.len() - n);
    b[n..n + k].copy_from_slice(&came[..k]);
    n + k
}

// The first k of the n bytes held are taken away, and the others come to the front. Answers how many are held then.
pub fn less(b: &mut [u8], n: usize, k: usize) -> usize
    ensures value { result ≡ left_of n k b.old }
    ensures b_after { b.new ≡ paste b.old 0 (drop k b.old) (left_of n k b.old) }
{
    if n > b.len() {
        return 0;
    }
    if k > n {
        return 0;
    }
    b.copy_within(k..n, 0);
    n - k
}
