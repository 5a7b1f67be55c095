// What kinds of answers were met. Of the 30 counts: 0 silent; 9 and 16 refused by that number; 20 to 25 a reply of function 1, 3, 5, 6, 15, 16;
// 27 to 29 the exceptions 01 to 03; 19 a reply of none of these kinds.
ghost use Rattle.std.specs.Prelude.{◌≡◌};
ghost use Rattle.vectors_requests.specs.Wants.{exception_count, reply_count, count_of};

use cases::told::line;
use ec20::Refusal;

// The count of a reply that begins so.
fn of_reply(function: u8, code: u8) -> usize
    ensures { result ≡ reply_count function code }
{
    match function {
        1 => 20,
        3 => 21,
        5 => 22,
        6 => 23,
        15 => 24,
        16 => 25,
        _ => of_exception(function, code),
    }
}

fn of_exception(function: u8, code: u8) -> usize
    ensures { result ≡ exception_count function code }
{
    if (function < 128) | (code < 1) | (code > 3) {
        return 19;
    }
    26 + code as usize
}

// The count of an answer, whose reply stands in the buffer.
pub fn sort(a: Result<Option<usize>, Refusal>, reply: &[u8]) -> usize
    ensures { result ≡ count_of a reply.now }
{
    match a {
        Err(r) => r.number,
        Ok(None) => 0,
        Ok(Some(_)) => {
            if reply.len() < 3 {
                return 19;
            }
            of_reply(reply[1], reply[2])
        }
    }
}

pub fn tell(met: &[usize; 30]) {
    line(b"refusal 9", met[9]);
    line(b"refusal 16", met[16]);
    line(b"silent", met[0]);
    line(b"exception 01", met[27]);
    line(b"exception 02", met[28]);
    line(b"exception 03", met[29]);
    line(b"reply of 1", met[20]);
    line(b"reply of 3", met[21]);
    line(b"reply of 5", met[22]);
    line(b"reply of 6", met[23]);
    line(b"reply of 15", met[24]);
    line(b"reply of 16", met[25]);
    line(b"other", met[19]);
}
