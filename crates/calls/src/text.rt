// The words of a call, which is lent as bytes: word after word, each ended by a zero byte. Word 0 is the command.
ghost use Rattle.std.specs.Prelude.{◌≡◌, ◌+◌, ◌≤◌, length, drop};
ghost use Rattle.calls.specs.Text.{until, until_zero, after_zero, rest_at, word_of, count_of, which_of};

// Where the byte stands first from `from` on, or the text ends.
pub fn find(text: &[u8], from: usize, byte: u8) -> usize
    requires { from ≤ length text.now }
    ensures place { result ≡ from + length (until byte (drop from text.now)) }
    ensures in_bounds { (from ≤ result) × (result ≤ length text.now) }
{
    for at in from..text.len() {
        if text[at] == byte {
            return at;
        }
    }
    text.len()
}

// Where the word that begins at `from` ends: at its zero byte, or where the call ends.
fn end_of(call: &[u8], from: usize) -> usize
    requires { from ≤ length call.now }
    ensures { (result ≡ from + length (until_zero (drop from call.now))) × (result ≤ length call.now) }
{
    find(call, from, 0)
}

// Where the word after it begins, or the call ends.
fn after(call: &[u8], from: usize) -> usize
    requires { from ≤ length call.now }
    ensures { (drop result call.now ≡ after_zero (drop from call.now)) × (result ≤ length call.now) }
{
    let end = end_of(call, from);
    if end < call.len() {
        return end + 1;
    }
    end
}

// Where word i begins.
fn start_of(call: &[u8], i: usize) -> usize
    ensures { (drop result call.now ≡ rest_at call.now i) × (result ≤ length call.now) }
{
    let mut at = 0;
    for _k in 0..i {
        at = after(call, at);
    }
    at
}

// Word i; no byte where the call has no such word.
pub fn word(call: &[u8], i: usize) -> &[u8]
    ensures { result.now ≡ word_of call.now i }
{
    let from = start_of(call, i);
    let to = end_of(call, from);
    &call[from..to]
}

// How many words the call has.
pub fn count(call: &[u8]) -> usize
    ensures { result ≡ count_of call.now }
{
    let mut n = 0;
    for &byte in call {
        if byte == 0 {
            n += 1;
        }
    }
    n
}

// Which of the n words of a list the word is, the first as 0; n where it is none.
pub fn which(name: &[u8], list: &[u8], n: usize) -> usize
    ensures { result ≡ which_of name.now list.now n }
{
    for k in 0..n {
        if check::same(name, word(list, k)) {
            return k;
        }
    }
    n
}

// The call from word i on.
pub fn rest(call: &[u8], i: usize) -> &[u8]
    ensures { result.now ≡ rest_at call.now i }
{
    let from = start_of(call, i);
    &call[from..]
}
