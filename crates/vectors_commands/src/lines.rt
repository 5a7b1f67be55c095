// Lines of the list of calls.
ghost use Rattle.std.specs.Prelude.{length, ◌≡◌};
ghost use Rattle.ec20.specs.File.{byte_at};
ghost use Rattle.vectors_commands.specs.Called.{is_call, letter_of, call_of};

// What is no remark and not empty.
pub fn is_call(text: &[u8]) -> bool
    ensures { result ≡ is_call text.now }
{
    if text.len() == 0 {
        return false;
    }
    text[0] != b'#'
}

// Byte i as the call has it: a blank, and what stands past the line, as the zero byte that ends a word.
fn letter(text: &[u8], i: usize) -> u8
    ensures { result ≡ letter_of (byte_at text.now i) }
{
    if i >= text.len() {
        return 0;
    }
    let b = text[i];
    if b == b' ' { 0 } else { b }
}

// Each blank as the zero byte that ends a word, and zeros after the last word.
pub fn to_call(text: &[u8], call: &mut [u8])
    ensures { call.new ≡ call_of text.now (length call.old) }
{
    for i in 0..call.len() {
        call[i] = letter(text, i);
    }
}
