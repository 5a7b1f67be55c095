// What is counted, and what is printed.
ghost use Rattle.std.specs.Prelude.{◌≡◌};
ghost use Rattle.cases.specs.Filled.{one_more};

// The descriptor of standard output.
pub const STDOUT_FILENO: i32 = 1;

// One more of the cases of number k.
pub fn one_more(met: &mut [usize], k: usize)
    ensures { met.new ≡ one_more k met.old }
{
    if k < met.len() {
        met[k] = met[k].wrapping_add(1);
    }
}

fn say(text: &[u8]) {
    io::write_all(STDOUT_FILENO, text);
}

fn say_number(n: usize) {
    io::print_decimal(STDOUT_FILENO, n as u64);
}

// Case i of this kind differs, after so many others that do: the first ten are told.
pub fn differs(kind: &[u8], i: usize, others: usize) {
    if others < 10 {
        say(b"differs ");
        say(kind);
        say(b" ");
        say_number(i);
        say(b"\n");
    }
}

pub fn total(kinds: &[u8], agree: usize, differ: usize) {
    say(kinds);
    say(b" ");
    say_number(agree);
    say(b" agree ");
    say_number(differ);
    say(b" differ\n");
}

pub fn line(text: &[u8], n: usize) {
    say(text);
    say(b": ");
    say_number(n);
    say(b"\n");
}

// How often each refusal was met, from number `first` to number `last`.
pub fn refusals(met: &[usize], first: usize, last: usize) {
    for k in first..met.len() {
        if k > last {
            return;
        }
        say(b"refusal ");
        say_number(k);
        line(b"", met[k]);
    }
}

// What failed, and why, as a line to standard error: the name, a colon and the system's text, without its number.
pub fn failed(rt: &(impl Eprint + Alloc), name: &str, e: &std::io::Error) -> std::io::Result<()> {
    let text = format!(in rt.alloc(); "{e}")?;
    match text.as_str().split_once(" (os error ") {
        Some((said, _)) => eprintln!(rt; "{name}: {said}"),
        None => eprintln!(rt; "{name}: {text}"),
    }
}

pub fn ended(at_end: bool) {
    if !at_end {
        say(b"bytes follow the last case\n");
    }
}
