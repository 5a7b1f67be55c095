// The commands by their names.

// The commands, in the order of the list of names; a map as a picture has none of its own.
#[derive(Clone, Copy, PartialEq, Eq)]
pub enum Command {
    Check,
    Map,
    Move,
    Exchange,
    Scan,
    Trial,
    Demo,
    Answer,
    Slave,
    Clashes,
    Longer,
    Job,
    Picture,
}
