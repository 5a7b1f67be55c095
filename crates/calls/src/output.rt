// Where a call writes.
use std::fmt;

// A descriptor of the system. It takes text, and bytes that need not be text; where it does not take all of them, that is an error.
#[derive(Clone, Copy)]
pub struct Descriptor(pub i32);

impl Descriptor {
    pub fn put(&self, bytes: &[u8]) -> fmt::Result {
        if io::write_all(self.0, bytes) {
            Ok(())
        } else {
            Err(fmt::Error)
        }
    }
}

impl fmt::Write for Descriptor {
    fn write_str(&mut self, text: &str) -> fmt::Result {
        self.put(text.as_bytes())
    }
}

// `out` for the answer, `err` for what a refusal means and what could not be tried.
#[derive(Clone, Copy)]
pub struct Outputs {
    pub out: Descriptor,
    pub err: Descriptor,
}
