// What is printed.
use cases::told::{line, refusals};

// How often each kind of case was met (counts.rt has the numbers).
pub fn counts(met: &[usize; 18]) {
    line(b"ended", met[0]);
    line(b"watchdog", met[10]);
    refusals(met, 1, 9);
    line(b"first error 1", met[11]);
    line(b"first error 2", met[12]);
    line(b"budget 0", met[13]);
    line(b"budget 1", met[14]);
    line(b"largest budget", met[15]);
    line(b"ended with the last step of the budget", met[16]);
    line(b"also called without a budget", met[17]);
}
