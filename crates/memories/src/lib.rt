// The bytes of a memory file: zeros for its tables, an exchange of D words in it, and a Modbus request over it. (A scan over it stands in the crate
// memory_scans.) What an exchange or a request makes of the memory stands in specs/Images.antt. Each promises it of the tables and the leftovers that
// the bytes mean, and of the bytes.
#![tactic(auto)]

pub mod answers;
pub mod exchanges;
pub mod tables;
