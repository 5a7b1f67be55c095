// Zeros for as much as a case lends at most. Each tells its length beside them, so that no proof writes the zeros out.
ghost use Rattle.std.specs.Prelude.{pos, length, ◌≡◌};
ghost use Rattle.cases.specs.Filled.{entries};

// M, a frame or a reply buffer.
pub fn bytes() -> [u8; 512]
    ensures { (512 ≡ length result) × (result ≡ entries 512 0) }
{
    [0; 512]
}

// D.
pub fn words() -> [i16; 8192]
    ensures { (8192 ≡ length result) × (result ≡ entries 8192 (pos 0)) }
{
    [0; 8192]
}
