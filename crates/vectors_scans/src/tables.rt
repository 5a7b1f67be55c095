// Zeros for tables that are lent, with one entry more than the table has, and for an image of the memory. Each tells its length beside
// them, so that no proof writes the zeros out.
ghost use Rattle.std.specs.Prelude.{pos, length, ◌≡◌};
ghost use Rattle.cases.specs.Filled.{entries};

pub fn image() -> [u8; 16892]
    ensures { (16892 ≡ length result) × (result ≡ entries 16892 0) }
{
    [0; 16892]
}

// X, Y, SM and T contacts.
pub fn bits() -> [u8; 33]
    ensures { (33 ≡ length result) × (result ≡ entries 33 0) }
{
    [0; 33]
}

pub fn m_bits() -> [u8; 251]
    ensures { (251 ≡ length result) × (result ≡ entries 251 0) }
{
    [0; 251]
}

pub fn d_words() -> [i16; 8001]
    ensures { (8001 ≡ length result) × (result ≡ entries 8001 (pos 0)) }
{
    [0; 8001]
}

pub fn t_values() -> [i16; 257]
    ensures { (257 ≡ length result) × (result ≡ entries 257 (pos 0)) }
{
    [0; 257]
}

// The leftovers.
pub fn rest() -> [u8; 3]
    ensures { (3 ≡ length result) × (result ≡ entries 3 0) }
{
    [0; 3]
}
