// Bits on the line: the form of what is lent, and its bytes as one word.
ghost use Rattle.std.specs.Prelude.{◌≡◌, ◌+◌, ◌*◌, ◌^◌, ◌≤◌, MatchOption, length};
ghost use Rattle.frame.specs.Line.{first_bytes, formed, line, marks};
ghost use Rattle.frame.specs.Inside.Packed.{bytes_in, three_by, three_of};

// A line is lent in the right form: at most 64 bits, exactly the bytes for its count, pad bits 0.
pub fn formed(count: usize, reply: &[u8]) -> bool
    ensures { result ≡ formed count reply.now }
{
    if 64 < count || reply.len() != count.div_ceil(8) {
        return false;
    }
    let over = count % 8;
    over == 0 || reply[count / 8] % (1u8 << (8 - over)) == 0
}

// A one at the bit of the line that each is named by: bit 1 is the word's highest bit, bit b stands 64 - b bits above its lowest.
pub(crate) const BIT_1: u64 = 1 << 63;

pub(crate) const BIT_15: u64 = 1 << 49;

pub(crate) const BIT_16: u64 = 1 << 48;

pub(crate) const BIT_38: u64 = 1 << 26;

pub(crate) const BIT_39: u64 = 1 << 25;

pub(crate) const BIT_40: u64 = 1 << 24;

pub(crate) const BIT_41: u64 = 1 << 23;

pub(crate) const BIT_42: u64 = 1 << 22;

pub(crate) const BIT_43: u64 = 1 << 21;

pub(crate) const BIT_55: u64 = 1 << 9;

pub(crate) const BIT_56: u64 = 1 << 8;

// The marks of a reply, counted over its bytes.
pub(crate) fn marks(reply: &[u8]) -> u32
    requires { length reply.now ≤ 8 }
    ensures { result ≡ marks reply.now }
{
    reply.iter().map(|byte| byte.count_ones()).sum()
}

// The bytes of a reply of either length: 5 in 40 bits, 7 in 56.
#[derive(Clone, Copy)]
pub(crate) enum Lent<'a> {
    Five(&'a [u8; 5]),
    Seven(&'a [u8; 7]),
}

impl<'a> Lent<'a> {
    // As one word, bit 1 highest.
    pub(crate) fn word(self) -> u64
        ensures { result ≡ line (bytes_in self.entry) }
    {
        match self {
            Lent::Five(s) => u64::from_be_bytes([s[0], s[1], s[2], s[3], s[4], 0, 0, 0]),
            Lent::Seven(s) => u64::from_be_bytes([s[0], s[1], s[2], s[3], s[4], s[5], s[6], 0]),
        }
    }

    pub(crate) fn marks(self) -> u32
        ensures { result ≡ marks (bytes_in self.entry) }
    {
        match self {
            Lent::Five(s) => marks(s),
            Lent::Seven(s) => marks(s),
        }
    }
}

// Three decimal digits, the last at `shift` bits above the lowest bit: their number, or none where one is above 9.
pub(crate) fn three(n: u64, shift: u64) -> Option<u16>
    requires { shift ≤ 49 }
    ensures value { result ≡ three_by n shift }
    ensures bound { MatchOption result (Unit {0}) (λ m. m ≤ 999) }
{
    let hundreds = (n >> (shift + 8)) % 16;
    let tens = (n >> (shift + 4)) % 16;
    let units = (n >> shift) % 16;
    if 9 < hundreds || 9 < tens || 9 < units {
        return None;
    }
    Some((hundreds * 100 + tens * 10 + units) as u16)
}

// A number up to 999 as three digits of four bits: a ten is 16 there and a hundred 256, so that every ten adds 6 and every hundred 96
// more.
pub(crate) fn three_of(v: u64) -> u64
    requires { v ≤ 999 }
    ensures { result ≡ three_of v }
{
    v + 6 * (v / 10) + 96 * (v / 100)
}

// The bytes of a word, the highest first. The compiler makes one store of them.
pub fn bytes_of(word: u64) -> [u8; 8]
    ensures { result ≡ first_bytes 8 word }
{
    word.to_be_bytes()
}
