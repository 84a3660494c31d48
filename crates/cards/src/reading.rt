// The bytes of a card, read from a file or from standard input.
ghost use Rattle.std.specs.Prelude.{◌≡◌, ◌-◌, ◌≤◌, length, take, IfOk, MatchResult};

use std::io;
use std::io::Read;

// One read into the buffer after its first bytes.
fn read_more<R: Read>(reader: &mut R, bytes: &mut [u8], size: usize) -> io::Result<usize>
    requires { size ≤ length bytes.old }
    ensures { IfOk result (λ n. n ≤ length bytes.old - size) }
{
    reader.read(&mut bytes[size..])
}

// A read that failed, after so many bytes.
#[derive(Clone, Copy, PartialEq, Eq)]
pub struct Unread {
    pub size: usize,
}

// Reads until the input ends, a read fails or the buffer is full, and answers how many bytes were read. A buffer of one byte more than the largest sheet tells
// a larger input.
pub fn read_card<R: Read>(reader: &mut R, bytes: &mut [u8]) -> Result<usize, Unread>
    ensures in_bounds { MatchResult result (λ size. size ≤ length bytes.new) (λ unread. unread.size ≤ length bytes.new) }
    ensures front { MatchResult result (λ size. size ≡ length (take size bytes.new)) (λ unread. unread.size ≡ length (take unread.size bytes.new)) }
{
    let mut size = 0;
    while size < bytes.len() {
        match read_more(reader, bytes, size) {
            Ok(0) => break,
            Ok(got) => size += got,
            Err(_) => return Err(Unread { size }),
        }
    }
    Ok(size)
}
