// Words as little-endian bytes, and reading bytes into a buffer.
#![tactic(auto)]

ghost use Rattle.std.specs.Prelude.{◌≡◌, ◌+◌, ◌*◌, ◌≤◌, ◌<◌, length, IfOk};
ghost use Rattle.std.specs.Io.KnownBytes.{Consumes, IsAtEnd};
ghost use Rattle.words.specs.Bytes.{word, words_of};

use std::io::{self, Read};

// The word whose bytes begin at `at`, the lowest first.
fn word_at(bytes: &[u8], at: usize) -> u32
    requires { at + 4 ≤ length bytes.now }
    ensures { result ≡ word bytes.now at }
{
    u32::from_le_bytes([bytes[at], bytes[at + 1], bytes[at + 2], bytes[at + 3]])
}

// The words of the bytes.
pub fn decode(bytes: &[u8], words: &mut [u32])
    requires { length bytes.now ≡ 4 * length words.old }
    ensures { words.new ≡ words_of (length words.old) bytes.now }
{
    for i in 0..words.len() {
        words[i] = word_at(bytes, 4 * i);
    }
}

// Reads until the buffer is full, the input ends or a read fails, which is no end of the input. The answer is what was read, in front of the
// buffer. A loop by hand: std's `read_to_end` needs a heap, and its `read_exact` fails where the input ends.
pub fn read_full<'b, R: Read>(reader: &mut R, buffer: &'b mut [u8]) -> io::Result<&'b [u8]>
    ensures front { IfOk result (λ part. part.ref_ptr ≡ buffer.entry.ref_ptr) }
    ensures fits { IfOk result (λ part. length part.now ≤ length buffer.old) }
    ensures consumed { IfOk result (λ part. Consumes (R.remaining reader.old) (R.remaining reader.new) part.now) }
    ensures ended { IfOk result (λ part. length part.now < length buffer.old → IsAtEnd (R.remaining reader.new)) }
{
    let mut done: usize = 0;
    while done < buffer.len() {
        let more = reader.read(&mut buffer[done..])?;
        if more == 0 {
            break;
        }
        done += more;
    }
    Ok(&buffer[..done])
}
