// Records of a file of stored answers: numbers of three bytes, or of eight, the high byte first, and bytes behind them.
ghost use Rattle.std.specs.Prelude.{◌+◌, ◌≤◌, ◌<◌, ◌^◌, length, take, ◌≡◌};

use std::fs::File;
use std::io::Read;

// The number of three bytes at a place.
pub fn number(s: &[u8], at: usize) -> usize
    requires { at + 3 ≤ length s.now }
    ensures { result < 2 ^ 24 }
{
    usize::from(s[at]) * 65536 + usize::from(s[at + 1]) * 256 + usize::from(s[at + 2])
}

// The number of eight bytes at a place.
pub fn long_number(s: &[u8], at: usize) -> u64
    requires { at + 8 ≤ length s.now }
{
    let high = (number(s, at) * 256 + usize::from(s[at + 3])) as u64;
    let low = (number(s, at + 4) * 256 + usize::from(s[at + 7])) as u64;
    high * 4294967296 + low
}

// The next bytes of the file at the front of the buffer, as many as one read gives: none at the end, and where the read fails.
fn read_some(file: &mut File, buffer: &mut [u8]) -> usize
    ensures { result ≤ length buffer.new }
{
    match file.read(buffer) {
        Ok(count) => count,
        Err(_refused) => 0,
    }
}

// Reads until the buffer is full, the file ends or a read fails: how many bytes were put at the front of the buffer.
pub fn read_full(file: &mut File, buffer: &mut [u8]) -> usize
    ensures { (result ≤ length buffer.new) × (result ≡ length (take result buffer.new)) }
{
    let mut done: usize = 0;
    for _ in 0..buffer.len() {
        let count = read_some(file, &mut buffer[done..]);
        if count == 0 {
            break;
        }
        done += count;
    }
    done
}

// The file's next bytes, at the front of a buffer: how many there were, none where the buffer has no room for all.
pub fn take(file: &mut File, buffer: &mut [u8], size: usize) -> usize
    ensures { (result ≤ length buffer.new) × (result ≡ length (take result buffer.new)) }
{
    if buffer.len() < size {
        return 0;
    }
    read_full(file, &mut buffer[..size])
}
