// A buffer that is lent to an entry: what stands in it beforehand, and whether a result then stands at its front and nothing else moved. Most buffers
// have 65,536 bytes, so the loops over all of it are such that the compiler takes many bytes at a time: no division, and no return in between.

// No zeros, and no two neighbours alike, so that a byte written or moved shows.
fn before(at: usize) -> u8 {
    (at % 128 + 1) as u8
}

pub fn fill(out: &mut [u8]) {
    for (at, byte) in out.iter_mut().enumerate() {
        *byte = before(at);
    }
}

// Are the bytes from a place on as before?
fn untouched(out: &[u8], from: usize) -> bool {
    let mut same = true;
    for at in from..out.len() {
        if out[at] != before(at) {
            same = false;
        }
    }
    same
}

// Does the result stand at the front of the buffer, and are the later bytes as before?
pub fn holds(out: &[u8], res: &[u8]) -> bool {
    out.starts_with(res) && untouched(out, res.len())
}
