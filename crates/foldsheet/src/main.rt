// foldsheet: folds the sheet of form 1 on standard input and prints the seven numbers under their names, then the result in upper-case hex, or `-`
// on a refusal. A sheet has at most 65,536 bytes, else `too long` is printed.
#![tactic(auto)]

use answers::Folded;

// The standard streams' numbers.
const STDIN_FILENO: i32 = 0;

const STDOUT_FILENO: i32 = 1;

fn print_number(name: &[u8], number: u64) {
    io::write_all(STDOUT_FILENO, name);
    io::print_decimal(STDOUT_FILENO, number);
}

fn digit(value: u8) -> u8 {
    match value {
        0..=9 => b'0' + value,
        10..=15 => b'A' + (value - 10),
        _ => b'?',
    }
}

fn print_hex(bytes: &[u8]) {
    for byte in bytes {
        let pair = [digit(byte / 16), digit(byte % 16)];
        io::write_all(STDOUT_FILENO, &pair);
    }
}

fn print_numbers(folded: Folded) {
    print_number(b"code ", folded.code);
    print_number(b" drained ", folded.drained);
    print_number(b" emitted ", folded.emitted);
    print_number(b" left ", folded.left);
    print_number(b" bytes ", folded.bytes);
    print_number(b" place ", folded.place);
    print_number(b" why ", folded.why);
    io::write_all(STDOUT_FILENO, b"\n");
}

// The result: as many bytes as were written, none of them past the buffer.
fn print_result(folded: Folded, out: &[u8]) {
    let bytes = folded.bytes;
    if folded.code == 0 && bytes <= out.len() as u64 {
        print_hex(&out[..bytes as usize]);
    } else {
        io::write_all(STDOUT_FILENO, b"-");
    }
    io::write_all(STDOUT_FILENO, b"\n");
}

fn fold_sheet(sheet: &[u8]) {
    let mut out = io::large_buffer();
    let folded = hours::fold(1, sheet, &mut out);
    print_numbers(folded);
    print_result(folded, &out);
}

fn main() {
    let mut sheet = io::large_buffer();
    let size = io::read_full(STDIN_FILENO, &mut sheet);
    let mut more = [0u8; 1];
    if io::read_full(STDIN_FILENO, &mut more) > 0 {
        io::write_all(STDOUT_FILENO, b"too long\n");
    } else {
        fold_sheet(&sheet[..size]);
    }
}
