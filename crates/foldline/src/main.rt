// foldline: folds the sheet of form 1 on standard input and prints the fold as one line of text: what the cockpit shows. Where the fold or the line
// is refused, one line says which of the two, the code and the place. A sheet has at most 65,536 bytes, else `too long` is printed.
#![tactic(auto)]

use answers::{Folded, Written};

// The standard streams' numbers.
const STDIN_FILENO: i32 = 0;

const STDOUT_FILENO: i32 = 1;

fn print_refusal(name: &[u8], code: u64, place: u64) {
    io::write_all(STDOUT_FILENO, name);
    io::write_all(STDOUT_FILENO, b" refused: code ");
    io::print_decimal(STDOUT_FILENO, code);
    io::write_all(STDOUT_FILENO, b" place ");
    io::print_decimal(STDOUT_FILENO, place);
    io::write_all(STDOUT_FILENO, b"\n");
}

// Prints the line and a newline after it: as many bytes as were written, none of them past the buffer.
fn print_line(line: Written, text: &[u8]) {
    let bytes = line.bytes;
    if line.code == 0 && bytes <= text.len() {
        io::write_all(STDOUT_FILENO, &text[..bytes]);
        io::write_all(STDOUT_FILENO, b"\n");
    } else {
        print_refusal(b"line", line.code as u64, line.place as u64);
    }
}

fn show_line(folded: &[u8]) {
    let mut text = io::large_buffer();
    let line = hours::line(1, folded, &mut text);
    print_line(line, &text);
}

// Shows the line of the fold's result, or why there is none.
fn show_fold(folded: Folded, out: &[u8]) {
    let bytes = folded.bytes;
    if folded.code == 0 && bytes <= out.len() as u64 {
        show_line(&out[..bytes as usize]);
    } else {
        print_refusal(b"fold", folded.code, folded.place);
    }
}

fn fold_line(sheet: &[u8]) {
    let mut out = io::large_buffer();
    let folded = hours::fold(1, sheet, &mut out);
    show_fold(folded, &out);
}

fn main() {
    let mut sheet = io::large_buffer();
    let size = io::read_full(STDIN_FILENO, &mut sheet);
    let mut more = [0u8; 1];
    if io::read_full(STDIN_FILENO, &mut more) > 0 {
        io::write_all(STDOUT_FILENO, b"too long\n");
    } else {
        fold_line(&sheet[..size]);
    }
}
