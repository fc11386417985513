// Inputs held whole, which no other program reads: the ways in which their reading ends. Bytes are
// counted from the start of the input.
use crate::say::answer;

fn read(rt: &impl Print, tried: &str, input: &[u8]) {
    let x = reader::input(input);
    let _ = print!(rt; "{tried}");
    answer(rt, "read", &x.answer);
    let _ = println!(rt; ", byte {}", x.at);
}

pub fn run(rt: &impl Print) {
    read(rt, "empty input", b"");
    read(rt, "one byte", b"\x06");
    read(
        rt,
        "head without its row",
        b"\x06\x00\x01\x00\x0a\x00\x01\x00",
    );
    read(
        rt,
        "head and row",
        b"\x06\x00\x01\x00\x0a\x00\x01\x00\x0a\x00\x02\x00\x00\x00\x0a\x00\x01\x00\x00\x00",
    );
    read(
        rt,
        "row before the head",
        b"\x0a\x00\x02\x00\x00\x00\x01\x00\x01\x00\x00\x00",
    );
}
