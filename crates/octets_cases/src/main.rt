// Reads and writes at and around the end of a buffer of nine bytes, and far past it. The file `stdout` has what
// they must be: worked out in Python, by int.from_bytes, int.to_bytes and parts of lists.
#![tactic(auto)]

use std::io;

const SOURCE: [u8; 9] = [0x81, 0x92, 0xa3, 0xb4, 0xc5, 0xd6, 0xe7, 0xf8, 0x09];

fn show(rt: &impl Print, b: [u8; 9]) -> io::Result<()> {
    for x in b {
        print!(rt; "{x:02x}")?;
    }
    println!(rt)
}

fn read(rt: &impl Print, s: &[u8], at: usize) -> io::Result<()> {
    let (a, b) = (octets::byte(s, at), octets::be16(s, at));
    let (c, d) = (octets::be32(s, at), octets::be64(s, at));
    println!(rt; "{a:02x} {b:04x} {c:08x} {d:016x}")
}

fn read_past(rt: &impl Print, s: &[u8], at: usize, i: u8) -> io::Result<()> {
    let a = octets::byte_past(s, at, i);
    let b = octets::be16_past(s, at, i);
    let c = octets::be32_past(s, at, i);
    println!(rt; "{a:02x} {b:04x} {c:08x}")
}

fn write(rt: &impl Print, at: usize) -> io::Result<()> {
    let mut a = [0xeeu8; 9];
    output::put_byte(&mut a, at, 0x12);
    show(rt, a)?;
    let mut b = [0xeeu8; 9];
    output::put16(&mut b, at, 0x1234);
    show(rt, b)?;
    let mut c = [0xeeu8; 9];
    output::put32(&mut c, at, 0x12345678);
    show(rt, c)?;
    let mut d = [0xeeu8; 9];
    output::put64(&mut d, at, 0x123456789abcdef0);
    show(rt, d)
}

fn zero(rt: &impl Print, from: usize) -> io::Result<()> {
    let mut b = SOURCE;
    output::zero(&mut b, from);
    show(rt, b)
}

fn copy(rt: &impl Print, from: usize, n: usize, at: usize) -> io::Result<()> {
    let mut b = [0xeeu8; 9];
    output::copy(&SOURCE, from, n, &mut b, at);
    show(rt, b)
}

fn reads(rt: &impl Print) -> io::Result<()> {
    for at in [0, 1, 2, 5, 6, 7, 8, 9, 10, 1000] {
        read(rt, &SOURCE, at)?;
    }
    for at in [usize::MAX - 1, usize::MAX] {
        read(rt, &SOURCE, at)?;
    }
    for at in [0, 8, usize::MAX] {
        read(rt, &[], at)?;
    }
    Ok(())
}

fn reads_past(rt: &impl Print) -> io::Result<()> {
    for (at, i) in [
        (0, 0),
        (0, 1),
        (1, 0),
        (1, 1),
        (0, 6),
        (2, 5),
        (4, 4),
        (9, 0),
        (1, 255),
        (1000, 255),
    ] {
        read_past(rt, &SOURCE, at, i)?;
    }
    for i in [0, 1, 2] {
        read_past(rt, &SOURCE, usize::MAX, i)?;
    }
    read_past(rt, &SOURCE, usize::MAX - 1, 2)?;
    read_past(rt, &SOURCE, usize::MAX, 255)
}

fn writes(rt: &impl Print) -> io::Result<()> {
    for at in [0, 1, 2, 5, 6, 7, 8, 9, 10, 1000] {
        write(rt, at)?;
    }
    for at in [usize::MAX - 7, usize::MAX - 1, usize::MAX] {
        write(rt, at)?;
    }
    Ok(())
}

fn zeros(rt: &impl Print) -> io::Result<()> {
    for from in [0, 1, 8, 9, 10, usize::MAX] {
        zero(rt, from)?;
    }
    Ok(())
}

fn copies(rt: &impl Print) -> io::Result<()> {
    for (from, n, at) in [
        (0, 9, 0),
        (0, 0, 0),
        (0, 1, 8),
        (2, 3, 4),
        (3, 1, 0),
        (7, 5, 0),
        (8, 1, 8),
        (8, 2, 8),
        (9, 1, 0),
        (10, 1, 0),
        (0, 5, 7),
        (0, 5, 9),
        (0, 1, 10),
    ] {
        copy(rt, from, n, at)?;
    }
    copy(rt, 0, usize::MAX, 0)?;
    copy(rt, 3, usize::MAX, 5)?;
    copy(rt, 5, usize::MAX, 3)?;
    copy(rt, usize::MAX, usize::MAX, 0)?;
    copy(rt, usize::MAX, 1, usize::MAX)?;
    copy(rt, 0, 1, usize::MAX)
}

fn main(rt: HostRuntime) -> io::Result<()> {
    reads(&rt)?;
    reads_past(&rt)?;
    writes(&rt)?;
    zeros(&rt)?;
    copies(&rt)
}
