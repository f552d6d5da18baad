// Runs published vectors of CRC_32 and the samples of document 01 that are not proved, and prints a line for each; an independent
// second program prints the same lines. A vector is cited where it is given.
#![tactic(auto)]

ghost use Rattle.std.specs.Prelude.{◌≡◌, ◌<◌, length};
ghost use Rattle.rules.specs.Recording.{offers};
ghost use Rattle.vectors.specs.Text.{digit, word};

use std::{array, io};

// Not `{:08X}`: specs/Text.antt says what this text is, and no contract says what `print!` writes.
#[tactic(auto, unfolding(crate::specs::Text::digit, wire::specs::Choice::pick))]
fn digit(n: u32) -> u8
    requires { n < 16 }
    ensures { result ≡ digit n }
{
    if n < 10 {
        b'0' + n as u8
    } else {
        b'A' - 10 + n as u8
    }
}

// High digit first.
#[tactic(auto, unfolding(crate::specs::Text::word))]
fn word(x: u32) -> [u8; 8]
    ensures { result ≡ word x }
{
    [
        digit(x >> 28),
        digit((x >> 24) % 16),
        digit((x >> 20) % 16),
        digit((x >> 16) % 16),
        digit((x >> 12) % 16),
        digit((x >> 8) % 16),
        digit((x >> 4) % 16),
        digit(x % 16),
    ]
}

// A line of CRC_32: a name and the value over some bytes. Each word is a write of its own, so that, where an output takes no more, the words before
// that are out.
fn crc_line(rt: &impl Print, name: &str, bytes: &[u8]) -> io::Result<()> {
    print!(rt; "crc_32 ")?;
    print!(rt; "{name}")?;
    print!(rt; " ")?;
    rt.write_all(&word(crc::crc_32(bytes)))?;
    println!(rt)
}

// How many offers a recording has: a `while` that counts them, since how long an offer is stands in its own bytes, so that no range or chunks do.
#[tactic(auto, using(crate::proofs::Count::counts))]
fn offer_count(s: &[u8]) -> usize
    ensures { result ≡ length (offers s.now) }
{
    let mut rest = s;
    let mut count = 0;
    while !rest.is_empty() {
        let n = recording::offer_length(rest);
        rest = &rest[n..];
        count += 1;
    }
    count
}

// A line of the sender: unit length, piece size, number of sections, their length in all.
#[tactic(auto, unfolding(rules::specs::Told::sending_told), using(crate::proofs::Count::sends))]
fn send_line(
    rt: &impl Print,
    llc_snap: bool,
    size: usize,
    unit: &[u8],
    out: &mut [u8],
) -> io::Result<()> {
    let Ok(total) = sender::send(recording::listing_settings(), llc_snap, size, unit, out) else {
        return Ok(());
    };
    let count = offer_count(&out[..total]);
    print!(rt; "send")?;
    for n in [unit.len(), size, count, total] {
        print!(rt; " ")?;
        print!(rt; "{n}")?;
    }
    println!(rt)
}

// Tables of an MPEG-2 multiplex as FFmpeg writes them: the program association section of one service, and the program map section
// of one H.264 and one AAC stream.
fn table_lines(rt: &impl Print) -> io::Result<()> {
    let association = b"\x00\xb0\x0d\x00\x01\xc1\x00\x00\x00\x01\xf0\x00";
    crc_line(rt, "program-association", association)?;
    let map =
        b"\x02\xb0\x17\x00\x01\xc1\x00\x00\xe1\x00\xf0\x00\x1b\xe1\x00\xf0\x00\x0f\xe1\x01\xf0\x00";
    crc_line(rt, "program-map", map)
}

// An example CPCS-PDU of AAL5: 40 octets, CPCS-UU 0, CPI 0 and the length in 16 bits.
fn pdu(octets: &[u8; 40]) -> [u8; 44]
    ensures { 44 ≡ length result }
{
    let mut pdu = [0; 44];
    pdu[..40].copy_from_slice(octets);
    pdu[43] = 40;
    pdu
}

// ITU-T I.363.5, example CPCS-PDUs of AAL5. What is published is inverted.
fn aal5_lines(rt: &impl Print) -> io::Result<()> {
    crc_line(rt, "aal5-zeros", &pdu(&[0; 40]))?;
    crc_line(rt, "aal5-ones", &pdu(&[0xff; 40]))?;
    crc_line(rt, "aal5-counting", &pdu(&array::from_fn(|i| i as u8 + 1)))
}

// The samples of document 01: a unit of 4,081 bytes, which is an IPv4 datagram of that total length, and the empty unit, which only
// LLC/SNAP can carry (document 02, request 3).
fn send_lines(rt: &impl Print) -> io::Result<()> {
    let mut unit = [0; 4081];
    unit[..4].copy_from_slice(&[0x45, 0, 0x0f, 0xf1]);
    let mut out = [0; 5000];
    send_line(rt, false, 4080, &unit, &mut out)?;
    send_line(rt, true, 4080, &[], &mut out)
}

fn main(rt: HostRuntime) -> io::Result<()> {
    // The start value, and the check value of CRC-32/MPEG-2 in Cook's catalogue of parametrised CRC algorithms.
    crc_line(&rt, "empty", b"")?;
    crc_line(&rt, "123456789", b"123456789")?;
    table_lines(&rt)?;
    aal5_lines(&rt)?;
    send_lines(&rt)
}
