// The PES data packet reader: document 01, 'The PES data packet', for every slice of every length.
#![tactic(auto)]

ghost use Rattle.std.specs.Prelude.{◌≡◌, ◌+◌, is_some};
ghost use Rattle.std.specs.Option.{unwrap_or};
ghost use Rattle.wire.specs.Bytes.{Reads};
ghost use Rattle.wire.specs.Part.{Is};
ghost use Rattle.pes_rules.specs.Packet.{pts_extension_flag, output_data_rate_flag, pes_data_packet_header_length, flagged, pts_extension, rate_offset, output_data_rate, private_offset, data_offset, wrong_size, other_identifier, wrong_flags, wrong_header_length, refusal, taken, read_of, data_part};
ghost use Rattle.pes_rules.specs.Told.{told, told_refusal};

use pes_rules::{Packet, Refusal};
use wire::byte_at;

// The two flags have each a function, though one that takes the bit's number could give both: that is no plainer, as each is a field of the
// table by its name and one line.
fn pts_extension_flag(packet: &[u8]) -> bool
    ensures { result ≡ pts_extension_flag packet.now }
{
    byte_at(packet, 2) / 128 % 2 == 1
}

fn output_data_rate_flag(packet: &[u8]) -> bool
    ensures { result ≡ output_data_rate_flag packet.now }
{
    byte_at(packet, 2) / 64 % 2 == 1
}

fn pes_data_packet_header_length(packet: &[u8]) -> usize
    ensures { Reads (pes_data_packet_header_length packet.now) 16 result }
{
    usize::from(byte_at(packet, 2)) % 16
}

#[tactic(auto, unfolding(pes_rules::specs::Packet::flagged, wire::specs::Choice::pick))]
fn flagged(flag: bool, n: usize) -> usize
    ensures { Reads (flagged flag n) (n + 1) result }
{
    if flag { n } else { 0 }
}

#[tactic(auto, unfolding(pes_rules::specs::Packet::flagged, wire::specs::Choice::pick))]
fn pts_extension(packet: &[u8]) -> Option<u16>
    ensures flag { is_some result ≡ pts_extension_flag packet.now }
    ensures value { unwrap_or result 0 ≡ pts_extension packet.now }
{
    if pts_extension_flag(packet) {
        return Some((wire::u16_at(packet, 3) % 512) as u16);
    }
    None
}

fn rate_offset(packet: &[u8]) -> usize
    ensures { Reads (rate_offset packet.now) 6 result }
{
    3 + flagged(pts_extension_flag(packet), 2)
}

#[tactic(auto, unfolding(pes_rules::specs::Packet::flagged, wire::specs::Choice::pick))]
fn output_data_rate(packet: &[u8]) -> Option<u32>
    ensures flag { is_some result ≡ output_data_rate_flag packet.now }
    ensures value { unwrap_or result 0 ≡ output_data_rate packet.now }
{
    if output_data_rate_flag(packet) {
        return Some((wire::u32_at(packet, rate_offset(packet)) % 268435456) as u32);
    }
    None
}

fn private_offset(packet: &[u8]) -> usize
    ensures { result ≡ private_offset packet.now }
{
    rate_offset(packet) + flagged(output_data_rate_flag(packet), 4)
}

fn data_offset(packet: &[u8]) -> usize
    ensures { result ≡ data_offset packet.now }
{
    3 + pes_data_packet_header_length(packet)
}

#[tactic(auto, unfolding(wire::specs::Choice::either))]
fn wrong_size(packet: &[u8]) -> bool
    ensures { result ≡ wrong_size packet.now }
{
    packet.len() < 3 || 65535 < packet.len()
}

#[tactic(auto, unfolding(wire::specs::Choice::both))]
fn other_identifier(packet: &[u8]) -> bool
    ensures { result ≡ other_identifier packet.now }
{
    let identifier = byte_at(packet, 0);
    identifier != 0x21 && identifier != 0x22
}

#[tactic(auto, unfolding(wire::specs::Choice::both, wire::specs::Choice::either))]
fn wrong_flags(packet: &[u8]) -> bool
    ensures { result ≡ wrong_flags packet.now }
{
    let identifier = byte_at(packet, 0);
    identifier == 0x21 && !pts_extension_flag(packet)
        || identifier == 0x22 && output_data_rate_flag(packet)
}

#[tactic(auto, unfolding(wire::specs::Choice::either))]
fn wrong_header_length(packet: &[u8]) -> bool
    ensures { result ≡ wrong_header_length packet.now }
{
    let offset = data_offset(packet);
    offset < private_offset(packet) || packet.len() < offset
}

// The first reason that applies.
#[tactic(auto, unfolding(wire::specs::Choice::first_of, wire::specs::Choice::first))]
fn refusal(packet: &[u8]) -> Result<(), Refusal>
    ensures { told_refusal result ≡ refusal packet.now }
{
    if wrong_size(packet) {
        return Err(Refusal::Length);
    }
    if other_identifier(packet) {
        return Err(Refusal::DataIdentifier);
    }
    if wrong_flags(packet) {
        return Err(Refusal::Flags);
    }
    if wrong_header_length(packet) {
        return Err(Refusal::HeaderLength);
    }
    Ok(())
}

fn taken(packet: &[u8]) -> Packet
    ensures { told (Ok result) ≡ taken packet.now }
{
    Packet {
        extension: pts_extension(packet),
        rate: output_data_rate(packet),
        offset: data_offset(packet),
        end: packet.len(),
    }
}

// What the packet says, or why it is refused.
#[tactic(auto, unfolding(pes_rules::specs::Packet::read_of, wire::specs::Choice::pick))]
pub fn read(packet: &[u8]) -> Result<Packet, Refusal>
    ensures { told result ≡ read_of packet.now }
{
    refusal(packet)?;
    Ok(taken(packet))
}

// The data of the packet as a part of it, empty where it is refused.
#[tactic(auto, using(pes_rules::proofs::Told::packet_within))]
pub fn data<'a>(packet: &'a [u8]) -> &'a [u8]
    ensures { Is packet.entry.ref_ptr (data_part packet.now) result }
{
    let Ok(p) = read(packet) else {
        return &packet[..0];
    };
    &packet[p.offset..p.end]
}
