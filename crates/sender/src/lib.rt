// The sender of document 01, and document 02, requests 3 and 7: cuts a unit into sections, which stand back to back from the start of the
// output, or refuses it.
#![tactic(auto)]

ghost use mathlib.Core.List.{flatten};
ghost use Rattle.std.specs.Prelude.{◌≡◌, ◌+◌, ◌≤◌, length};
ghost use Rattle.wire.specs.Bytes.{Reads};
ghost use Rattle.wire.specs.Choice.{first_of};
ghost use Rattle.rules.specs.Section.{section_of};
ghost use Rattle.rules.specs.Send.{section_count, sections, send_lines, sent_of, default_piece, Sends};
ghost use Rattle.rules.specs.UnitEnd.{ends_at, unit_end};
ghost use Rattle.wire.specs.Puts.{Puts};
ghost use Rattle.sender.specs.Plan.{Planned};

use rules::{Refusal, Settings};
use unit_end::unit_end;
use wire::put;

// How units are sent: by whose settings, with LLC/SNAP or without it, and in pieces of how many bytes.
#[derive(Clone, Copy)]
struct Sender {
    settings: Settings,
    llc_snap: bool,
    size: usize,
}

impl Sender {
    // The unit ends where its bytes do: without LLC/SNAP it is one IP datagram.
    #[tactic(auto, unfolding(rules::specs::UnitEnd::ends_at))]
    fn whole(self, unit: &[u8]) -> bool
        ensures { result ≡ ends_at (length unit.now) (unit_end self.llc_snap unit.now) }
    {
        unit_end(self.llc_snap, &[], unit) == Some(unit.len())
    }

    // How many sections a unit needs that 50 and 51 leave.
    #[tactic(auto, unfolding(rules::specs::Send::section_count))]
    fn section_count(self, unit: &[u8]) -> usize
        requires { (1 ≤ self.size) × (self.size ≤ 4080) × (length unit.now ≤ 65535) }
        ensures { Reads (section_count self.size unit.now) 65537 result }
    {
        unit.len().div_ceil(self.size).max(1)
    }

    // The number of the sections, or the first of 10 and 50 to 54 that applies. They are counted only where 50 and 51 leave numbers that fit.
    #[tactic(auto, unfolding(rules::specs::Told::number, rules::specs::Send::send_lines,
    // the table's words
    wire::specs::Choice::first_of, wire::specs::Choice::first, wire::specs::Choice::both),
    // 53 asks for as many bytes as all sections have
    using(rules::proofs::Send::sections_bytes))]
    fn decide(self, unit: &[u8], out: &[u8]) -> Result<usize, Refusal>
        ensures { Planned self.settings self.llc_snap self.size unit.now out.now result }
    {
        if !settings::good_settings(self.settings) {
            return Err(Refusal::Settings);
        }
        if !(1 <= self.size && self.size <= 4080) {
            return Err(Refusal::PieceSize);
        }
        if 65535 < unit.len() {
            return Err(Refusal::Unit);
        }
        if !self.whole(unit) {
            return Err(Refusal::IpDatagram);
        }
        let count = self.section_count(unit);
        if self.settings.limit < count {
            return Err(Refusal::Sections);
        }
        if out.len() < unit.len() + 16 * count {
            return Err(Refusal::Output);
        }
        Ok(count)
    }

    // Writes one section at `at`, header, piece and CRC_32, and gives where it ends.
    fn put_section(self, number: u8, last: u8, piece: &[u8], at: usize, out: &mut [u8]) -> usize
        requires { (length piece.now ≤ 4080) × (at + (length piece.now + 16) ≤ length out.old) }
        ensures { Puts out.old at (section_of self.settings.address self.llc_snap number last piece.now) result out.new }
    {
        let length = (piece.len() + 13) as u16;
        let header = section_header::header(
            self.settings.address,
            self.llc_snap,
            number,
            last,
            length,
        );
        let body = put(&header, at, out);
        let end = put(piece, body, out);
        let sum = crc::crc_32(&out[at..end]).to_be_bytes();
        put(&sum, end, out)
    }

    // Writes the sections of a unit that is not refused, from the start of the output, and gives where they end.
    #[tactic(auto, using(rules::proofs::Send::accepted, rules::proofs::Send::count_byte, rules::proofs::Send::count_some))]
    fn put_sections(self, count: usize, unit: &[u8], out: &mut [u8]) -> usize
        requires out_value { first_of (send_lines self.settings self.llc_snap self.size unit.now out.old) ≡ 0 }
        requires count_value { count ≡ section_count self.size unit.now }
        ensures { Puts out.old 0 (flatten (sections self.settings self.llc_snap self.size unit.now)) result out.new }
    {
        let last = (count - 1) as u8;
        let mut rest = unit;
        let mut at = 0;
        // Not by `chunks`, which gives no piece of an empty unit: that has one section.
        for number in 0..count {
            let (piece, after) = rest.split_at(self.size.min(rest.len()));
            at = self.put_section(number as u8, last, piece, at, out);
            rest = after;
        }
        at
    }
}

// Sections of the unit from the start of the output, or a refusal that writes nothing.
pub fn send(
    settings: Settings,
    llc_snap: bool,
    size: usize,
    unit: &[u8],
    out: &mut [u8],
) -> Result<usize, Refusal>
    ensures { Sends (sent_of settings llc_snap size unit.now out.old) result out.new }
{
    let sender = Sender {
        settings,
        llc_snap,
        size,
    };
    let count = sender.decide(unit, out)?;
    Ok(sender.put_sections(count, unit, out))
}

// The piece size where a caller gives none: its sections have 1,024 bytes at most, as many as the field boxes of the second series hold.
const DEFAULT_PIECE: usize = 1008;

pub fn send_by_default(
    settings: Settings,
    llc_snap: bool,
    unit: &[u8],
    out: &mut [u8],
) -> Result<usize, Refusal>
    ensures { Sends (sent_of settings llc_snap default_piece unit.now out.old) result out.new }
{
    send(settings, llc_snap, DEFAULT_PIECE, unit, out)
}
