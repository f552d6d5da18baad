// Where a unit ends: document 02, request 3. Its bytes may lie in two parts, those stored before and those that have just come; the header is
// read where they lie, on either side of the cut or on both.
#![tactic(auto)]

ghost use Rattle.std.specs.Prelude.{◌≡◌, ◌≤◌, ◌++◌, length};
ghost use Rattle.wire.specs.Bytes.{byte_at, number_at};
ghost use Rattle.rules.specs.UnitEnd.{version, total_length, payload_length, end_within, datagram_end, unit_end};

use std::marker::Model;
use wire::byte_at;

// The joined payloads where they lie: those stored before, and those that have just come. A contract sees them as one list.
#[derive(Drop)]
struct Joined<'a> {
    head: &'a [u8],
    tail: &'a [u8],
}

impl<'a> Model for Joined<'a> {
    ghost use Rattle.std.specs.Prelude.{ℕ, List, ◌++◌};

    ghost Value = { List ℕ };

    ghost view = { λ j. j.head.now ++ j.tail.now };
}

impl<'a> Joined<'a> {
    fn len(&self) -> usize
        ensures { result ≡ length self.now }
    {
        self.head.len() + self.tail.len()
    }

    fn byte(&self, i: usize) -> u8
        ensures { result ≡ byte_at self.now i }
    {
        if i < self.head.len() {
            return byte_at(self.head, i);
        }
        byte_at(self.tail, i - self.head.len())
    }

    // The number of two bytes at i, where a header has a length.
    #[tactic(auto, unfolding(wire::specs::Bytes::number_at))]
    fn u16(&self, i: usize) -> u16
        requires { i ≤ 4 }
        ensures { result ≡ number_at 2 self.now i }
    {
        u16::from_be_bytes([self.byte(i), self.byte(i + 1)])
    }

    // The high four bits of the first byte.
    #[tactic(auto, unfolding(rules::specs::UnitEnd::version))]
    fn version(&self) -> u8
        ensures { result ≡ version self.now }
    {
        self.byte(0) / 16
    }

    // Of version 4: RFC 791, section 3.1.
    #[tactic(auto, unfolding(rules::specs::UnitEnd::total_length))]
    fn total_length(&self) -> u16
        ensures { result ≡ total_length self.now }
    {
        self.u16(2)
    }

    // Of version 6, what follows its header of 40 bytes: RFC 8200, section 3.
    #[tactic(auto, unfolding(rules::specs::UnitEnd::payload_length))]
    fn payload_length(&self) -> u16
        ensures { result ≡ payload_length self.now }
    {
        self.u16(4)
    }

    #[tactic(auto, unfolding(rules::specs::UnitEnd::datagram_end, wire::specs::Choice::pick))]
    fn datagram_end(&self) -> Option<usize>
        ensures { result ≡ datagram_end self.now }
    {
        let there = self.len();
        match self.version() {
            4 => end_within(there, 20, usize::from(self.total_length())),
            6 => end_within(there, 40, 40 + usize::from(self.payload_length())),
            _ => None,
        }
    }
}

#[tactic(auto, unfolding(rules::specs::UnitEnd::end_within, wire::specs::Choice::both, wire::specs::Choice::pick))]
fn end_within(there: usize, header: usize, n: usize) -> Option<usize>
    ensures { result ≡ end_within there header n }
{
    (header <= n && n <= there).then_some(n)
}

// The end of the unit whose bytes are those of the two parts: all of them with LLC/SNAP, the IP datagram that they begin with without it.
#[tactic(auto, unfolding(rules::specs::UnitEnd::unit_end, wire::specs::Choice::pick))]
pub fn unit_end(llc_snap: bool, head: &[u8], tail: &[u8]) -> Option<usize>
    ensures { result ≡ unit_end llc_snap (head.now ++ tail.now) }
{
    let joined = Joined { head, tail };
    if llc_snap {
        return Some(joined.len());
    }
    joined.datagram_end()
}
