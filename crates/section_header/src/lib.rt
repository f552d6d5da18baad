// What a sender writes before the payload and after it.
#![tactic(auto)]

ghost use Rattle.std.specs.Prelude.{◌≡◌};
ghost use Rattle.rules.specs.Section.{header};
ghost use Rattle.wire.specs.Choice.{pick};

use rules::Address;

// The header of a section that is as long as `length`, its section_length, says, of which the low 12 bits are written.
#[tactic(auto, unfolding(rules::specs::Section::header))]
pub fn header(a: Address, llc_snap: bool, number: u8, last: u8, length: u16) -> [u8; 12]
    ensures { result ≡ header a llc_snap number last length }
{
    let [high, low] = length.to_be_bytes();
    [
        0x3e,
        0xb0 + high % 16,
        low,
        a.mac6,
        a.mac5,
        flags(llc_snap),
        number,
        last,
        a.mac4,
        a.mac3,
        a.mac2,
        a.mac1,
    ]
}

// Reserved bits and current_next_indicator are ones, both scrambling controls zeros.
#[tactic(auto, unfolding(wire::specs::Choice::pick))]
fn flags(llc_snap: bool) -> u8
    ensures { result ≡ pick llc_snap 0xC3 0xC1 }
{
    if llc_snap { 0xc3 } else { 0xc1 }
}
