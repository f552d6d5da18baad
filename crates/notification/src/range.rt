// The target_MAC_address_range_descriptor (EN 301 192, table 25): all devices from MAC_addr_low up to and including MAC_addr_high.
ghost use Rattle.std.specs.Prelude.{◌≡◌, ◌≤◌};
ghost use Rattle.rules.specs.Address.{address_at};
ghost use Rattle.notification_rules.specs.Range.{at_most, in_range};

use rules::Address;
use wire::byte_at;

// The address that stands at i: MAC_address_1 first. Field by field, since an array in between would be no plainer.
#[tactic(auto, unfolding(rules::specs::Address::address_at))]
pub fn address_at(s: &[u8], i: usize) -> Address
    requires { i ≤ 6 }
    ensures { result ≡ address_at s.now i }
{
    Address {
        mac1: byte_at(s, i),
        mac2: byte_at(s, i + 1),
        mac3: byte_at(s, i + 2),
        mac4: byte_at(s, i + 3),
        mac5: byte_at(s, i + 4),
        mac6: byte_at(s, i + 5),
    }
}

// a is at most b, compared byte by byte from the top: the first byte that differs decides, and where none does, they are equal. Written out, and
// not the derived order of addresses: a grower's engineer lays these lines beside the printed table (docs/DECISIONS.md, 93).
#[tactic(auto, unfolding(notification_rules::specs::Range::at_most, notification_rules::specs::Range::unequal, wire::specs::Choice::pick))]
fn at_most(a: Address, b: Address) -> bool
    ensures { result ≡ at_most a b }
{
    if a.mac1 != b.mac1 {
        return a.mac1 < b.mac1;
    }
    if a.mac2 != b.mac2 {
        return a.mac2 < b.mac2;
    }
    if a.mac3 != b.mac3 {
        return a.mac3 < b.mac3;
    }
    if a.mac4 != b.mac4 {
        return a.mac4 < b.mac4;
    }
    if a.mac5 != b.mac5 {
        return a.mac5 < b.mac5;
    }
    if a.mac6 != b.mac6 {
        return a.mac6 < b.mac6;
    }
    true
}

// The device's address is neither below MAC_addr_low, which stands at 0 of a pair, nor above MAC_addr_high, which stands at 6.
#[tactic(auto, unfolding(notification_rules::specs::Range::in_range, wire::specs::Choice::both))]
pub fn in_range(device: Address, e: &[u8]) -> bool
    ensures { result ≡ in_range device e.now }
{
    at_most(address_at(e, 0), device) && at_most(device, address_at(e, 6))
}
