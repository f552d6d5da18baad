// The descriptors of a target loop (EN 301 192, tables 24 and 25): whether one of their entries covers a device.
ghost use Rattle.std.specs.Prelude.{◌≡◌, ◌<◌, ℕ};
ghost use Rattle.wire.specs.Bytes.{byte_at};
ghost use Rattle.notification_rules.specs.Target.{address_number, same_under, entry_size, entry_bytes, hit};
ghost use Rattle.notification.specs.Readers.{IsKind};

use crate::loops::{Kind, after};
use crate::range::{address_at, in_range};
use rules::Address;

// The address as a number of 48 bits.
#[tactic(auto, unfolding(notification_rules::specs::Target::address_number, wire::specs::Bytes::number_at))]
fn address_number(a: Address) -> u64
    ensures { result ≡ address_number a }
{
    u64::from_be_bytes([0, 0, a.mac1, a.mac2, a.mac3, a.mac4, a.mac5, a.mac6])
}

// The address at the front is the device's under the mask's one bits.
#[tactic(auto, unfolding(notification_rules::specs::Target::same_under), using(crate::proofs::Addresses::number_front))]
fn same_under(device: Address, mask: &[u8], e: &[u8]) -> bool
    ensures { result ≡ same_under device mask.now e.now }
{
    let bits = address_number(address_at(mask, 0));
    address_number(address_at(e, 0)) & bits == address_number(device) & bits
}

impl Kind {
    // The bytes of an entry: an address, or a lowest and a highest address.
    #[tactic(auto, unfolding(notification_rules::specs::Target::entry_size, wire::specs::Choice::pick))]
    pub fn entry_size(self) -> usize
        ensures is { (t : ℕ) → IsKind self t → result ≡ entry_size t }
        ensures some { 0 < result }
    {
        match self {
            Kind::Addresses => 6,
            _ => 12,
        }
    }

    // The entries of a descriptor; those of other kinds have none.
    #[tactic(auto, unfolding(notification_rules::specs::Target::entry_bytes, wire::specs::Choice::pick))]
    pub fn entry_bytes<'a>(self, d: &'a [u8]) -> &'a [u8]
        requires { IsKind self (byte_at d.now 0) }
        ensures { result.now ≡ entry_bytes d.now }
    {
        match self {
            Kind::Addresses => after(d, 8),
            Kind::Ranges => after(d, 2),
            _ => &d[..0],
        }
    }

    // The entry e of the descriptor d covers the device.
    #[tactic(auto, unfolding(notification_rules::specs::Target::hit, wire::specs::Choice::pick))]
    pub fn hit(self, device: Address, d: &[u8], e: &[u8]) -> bool
        requires { IsKind self (byte_at d.now 0) }
        ensures { result ≡ hit device d.now e.now }
    {
        match self {
            Kind::Addresses => same_under(device, after(d, 2), e),
            _ => in_range(device, e),
        }
    }
}
