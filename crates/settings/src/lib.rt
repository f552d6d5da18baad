// A receiver's settings: whether they can be used (number 10 of document 01), and which addresses they take for their own.
#![tactic(auto)]

ghost use Rattle.std.specs.Prelude.{◌≡◌};
ghost use Rattle.rules.specs.Address.{agree, same_address};
ghost use Rattle.rules.specs.Step.{good_settings};

use rules::{Address, Settings};

#[tactic(auto, unfolding(rules::specs::Step::good_settings, wire::specs::Choice::both))]
pub fn good_settings(settings: Settings) -> bool
    ensures { result ≡ good_settings settings }
{
    (1..=6).contains(&settings.range) && (1..=255).contains(&settings.limit)
}

// Two bytes that are compared from a MAC_address_range of k on.
#[tactic(auto, unfolding(rules::specs::Address::agree, wire::specs::Choice::either))]
fn agree(k: usize, range: usize, x: u8, y: u8) -> bool
    ensures { result ≡ agree k range x y }
{
    range < k || x == y
}

// The compared bytes of two addresses are equal: `range` of them, from MAC_address_6 upward. Not two arrays that are zipped: both addresses would
// have to be spelled out in this order first, which is no plainer.
#[tactic(auto, unfolding(rules::specs::Address::same_address, wire::specs::Choice::both))]
pub fn same_address(range: usize, a: Address, b: Address) -> bool
    ensures { result ≡ same_address range a b }
{
    agree(1, range, a.mac6, b.mac6)
        && agree(2, range, a.mac5, b.mac5)
        && agree(3, range, a.mac4, b.mac4)
        && agree(4, range, a.mac3, b.mac3)
        && agree(5, range, a.mac2, b.mac2)
        && agree(6, range, a.mac1, b.mac1)
}
