// A recording: how it is cut into offers, and the settings that the programs read and write it with. Document 01, 'Listing'.
#![tactic(auto)]

ghost use Rattle.std.specs.Prelude.{◌≡◌};
ghost use Rattle.rules.specs.Recording.{listing_settings, offer_length};

use rules::{Address, Settings};

// 02:00:5E:10:20:30, range 6, at most 16 sections.
pub fn listing_settings() -> Settings
    ensures { result ≡ listing_settings }
{
    Settings {
        address: Address {
            mac1: 0x02,
            mac2: 0x00,
            mac3: 0x5e,
            mac4: 0x10,
            mac5: 0x20,
            mac6: 0x30,
        },
        range: 6,
        limit: 16,
    }
}

// How many of the bytes left are offered next: 3 + section_length, whatever the table_id, or what is left. Of fewer than 3 bytes all are offered.
#[tactic(auto, unfolding(rules::specs::Recording::offer_length, wire::specs::Choice::pick))]
pub fn offer_length(s: &[u8]) -> usize
    ensures { result ≡ offer_length s.now }
{
    (3 + section_fields::section_length(s)).min(s.len())
}
