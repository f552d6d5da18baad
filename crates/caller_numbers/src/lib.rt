// Settings as numbers, and a receiver's state as bytes.
#![tactic(auto)]

ghost use Rattle.std.specs.Prelude.{◌≡◌};
ghost use Rattle.caller_numbers.specs.Numbers.{address_of, settings_of, state_of, state_bytes};

use rules::{Address, Key, Settings, State};
use wire::{u16_at, u32_at};

// An address in printed order, MAC_address_1 first. Six numbers and no array, as C gives them.
pub fn address_of(mac1: u8, mac2: u8, mac3: u8, mac4: u8, mac5: u8, mac6: u8) -> Address
    ensures { result ≡ address_of mac1 mac2 mac3 mac4 mac5 mac6 }
{
    Address {
        mac1,
        mac2,
        mac3,
        mac4,
        mac5,
        mac6,
    }
}

pub fn settings_of(
    mac1: u8,
    mac2: u8,
    mac3: u8,
    mac4: u8,
    mac5: u8,
    mac6: u8,
    range: usize,
    limit: usize,
) -> Settings
    ensures { result ≡ settings_of mac1 mac2 mac3 mac4 mac5 mac6 range limit }
{
    Settings {
        address: address_of(mac1, mac2, mac3, mac4, mac5, mac6),
        range,
        limit,
    }
}

// The state that sixteen bytes mean. A function and no `From`, like the next: the state is of another crate, and these bytes are C's.
#[tactic(auto, unfolding(crate::specs::Numbers::state_of, wire::specs::Choice::pick, rules::specs::Address::address_at))]
pub fn state_of(state: &[u8; 16]) -> State
    ensures { result ≡ state_of state.now }
{
    if state[0] == 0 {
        return State::Idle;
    }
    State::Open {
        next: u16_at(state, 2),
        filled: u32_at(state, 6),
        key: Key {
            address: address_of(
                state[10], state[11], state[12], state[13], state[14], state[15],
            ),
            last: u16_at(state, 4),
            llc_snap: state[1] != 0,
        },
    }
}

// The bytes of a state; an idle one has zeros.
#[tactic(auto, unfolding(crate::specs::Numbers::state_bytes, wire::specs::Bytes::bytes_of), using(crate::proofs::Meaning::flag_byte))]
pub fn state_bytes(state: State) -> [u8; 16]
    ensures { result ≡ state_bytes state }
{
    let State::Open { next, filled, key } = state else {
        return [0; 16];
    };
    let [next1, next2] = ((next % 65536) as u16).to_be_bytes();
    let [last1, last2] = ((key.last % 65536) as u16).to_be_bytes();
    let [filled1, filled2, filled3, filled4] = ((filled % 4294967296) as u32).to_be_bytes();
    let address = key.address;
    [
        1,
        u8::from(key.llc_snap),
        next1,
        next2,
        last1,
        last2,
        filled1,
        filled2,
        filled3,
        filled4,
        address.mac1,
        address.mac2,
        address.mac3,
        address.mac4,
        address.mac5,
        address.mac6,
    ]
}
