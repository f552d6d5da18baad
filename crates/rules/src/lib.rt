// The types that the papers speak of. What they mean is in specs/, the laws in proofs/.
#![tactic(auto)]

ghost use Rattle.std.specs.Prelude.{◌≡◌};
ghost use Rattle.rules.specs.Told.{number};

// A MAC address as it is printed: `mac1` is MAC_address_1, the most significant byte, so that the derived order is that of the numbers.
#[derive(Clone, Copy, PartialEq, Eq, PartialOrd, Ord)]
pub struct Address {
    pub mac1: u8,
    pub mac2: u8,
    pub mac3: u8,
    pub mac4: u8,
    pub mac5: u8,
    pub mac6: u8,
}

// What one table asks of the part that all sections share: the fewest bytes, the table_id, and whether private_indicator is looked at: it has
// to be 0, and tells the checksum form (24) from other wrong indicators (15).
#[derive(Clone, Copy)]
pub struct Form {
    pub fewest: usize,
    pub table: u8,
    pub private: bool,
}

// Own address, MAC_address_range and max_sections_per_datagram; wide enough that every bad value can be given and refused.
#[derive(Clone, Copy)]
pub struct Settings {
    pub address: Address,
    pub range: usize,
    pub limit: usize,
}

// What the sections of one run agree on: all six bytes of the address, last_section_number and LLC_SNAP_flag.
#[derive(Clone, Copy, PartialEq, Eq)]
pub struct Key {
    pub address: Address,
    pub last: usize,
    pub llc_snap: bool,
}

// Why settings, a state, a section, a notification or a unit are refused. The discriminants are the papers' numbers.
#[derive(Clone, Copy, Debug, PartialEq, Eq)]
pub enum Refusal {
    Settings = 10,
    State = 11,
    TooShort = 12,
    TableId = 13,
    SectionLength = 14,
    Indicators = 15,
    Crc32 = 16,
    CurrentNextIndicator = 17,
    SectionNumber = 18,
    AddressScrambling = 19,
    PayloadScrambling = 20,
    LastSectionNumber = 21,
    Continuation = 22,
    Room = 23,
    ChecksumForm = 24,
    IpHeader = 25,
    ActionType = 30,
    PlatformIdHash = 31,
    Loops = 32,
    DescriptorLength = 33,
    PieceSize = 50,
    Unit = 51,
    Sections = 52,
    Output = 53,
    IpDatagram = 54,
}

impl From<Refusal> for u8 {
    ghost from_gives = { λ r n. n ≡ number r };

    #[tactic(auto, unfolding(crate::specs::Told::number))]
    fn from(refusal: Refusal) -> u8 {
        refusal as u8
    }
}

// No run, or an open one: the next number, the bytes that are filled, and what its sections agree on. Not an Option: `Idle` is a state that the
// papers name, and a variant says so where `None` would not.
#[derive(Clone, Copy)]
pub enum State {
    Idle,
    Open {
        next: usize,
        filled: usize,
        key: Key,
    },
}

// What becomes of a section that is not refused: it ends a unit of so many bytes, it is stored, or it is somebody else's.
#[derive(Clone, Copy)]
pub enum Reception {
    Delivered(usize),
    Stored,
    PassedBy,
}

#[derive(Clone, Copy)]
pub struct Step {
    pub answer: Result<Reception, Refusal>,
    pub state: State,
}
