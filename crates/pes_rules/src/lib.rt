// What is read of a PES data packet, or why it is refused. What it means is in specs/, the laws in proofs/; nothing here runs but the number of
// a refusal.
#![tactic(auto)]

ghost use Rattle.std.specs.Prelude.{◌≡◌};
ghost use Rattle.pes_rules.specs.Told.{number};

// Why a packet is refused, the first reason that applies; the discriminants are the paper's numbers.
#[derive(Clone, Copy, Debug, PartialEq, Eq)]
pub enum Refusal {
    Length = 40,
    DataIdentifier = 41,
    Flags = 42,
    HeaderLength = 43,
}

impl From<Refusal> for u8 {
    ghost from_gives = { λ r n. n ≡ number r };

    fn from(refusal: Refusal) -> u8 {
        refusal as u8
    }
}

// What is read of a packet: PTS_extension and output_data_rate where they are flagged, and where in the packet the data begins and ends: by its
// place and not as a slice, as contracts and callers in C are told it.
#[derive(Clone, Copy, Default)]
pub struct Packet {
    pub extension: Option<u16>,
    pub rate: Option<u32>,
    pub offset: usize,
    pub end: usize,
}
