// Where a pair's streams are (EN 301 192, table 32): the first 0x13 of its operational loop, else the first of the platform loop.
ghost use Rattle.std.specs.Prelude.{◌≡◌};
ghost use Rattle.notification.specs.Readers.{Reaches, Has, choice_of, Nine, Picked};

use crate::loops::{Kind, after, descriptor_size};
use wire::byte_at;

// Which of two loops has the location, and where in what it holds the nine bytes begin.
#[derive(Clone, Copy)]
pub enum Choice {
    Own(usize),
    Platform(usize),
}

// A loop from its first 0x13 on: a `while let`, since how far it goes on stands in the bytes, and no iterator of slices cuts so. It does not call
// itself, as the reader of descriptors does: an Option of a slice is handed back through memory, so that each call would keep its place on the stack.
#[tactic(auto, using(crate::proofs::Locations::reaches_end, crate::proofs::Locations::reaches_here, crate::proofs::Locations::reaches_more, notification_rules::proofs::Items::descriptor_two))]
fn from_location<'a>(s: &'a [u8]) -> Option<&'a [u8]>
    ensures { Reaches s.now result }
{
    let mut rest = s;
    while let Some((_, next)) = rest.split_at_checked(descriptor_size(rest)) {
        if Kind::from(byte_at(rest, 0)) == Kind::Location {
            return Some(rest);
        }
        rest = next;
    }
    None
}

// A loop has a 0x13.
#[tactic(auto, using(crate::proofs::Locations::has_is))]
pub fn has_location(s: &[u8]) -> bool
    ensures { Has s.now result }
{
    from_location(s).is_some()
}

// The choice of a pair's location, if it has one. The nine bytes stand after tag and length.
#[tactic(auto, using(crate::proofs::Locations::rest_inside, crate::proofs::Locations::chosen_own, crate::proofs::Locations::chosen_platform, crate::proofs::Locations::chosen_none))]
pub fn choose(operational: &[u8], platform: &[u8]) -> Option<Choice>
    ensures { result ≡ choice_of operational.now platform.now }
{
    if let Some(own) = from_location(operational) {
        return Some(Choice::Own(operational.len() - own.len() + 2));
    }
    let general = from_location(platform)?;
    Some(Choice::Platform(platform.len() - general.len() + 2))
}

// Nine bytes from an offset on, if there are as many. Cut by an index: `get` and `split_at_checked` do not say where a part stands.
fn nine<'a>(s: &'a [u8], offset: usize) -> Option<&'a [u8]>
    ensures { Nine s.entry offset result }
{
    let rest = after(s, offset);
    if rest.len() < 9 {
        return None;
    }
    Some(&rest[..9])
}

// The nine bytes of the one loop or the other.
pub fn pick<'a>(operational: &'a [u8], platform: &'a [u8]) -> Option<&'a [u8]>
    ensures { Picked operational.entry platform.entry (choice_of operational.now platform.now) result }
{
    match choose(operational, platform)? {
        Choice::Own(offset) => nine(operational, offset),
        Choice::Platform(offset) => nine(platform, offset),
    }
}
