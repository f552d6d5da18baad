// The INT reader: what a device finds in an INT section, for every slice of every length.
#![tactic(auto)]

mod location;
mod loops;
mod range;
mod target;

ghost use Rattle.std.specs.Prelude.{◌≡◌, ◌+◌, ◌≤◌, Ok, length, drop};
ghost use Rattle.wire.specs.Choice.{first_of};
ghost use Rattle.rules.specs.Told.{refusal_number};
ghost use Rattle.notification_rules.specs.Loop.{loop_size};
ghost use Rattle.notification_rules.specs.Finding.{other_action, wrong_hash, platform_lines, loop_lines, refusal, finding_of};
ghost use Rattle.notification_rules.specs.Told.{finding_told, Answered};
ghost use Rattle.notification.specs.Readers.{Holds, Turns, StopsAt, Tells, Locates, told_at};

use location::{Choice, choose, has_location, pick};
use loops::{Fit, Kind, after, descriptor_size, loop_size, operational_loop};
use rules::{Address, Form, Refusal};
use section_fields::checked;
use wire::byte_at;

// The form of this table's sections; private_indicator is not looked at.
const NOTIFICATION: Form = Form {
    fewest: 18,
    table: 0x4c,
    private: false,
};

#[tactic(auto, unfolding(notification_rules::specs::Finding::other_action, notification_rules::specs::Loop::action_type))]
fn other_action(s: &[u8]) -> bool
    ensures { result ≡ other_action s.now }
{
    byte_at(s, 3) != 0x01
}

#[tactic(auto, unfolding(notification_rules::specs::Finding::wrong_hash, notification_rules::specs::Loop::platform_id_hash))]
fn wrong_hash(s: &[u8]) -> bool
    ensures { result ≡ wrong_hash s.now }
{
    byte_at(s, 4) != byte_at(s, 8) ^ byte_at(s, 9) ^ byte_at(s, 10)
}

// The first of 30 and 31 that applies.
#[tactic(auto, unfolding(rules::specs::Told::number, rules::specs::Told::refusal_number, notification_rules::specs::Finding::platform_lines, wire::specs::Choice::first_of, wire::specs::Choice::first))]
fn platform_refusal(s: &[u8]) -> Result<(), Refusal>
    ensures { refusal_number result ≡ first_of (platform_lines s.now) }
{
    if other_action(s) {
        return Err(Refusal::ActionType);
    }
    if wrong_hash(s) {
        return Err(Refusal::PlatformIdHash);
    }
    Ok(())
}

// The first of 32 and 33 that applies. The platform loop is read as an operational loop is.
fn loops_refusal(s: &[u8]) -> Result<(), Refusal>
    ensures { refusal_number result ≡ first_of (loop_lines s.now) }
{
    match operational_loop(after(checked(s), 12), Fit::Exact) {
        Fit::Exact => Ok(()),
        Fit::OtherLength => Err(Refusal::DescriptorLength),
        Fit::Misfit => Err(Refusal::Loops),
    }
}

// The first of 12 to 18 and 30 to 33 that applies.
#[tactic(auto, unfolding(rules::specs::Told::refusal_number, rules::specs::Check::shared_refusal, notification_rules::specs::Finding::refusal), using(wire::proofs::Choice::first_of_here, wire::proofs::Choice::first_of_past, rules::proofs::Check::shared_numbered, notification_rules::proofs::Sound::platform_numbered, rules::proofs::Told::numbered))]
fn refusal(s: &[u8]) -> Result<(), Refusal>
    ensures { refusal_number result ≡ refusal s.now }
{
    section_check::shared_refusal(NOTIFICATION, s)?;
    platform_refusal(s)?;
    loops_refusal(s)
}

// What the loop at an offset holds.
#[tactic(auto, using(crate::proofs::Pairs::content_at, crate::proofs::Pairs::content_length, notification_rules::proofs::Items::loop_two, wire::proofs::Lists::from))]
fn loop_at<'a>(s: &'a [u8], offset: usize) -> &'a [u8]
    requires { offset + loop_size (drop offset s.now) ≤ length s.now }
    ensures { Holds s.entry offset result }
{
    let size = loop_size(&s[offset..]);
    &s[offset + 2..offset + size]
}

// The offset of the first pair that covers the device and has a location, or the end; `general` says that the platform loop has one. A loop
// over the pairs and one over the addresses, left by label at the first hit, are promised (docs/PROMISES.md), and so no chain of iterators.
#[tactic(auto, using(crate::proofs::Pairs::first_whole, crate::proofs::Pairs::second_whole, crate::proofs::Pairs::pair_whole, crate::proofs::Pairs::ends, notification_rules::proofs::Items::descriptor_two))]
fn search(device: Address, s: &[u8], from: usize, general: bool) -> usize
    requires { Turns s.now from }
    ensures { StopsAt device general s.now from result }
{
    let mut offset = from;
    'pairs: while offset < s.len() {
        let target = loop_at(s, offset);
        let operational = loop_at(s, offset + 2 + target.len());
        if has_location(operational) || general {
            if target.len() == 0 {
                break 'pairs;
            }
            // Each descriptor is as long as its own second byte says, and no iterator of slices cuts so: cut one, go on with the rest.
            let mut rest = target;
            'descriptors: while let Some((descriptor, next)) = rest.split_at_checked(
                descriptor_size(rest),
            ) {
                let kind = Kind::from(byte_at(descriptor, 0));
                let step = kind.entry_size();
                'addresses: for entry in kind.entry_bytes(descriptor).chunks_exact(step) {
                    if kind.hit(device, descriptor, entry) {
                        break 'pairs;
                    }
                }
                rest = next;
            }
        }
        offset = offset + 4 + target.len() + operational.len();
    }
    offset
}

// The one search: the refusals first, then the pairs in their order. The offset of the operational loop of the first pair that answers.
#[tactic(auto, unfolding(rules::specs::Told::refusal_number), using(crate::proofs::Answers::below, crate::proofs::Answers::platform_whole, crate::proofs::Answers::pairs_turns, crate::proofs::Answers::finding_refused, crate::proofs::Pairs::first_whole))]
fn find(device: Address, s: &[u8]) -> Result<Option<usize>, Refusal>
    ensures { Tells device s.now result }
{
    refusal(s)?;
    let head = checked(s);
    let platform = loop_at(head, 12);
    let pair = search(device, head, 14 + platform.len(), has_location(platform));
    if pair == head.len() {
        return Ok(None);
    }
    let target = loop_at(head, pair);
    Ok(Some(pair + 2 + target.len()))
}

// What the device finds: the nine bytes, which are a part of the section, or nobody.
#[tactic(auto, using(crate::proofs::Answers::pair_answers))]
pub fn read<'a>(device: Address, s: &'a [u8]) -> Result<Option<&'a [u8]>, Refusal>
    ensures { Answered device s.entry result }
{
    match find(device, s)? {
        None => Ok(None),
        Some(pair) => {
            let head = checked(s);
            let operational = loop_at(head, pair);
            Ok(pick(operational, loop_at(head, 12)))
        }
    }
}

// The offset of the nine bytes of the pair whose operational loop stands at `pair`. Beside `pick`, whose form is promised (docs/PROMISES.md):
// it hands back a part, which says nothing of where it stands to a foreign caller, and so the same choice gives its offset here.
#[tactic(auto, unfolding(notification_rules::specs::Told::finding_told), using(crate::proofs::Answers::told_is))]
fn nine_offset(head: &[u8], pair: usize) -> Option<usize>
    requires { Locates head.now pair }
    ensures { told_at head.now pair ≡ finding_told (Ok result) }
{
    let operational = loop_at(head, pair);
    match choose(operational, loop_at(head, 12))? {
        Choice::Own(offset) => Some(pair + 2 + offset),
        Choice::Platform(offset) => Some(14 + offset),
    }
}

// The same, with the offset of the nine bytes: beside `read`, as a foreign caller cannot be handed a part.
#[tactic(auto, unfolding(notification_rules::specs::Told::finding_told), using(crate::proofs::Answers::pair_answers))]
pub fn finding(device: Address, s: &[u8]) -> Result<Option<usize>, Refusal>
    ensures { finding_told result ≡ finding_of device s.now }
{
    match find(device, s)? {
        None => Ok(None),
        Some(pair) => Ok(nine_offset(checked(s), pair)),
    }
}
