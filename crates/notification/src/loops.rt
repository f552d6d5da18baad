// The loops of an INT section (EN 301 192, tables 13 and 16 to 18): whether they and their descriptors fill it exactly.
ghost use Rattle.std.specs.Prelude.{true, false, ◌≡◌};
ghost use Rattle.wire.specs.Bytes.{Reads};
ghost use Rattle.notification_rules.specs.Loop.{loop_size, descriptor_size};
ghost use Rattle.notification_rules.specs.Target.{right_length};
ghost use Rattle.notification.specs.Readers.{IsKind, worse, length_fit, descriptor_fit, loop_fit, After};

use wire::byte_at;

// How loops and descriptors fill bytes: exactly; with a known descriptor of another length (33); not exactly (32). Each is worse than the
// one before it, and the worst that was met is handed on to the end. No Result, which would stop at 33: 32 is decided over the whole section.
#[derive(Clone, Copy, PartialEq, Eq, PartialOrd, Ord)]
pub enum Fit {
    Exact,
    OtherLength,
    Misfit,
}

// What a descriptor's tag says that it holds: addresses under a mask (0x07), ranges of them (0x0E), a stream's location (0x13), or else.
#[derive(Clone, Copy, PartialEq, Eq)]
pub enum Kind {
    Addresses,
    Ranges,
    Location,
    Other,
}

impl From<u8> for Kind {
    ghost from_gives = { λ tag kind. IsKind kind tag };

    fn from(tag: u8) -> Kind {
        match tag {
            0x07 => Kind::Addresses,
            0x0e => Kind::Ranges,
            0x13 => Kind::Location,
            _ => Kind::Other,
        }
    }
}

// The bytes that the loop at the front takes.
#[tactic(auto, unfolding(notification_rules::specs::Loop::loop_size))]
pub fn loop_size(s: &[u8]) -> usize
    ensures { Reads (loop_size s.now) 4098 result }
{
    2 + wire::u16_at(s, 0) % 4096
}

// The bytes that the descriptor at the front takes.
#[tactic(auto, unfolding(notification_rules::specs::Loop::descriptor_size))]
pub fn descriptor_size(s: &[u8]) -> usize
    ensures { Reads (descriptor_size s.now) 258 result }
{
    2 + usize::from(byte_at(s, 1))
}

// A descriptor with this tag may have n bytes.
#[tactic(auto, unfolding(notification_rules::specs::Target::right_length, wire::specs::Choice::pick, wire::specs::Choice::both))]
fn right_length(tag: u8, n: u8) -> bool
    ensures { result ≡ right_length tag n }
{
    match Kind::from(tag) {
        Kind::Addresses => 6 <= n && n % 6 == 0,
        Kind::Ranges => n % 12 == 0,
        Kind::Location => n == 9,
        Kind::Other => true,
    }
}

// `fit` after one more descriptor, which has this tag and n bytes.
#[tactic(auto, unfolding(crate::specs::Readers::worse, crate::specs::Readers::length_fit, crate::specs::Readers::fit_of, wire::specs::Choice::pick))]
fn with_descriptor(fit: Fit, tag: u8, n: u8) -> Fit
    ensures { result ≡ worse fit (length_fit tag n) }
{
    if right_length(tag, n) {
        return fit;
    }
    fit.max(Fit::OtherLength)
}

// `fit` after the descriptors up to the end of a loop. That it calls itself on the rest is promised (docs/PROMISES.md).
#[tactic(auto, using(crate::proofs::Fits::fit_end, crate::proofs::Fits::fit_stop, crate::proofs::Fits::fit_more, notification_rules::proofs::Items::descriptor_two))]
fn descriptor_loop(s: &[u8], fit: Fit) -> Fit
    ensures { result ≡ worse fit (descriptor_fit s.now) }
{
    if s.len() == 0 {
        return fit;
    }
    let Some((_, rest)) = s.split_at_checked(descriptor_size(s)) else {
        return Fit::Misfit;
    };
    descriptor_loop(rest, with_descriptor(fit, byte_at(s, 0), byte_at(s, 1)))
}

// `fit` after a target loop and what follows it, up to the end. That these two call each other by turns is promised (docs/PROMISES.md).
#[cycle(operational_loop_target_loop)]
#[tactic(auto, using(crate::proofs::Fits::loops_end, crate::proofs::Fits::loops_short, crate::proofs::Fits::loops_on, notification_rules::proofs::Items::loop_two))]
fn target_loop(s: &[u8], fit: Fit) -> Fit
    ensures { result ≡ worse fit (loop_fit false s.now) }
{
    if s.len() == 0 {
        return fit;
    }
    let Some((target, rest)) = s.split_at_checked(loop_size(s)) else {
        return Fit::Misfit;
    };
    operational_loop(rest, descriptor_loop(&target[2..], fit))
}

// `fit` after an operational loop, which has to be there, and what follows it; the platform loop is read in the same way.
#[cycle(operational_loop_target_loop)]
#[tactic(auto, using(crate::proofs::Fits::loops_missing, crate::proofs::Fits::loops_on, notification_rules::proofs::Items::loop_two))]
pub fn operational_loop(s: &[u8], fit: Fit) -> Fit
    ensures { result ≡ worse fit (loop_fit true s.now) }
{
    let Some((operational, rest)) = s.split_at_checked(loop_size(s)) else {
        return Fit::Misfit;
    };
    target_loop(rest, descriptor_loop(&operational[2..], fit))
}

// What stands after the first k bytes; nothing where there are not as many.
pub fn after<'a>(s: &'a [u8], k: usize) -> &'a [u8]
    ensures { After s.entry k result }
{
    &s[k.min(s.len())..]
}
