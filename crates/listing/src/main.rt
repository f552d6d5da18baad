// Cuts standard input into offers, gives each to the receiver, and writes a line for each: offset, answer, unit length.
// Document 01, 'Listing'.
#![tactic(auto)]

ghost use Rattle.std.specs.Prelude.{◌≡◌, ◌+◌, ◌<◌, ◌≤◌, ◌↔◌, ◌++◌, length};
ghost use Rattle.rules.specs.Told.{answer_told};
ghost use Rattle.listing.specs.Text.{field, line};

use arrayvec::ArrayString;
use itoa::Buffer;
use rules::{Reception, Refusal, Settings, State};
use std::io::writer;
use std::rt::Clock;
use stream::Failure;

// What may follow the bytes at hand: more of the input, or nothing, since it has ended or since a read of it failed.
#[derive(Clone, Copy)]
enum Rest {
    Open,
    Closed,
    Unreadable,
}

// The input's buffer, which is large, since what is done is written before each read. The bytes at hand are start..end of it.
#[derive(Drop)]
struct Window {
    bytes: [u8; 262144],
    start: usize,
    end: usize,
    rest: Rest,
    ghost order: { start ≤ end },
    ghost within: { end ≤ length bytes },
}

// The output's buffer, which holds whole lines.
type Output = ArrayString<65536>;

// The first of the bytes at hand is number `offset` of the input. The receiver has the unit's buffer and the state. Settings stand beside a walk
// and not in it: they do not change, and the contracts say what they say of any.
#[derive(Drop)]
struct Walk {
    input: Window,
    output: Output,
    unit: [u8; 65535],
    offset: u64,
    state: State,
}

// Puts a number and the byte after it.
#[tactic(auto, using(crate::proofs::Text::put_field))]
fn put_field(output: &mut Output, n: u64, mark: char)
    requires room { length output.old.bytes + 21 ≤ 65536 }
    requires ascii { mark < 128 }
    ensures text { output.new.bytes ≡ output.old.bytes ++ field n mark }
    ensures short { length output.new.bytes ≤ length output.old.bytes + 21 }
{
    let mut digits = Buffer::new();
    output.push_str(digits.format(n));
    output.push(mark);
}

#[tactic(auto, using(crate::proofs::Text::put_told))]
fn put_line(output: &mut Output, offset: u64, answer: Result<Reception, Refusal>)
    requires { length output.old.bytes + 63 ≤ 65536 }
    ensures { output.new.bytes ≡ output.old.bytes ++ line offset (answer_told answer) }
{
    let number = u64::from(answer_numbers::number_of(answer));
    let length = answer_numbers::length_of(answer) as u64;
    put_field(output, offset, ' ');
    put_field(output, number, ' ');
    put_field(output, length, '\n');
}

impl Rest {
    ghost use Rattle.listing.specs.Walk.{has_ended};

    fn has_ended(self) -> bool
        ensures { result ≡ has_ended self }
    {
        !matches!(self, Rest::Open)
    }
}

impl Window {
    ghost use Rattle.std.specs.Prelude.{false, true};
    ghost use Rattle.stream.specs.Words.{count_of};
    ghost use Rattle.listing.specs.Walk.{at_hand, has_ended, whole, ready, Offered, Came, Kept};

    fn at_hand(&self) -> &[u8]
        ensures { result.now ≡ at_hand self.now }
    {
        &self.bytes[self.start..self.end]
    }

    // The bytes at hand hold a whole offer. The longest has 4,098 bytes: with as many there is no need to look.
    #[tactic(auto, unfolding(crate::specs::Walk::whole), using(crate::proofs::Owed::longest))]
    fn whole(&self) -> bool
        ensures { result ≡ whole (at_hand self.now) }
    {
        let hand = self.at_hand();
        4098 <= hand.len() || 3 + section_fields::section_length(hand) <= hand.len()
    }

    // An offer may be cut.
    #[tactic(auto, unfolding(crate::specs::Walk::ready, wire::specs::Choice::either))]
    fn ready(&self) -> bool
        ensures { result ≡ ready self.now }
    {
        self.rest.has_ended() || self.whole()
    }

    // All of the input is offered.
    fn is_offered(&self) -> bool
        ensures { (result ≡ true) ↔ Offered self.now }
    {
        self.rest.has_ended() && self.start == self.end
    }

    // What a read into the room after the bytes at hand gave: more of them, the end of the input, or a failure, which ends it too.
    #[tactic(auto, unfolding(wire::specs::Choice::either))]
    fn came(&mut self, got: Result<usize, Failure>)
        requires ended { has_ended self.old.rest ≡ false }
        requires room { self.old.end + count_of got ≤ length self.old.bytes }
        ensures { Came self.old got self.new }
    {
        match got {
            Ok(0) => self.rest = Rest::Closed,
            Ok(n) => self.end += n,
            Err(_) => self.rest = Rest::Unreadable,
        }
    }

    // More input: one read after the bytes at hand; where the room there is short, they move to the front first.
    fn refill(&mut self, rt: &(impl std::io::Input + Clock))
        requires { has_ended self.old.rest ≡ false }
        ensures { Kept self.old self.new }
    {
        if self.bytes.len() - self.end < 4098 {
            self.bytes.copy_within(self.start..self.end, 0);
            self.end -= self.start;
            self.start = 0;
            return;
        }
        let got = stream::read_some(rt, &mut rt.reader(), &mut self.bytes[self.end..]);
        self.came(got);
    }
}

impl Walk {
    ghost use Rattle.std.specs.Prelude.{ℕ, List, true, IsOkUnless};
    ghost use Rattle.stream.specs.declared.Failure.TheVariants.{Writing};
    ghost use Rattle.rules.specs.Recording.{listing_settings};
    ghost use Rattle.listing.specs.Lines.{listing};
    ghost use Rattle.listing.specs.Walk.{ready, Served, due, Wrote, Gave, owed, Offered, Turned};
    ghost use Rattle.listing.specs.Turns.{Fresh, Ended, Listed, failure_of};

    // At the start of a recording, with a fresh receiver: its listing is owed, and any recording may be left.
    fn new() -> Walk
        ensures owes { (recording : List ℕ) → owed listing_settings result recording ≡ listing recording }
        ensures fresh { Fresh result }
    {
        Walk {
            input: Window {
                bytes: [0; 262144],
                start: 0,
                end: 0,
                rest: Rest::Open,
            },
            output: Output::new(),
            unit: [0; 65535],
            offset: 0,
            state: State::Idle,
        }
    }

    // One offer: the receiver gets it, and its line is put into the output's buffer.
    fn serve(&mut self, settings: Settings)
        requires offer { ready self.old.input ≡ true }
        requires room { length self.old.output.bytes + 63 ≤ 65536 }
        ensures { Served settings self.old self.new }
    {
        let hand = self.input.at_hand();
        let n = recording::offer_length(hand);
        let step = receiver::receive(settings, self.state, &hand[..n], &mut self.unit);
        put_line(&mut self.output, self.offset, step.answer);
        self.input.start += n;
        self.offset = self.offset.wrapping_add(n as u64);
        self.state = step.state;
    }

    // What the output's buffer holds. Each write takes its bytes from here.
    fn pending(&self) -> &[u8]
        ensures { result.now ≡ self.now.output.bytes }
    {
        self.output.as_str().as_bytes()
    }

    // The one write to standard output: what it is given has to be all that the output's buffer holds.
    fn write(&self, rt: &(impl Print + Clock), text: &[u8]) -> Result<(), Failure>
        requires { text.now ≡ self.now.output.bytes }
        ensures { IsOkUnless result Writing }
    {
        stream::write_whole(rt, &mut writer(rt), text)
    }

    // What a write of all that the output's buffer holds answered is handed on, and the buffer is empty then.
    fn wrote(&mut self, outcome: Result<(), Failure>) -> Result<(), Failure>
        ensures { Wrote self.old outcome result self.new }
    {
        self.output.clear();
        outcome
    }

    fn flush(&mut self, rt: &(impl Print + Clock)) -> Result<(), Failure>
        ensures gave { Gave self.old self.old.output.bytes self.new }
        ensures failed { IsOkUnless result Writing }
    {
        let outcome = self.write(rt, self.pending());
        self.wrote(outcome)
    }

    // A write is due: a line may not fit, or the turn would read although there is something to write, and a read may wait.
    #[tactic(auto, unfolding(crate::specs::Walk::full, crate::specs::Walk::due, wire::specs::Choice::both, wire::specs::Choice::either))]
    fn due(&self, ready: bool) -> bool
        ensures is { result ≡ due self.now ready }
        ensures fits { length self.now.output.bytes ≤ 65536 }
    {
        self.output.remaining_capacity() < 63 || !ready && !self.output.is_empty()
    }

    // One turn: a write, more input, or an offer.
    fn turn(
        &mut self,
        rt: &(impl std::io::Input + Print + Clock),
        settings: Settings,
    ) -> Result<(), Failure>
        requires { Offered self.old.input → ⊥ }
        ensures { Turned settings self.old result self.new }
    {
        let ready = self.input.ready();
        if self.due(ready) {
            return self.flush(rt);
        }
        if !ready {
            self.input.refill(rt);
            return Ok(());
        }
        self.serve(settings);
        Ok(())
    }

    // Turn after turn, until all is offered or a write failed. A proved loop has to end, and nothing says that the input does: no
    // listing uses up so many turns.
    #[tactic(auto, using(crate::proofs::Turns::walked_none, crate::proofs::Turns::walked_on))]
    fn walk_on(
        &mut self,
        rt: &(impl std::io::Input + Print + Clock),
        settings: Settings,
    ) -> Result<(), Failure>
        ensures { Ended settings self.old result self.new }
    {
        for _ in 0..u64::MAX {
            if self.input.is_offered() {
                break;
            }
            self.turn(rt, settings)?;
        }
        Ok(())
    }

    // The whole listing: the turns, and what their last lines leave in the output's buffer.
    fn list(&mut self, rt: &(impl std::io::Input + Print + Clock)) -> Result<(), Failure>
        requires owes { (recording : List ℕ) → owed listing_settings self.old recording ≡ listing recording }
        requires fresh { Fresh self.old }
        ensures { Listed self.old result self.new }
    {
        let walked = self.walk_on(rt, recording::listing_settings());
        let last = self.flush(rt);
        walked.and(last)
    }

    // What has failed: the input, where both have, since nothing is read after a write that failed.
    #[tactic(auto, unfolding(crate::specs::Turns::failure_of, wire::specs::Choice::pick))]
    fn outcome(&self, written: Result<(), Failure>) -> Result<(), Failure>
        ensures { result ≡ failure_of self.now written }
    {
        match self.input.rest {
            Rest::Unreadable => Err(Failure::Reading),
            Rest::Open | Rest::Closed => written,
        }
    }
}

fn main(rt: HostRuntime) {
    let mut walk = Walk::new();
    let written = walk.list(&rt);
    stream::say(walk.outcome(written));
}
