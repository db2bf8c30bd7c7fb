// "A reader over the lent frames keeps the octets and the position; a frame is either taken apart into one event or refused." And the check of a
// whole stream, which walks it with a reader: how many whole frames it begins with, and which refusal stands behind them, and where.
#![tactic(auto)]

ghost use Rattle.std.specs.Prelude.{◌≡◌, ◌-◌, length};
ghost use Rattle.std.specs.Iterator.{at_most};
ghost use Rattle.protocol.specs.Floor.{limits};
ghost use Rattle.protocol.specs.Frames.{read_at, moved_to};
ghost use Rattle.frames.specs.Decoded.{refusal_number};
ghost use Rattle.frame_reader.specs.Reads.{Reads, refusal_code};
ghost use Rattle.frame_reader.specs.Checks.{check_in, checked};

use frames::Event;
use refusals::Refusal;

// "A reader over the lent frames keeps the octets and the position."
#[derive(Clone, Copy)]
pub struct Reader<'a> {
    pub octets: &'a [u8],
    pub at: usize,
}

impl<'a> Reader<'a> {
    // A reader before the first frame.
    pub fn new(octets: &'a [u8]) -> Reader<'a>
        ensures { (result.octets ≡ octets.entry) × (result.at ≡ 0) }
    {
        Reader { octets, at: 0 }
    }

    // Why what it reads is refused, `None` for an event and at the end.
    pub fn refusal(self) -> Option<Refusal>
        ensures { refusal_code result ≡ refusal_number (read_at limits self.entry.octets.now self.entry.at) }
    {
        frames::frame_at(self.octets, self.at).err()
    }

    // The reader behind what it reads: "A refused frame does not move the reader", and at the end it "does not move".
    pub fn moved(self) -> Reader<'a>
        ensures { (result.octets ≡ self.entry.octets) × (result.at ≡ moved_to self.entry.at (read_at limits self.entry.octets.now self.entry.at)) }
    {
        let mut behind = self;
        behind.next();
        behind
    }
}

// From frame to frame: each step gives the event that it reads, and moves behind it.
impl<'a> Iterator for Reader<'a> {
    type Item = Event;

    ghost next_gives = { Reads };

    ghost remaining = { λ r. at_most (length r.octets.now - r.at) };

    fn next(&mut self) -> Option<Event> {
        let Ok(Some(e)) = frames::frame_at(self.octets, self.at) else {
            return None;
        };
        self.at += frames::size_of(e);
        Some(e)
    }
}

// What a check of a stream finds: how many whole frames it begins with, the octet behind them, and why what stands there is refused, `None` at the end
// of the stream.
#[derive(Clone, Copy)]
pub struct Checked {
    pub frames: u64,
    pub at: usize,
    pub refusal: Option<Refusal>,
}

// The check of a whole stream. A reader that gives no event has come to a refused frame, or to the end. The library's `count` does not say where.
pub fn check(octets: &[u8]) -> Checked
    ensures { check_in result ≡ checked octets.now }
{
    let mut frames: u64 = 0;
    let mut reader = Reader::new(octets);
    while let Some(_) = reader.next() {
        frames += 1;
    }
    Checked {
        frames,
        at: reader.at,
        refusal: reader.refusal(),
    }
}
