// An event to bytes.
ghost use Rattle.std.specs.Prelude.{◌≡◌};
ghost use Rattle.input.specs.Layout as spec;

use crate::Event;

// The low byte, which comes first.
pub fn low(n: u16) -> u8
    ensures { result ≡ spec.low n }
{
    n.to_le_bytes()[0]
}

// The high byte, which comes second.
pub fn high(n: u16) -> u8
    ensures { result ≡ spec.high n }
{
    n.to_le_bytes()[1]
}

// An event as bytes: kind, task, resource, reserve, tick.
pub fn event_bytes(e: Event) -> [u8; Event::SIZE]
    ensures { result ≡ spec.event_bytes e }
{
    [e.kind, e.task, e.resource, 0, low(e.tick), high(e.tick)]
}
