// The clock: the step from the last accepted tick, and the exact clock after it.
ghost use Rattle.std.specs.Prelude.{◌≡◌, ◌+◌};
ghost use Rattle.protocol.specs.Refusals.{ticks_to};

// How many values the console's tick has: after 65,535 comes 0.
const TICKS: u32 = 65536;

// The step of an event: its tick minus the last accepted one, modulo 65,536.
pub fn step_to(clock: u32, tick: u16) -> u16
    ensures { result ≡ ticks_to clock tick }
{
    let last = (clock % TICKS) as u16;
    tick.wrapping_sub(last)
}

// The exact clock after an event, in 64 bits, as it may pass the end.
pub fn clock_after(clock: u32, tick: u16) -> u64
    ensures { result ≡ clock + ticks_to clock tick }
{
    (clock as u64) + (step_to(clock, tick) as u64)
}
