//! The counter.
ghost use Rattle.std.specs.Prelude.{◌≡◌, ℕ};
ghost use Rattle.counter.specs.Counting.{gives, needs, owner, Asks, Fits, Refuses};

use fam_base::FamError;
use turn_cell::Object;

/// At most so many bookings stand at once.
const MOST: u64 = 1 << 32;

#[derive(Drop)]
pub struct Counter {
    pub value: u64,
    /// How many bookings were opened and not closed. For each an entry is reserved.
    pub booked: u64,
}

/// Each call answers what the counter was before it.
#[derive(Clone, Copy, Debug, PartialEq, Eq)]
pub enum Call {
    /// Refused where the sum would leave 64 bits.
    Add(u64),
    Get,
    /// Opens a booking of this program. Refused where too many stand.
    Open(u32),
    /// Closes one. It needs one that stands, takes its reserved entry, and is never refused.
    Close(u32),
}

impl Object for Counter {
    ghost use Rattle.counter.specs.declared.counter.Counter.{Counter};

    type Call = Call;

    type Reply = u64;

    ghost Meaning = { Counter };

    ghost meaning = { λ c. c };

    ghost gives = { gives };

    ghost needs = { λ _ call. needs call };

    ghost held_back = { λ c. c.booked };

    ghost owner = { owner };

    ghost asks = { Asks };

    ghost fits = { Fits };

    ghost ready = { λ _ _ _. Unit {0} };

    ghost refuses = { Refuses };

    fn need(&self, call: &Call) -> u64 {
        match call {
            Call::Add(_) | Call::Get => 1,
            Call::Open(_) => 2,
            Call::Close(_) => 0,
        }
    }

    fn reserved(&self) -> u64 {
        self.booked
    }

    fn room(&mut self, call: &Call) -> Result<u64, FamError> {
        let fits = match *call {
            Call::Add(k) => k <= u64::MAX - self.value,
            Call::Open(_) => self.booked < MOST,
            Call::Get | Call::Close(_) => true,
        };
        if fits { Ok(0) } else { Err(FamError::Memory) }
    }

    fn apply(&mut self, call: &Call, out: &mut u64, copy: &mut u64) {
        let old = self.value;
        match *call {
            Call::Add(k) => self.value = old + k,
            Call::Get => {}
            Call::Open(_) => self.booked += 1,
            Call::Close(_) => self.booked -= 1,
        }
        *out = old;
        *copy = old;
    }
}
