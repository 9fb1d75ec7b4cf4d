// Input codes: the pin and its new external level.
ghost use Rattle.std.specs.Prelude.{◌≡◌};
ghost use Rattle.r6501q_state.specs.Inputs.{with_input};

use crate::state::Levels;

// RES, the last pin.
pub const LAST_PIN: u8 = 33;

// The weight of the code's level.
const HIGH: u8 = 64;

// RES high, the input that releases a fresh chip.
pub const RES_HIGH: u8 = LAST_PIN + HIGH;

impl Levels {
    // The external levels after one input.
    pub fn input(mut self, code: u8) -> Levels
        ensures { result ≡ with_input self code }
    {
        let pin = code % 64;
        let high = code / HIGH % 2 == 1;
        if pin < 32 {
            self.ports = bits::with_bit32(self.ports, pin as u32, high);
            return self;
        }
        if pin == 32 {
            self.nmi = high;
            return self;
        }
        self.res = high;
        self
    }
}
