// Where a position of the interleaver stands.
ghost use Rattle.std.specs.Prelude.{◌≡◌, ◌+◌, ◌<◌, get_or};
ghost use Rattle.acm.specs.Formats.{M};

use crate::steps::BANKS;

// A column, and a row's elements of α and β.
#[derive(Clone, Copy)]
pub struct Place {
    pub column: usize,
    pub address: u16,
    pub shift: u8,
    pub ghost column_low: { column < M },
    pub ghost shift_low: { shift < M },
}

impl Place {
    // The entry of its bank, and its α added.
    pub(crate) fn looked_up(self, banks: &[u16; BANKS]) -> usize
        ensures { result ≡ get_or banks.now (self.column + self.shift) 0 + self.address }
    {
        usize::from(banks[self.column + usize::from(self.shift)]) + usize::from(self.address)
    }
}
