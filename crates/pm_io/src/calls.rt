//! The count of calls and faults that the source and the sink in memory share.
ghost use Rattle.std.specs.Prelude.{◌≡◌, ◌↔◌, IsTrue, []};
ghost use Rattle.std.specs.List.{Contains};
ghost use Rattle.pm_io.specs.Faults.{one_more};
ghost use Rattle.pm_io.specs.Memory.{FailsNext};

/// Which calls fail, how many calls there were, and how many faults. Both counts stop at the last number.
#[derive(Drop)]
pub struct Calls {
    pub fail: Vec<u32>,
    pub made: u64,
    pub faults: u64,
}

/// Whether a number stands in the list.
fn stands_in(numbers: &[u32], number: u64) -> bool
    ensures { IsTrue result ↔ Contains numbers.now number }
{
    numbers.iter().any(|each| u64::from(*each) == number)
}

impl Calls {
    pub fn new(fail: Vec<u32>) -> Self
        ensures { result ≡ record { fail = fail; made = 0; faults = 0 } }
    {
        Calls {
            fail,
            made: 0,
            faults: 0,
        }
    }

    /// Counts a call, and says whether it is one of those that fail.
    pub fn begin(&mut self) -> bool
        ensures counted { self.new ≡ record self.old { made = one_more self.old.made } }
        ensures fails { IsTrue result ↔ FailsNext self.old.fail.items self.old.made }
    {
        self.made = self.made.saturating_add(1);
        stands_in(self.fail.as_slice(), self.made)
    }

    /// Counts a fault.
    pub fn fault(&mut self)
        ensures { self.new ≡ record self.old { faults = one_more self.old.faults } }
    {
        self.faults = self.faults.saturating_add(1);
    }
}
