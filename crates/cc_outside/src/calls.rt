// The calls of a kind in memory.
ghost use Rattle.std.specs.Prelude.{◌≡◌, ◌+◌, ◌≤◌, ◌<◌, ◌^◌, ◌↔◌, IsTrue, None, Some};
ghost use Rattle.std.specs.Bool.{OnTrue, OnFalse};
ghost use Rattle.cc_outside.specs.Faults.{counted_up};

/// How many calls there were, the number of the one that is to fail, and how many failed.
#[derive(Clone, Copy)]
pub(crate) struct Calls {
    pub(crate) made: u64,
    pub(crate) fails_at: Option<u64>,
    pub(crate) faults: u64,
}

impl Calls {
    pub(crate) fn new() -> Calls
        ensures { result ≡ record { made = 0; fails_at = None; faults = 0 } }
    {
        Calls {
            made: 0,
            fails_at: None,
            faults: 0,
        }
    }

    /// Counts one more call, and says whether it is the one that is to fail.
    pub(crate) fn count(&mut self) -> bool
        ensures fails { IsTrue result ↔ (self.old.fails_at ≡ Some (self.old.made + 1)) }
        ensures made { self.new.made ≡ counted_up self.old.made }
        ensures named { self.new.fails_at ≡ self.old.fails_at }
        ensures never_falls { self.old.faults ≤ self.new.faults }
        ensures bounded { self.new.faults < 2 ^ 64 }
        ensures rises { OnTrue result (self.new.faults ≡ counted_up self.old.faults) }
        ensures stays { OnFalse result (self.new.faults ≡ self.old.faults) }
    {
        let fails = match self.fails_at {
            Some(number) => self.made < number && number - 1 == self.made,
            None => false,
        };
        let faults = self.faults;
        self.made = self.made.saturating_add(1);
        self.faults = if fails {
            faults.saturating_add(1)
        } else {
            faults
        };
        fails
    }
}
