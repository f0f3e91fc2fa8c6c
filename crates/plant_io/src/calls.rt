ghost use Rattle.std.specs.Prelude.{◌≡◌, ◌+◌, ◌↔◌, IsTrue, Contains};
ghost use Rattle.plant_io.specs.Causes.{raised};

/// The calls made so far, and those of them that failed.
#[derive(Debug, Drop)]
pub struct Calls {
    pub fails: Vec<u64>,
    pub made: u64,
    pub failed: u64,
}

impl Calls {
    /// None so far. Those whose numbers, from 1, stand in the list will fail.
    pub fn new(fails: Vec<u64>) -> Calls
        ensures fails { result.fails.items ≡ fails.items }
        ensures made { result.made ≡ 0 }
        ensures failed { result.failed ≡ 0 }
    {
        Calls {
            fails,
            made: 0,
            failed: 0,
        }
    }

    /// Makes one more call, and answers whether it is to fail.
    pub fn fails_next(&mut self) -> bool
        ensures fails { IsTrue result ↔ Contains self.old.fails.items (self.old.made + 1) }
        ensures after { self.new ≡ record self.old { made = raised self.old.made } }
    {
        let fails = self.fails.as_slice();
        let Some(number) = self.made.checked_add(1) else {
            return false;
        };
        let answer = fails.contains(&number);
        self.made = number;
        answer
    }

    /// Counts a failed call.
    pub fn fail(&mut self)
        ensures { self.new ≡ record self.old { failed = raised self.old.failed } }
    {
        self.failed = self.failed.saturating_add(1);
    }
}
