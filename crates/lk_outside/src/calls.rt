ghost use Rattle.std.specs.Prelude.{◌≡◌, ◌↔◌, IsTrue};
ghost use Rattle.lk_outside.specs.Calls.{NextFails, calls_after};

use lk_ast::List;
use std::marker::Model;

/// The calls of a form in memory: which are to fail, by their numbers from 0, and how many there were. The count stays
/// at the greatest `u64` once it is there.
#[derive(Drop)]
pub struct NumberedCalls {
    failing: List<u64>,
    made: u64,
}

impl Model for NumberedCalls {
    ghost use Rattle.lk_outside.specs.Calls.{Calls};

    ghost Value = { Calls };

    ghost view = { λ calls. record { failing = calls.failing; made = calls.made } };
}

impl NumberedCalls {
    /// No call yet. Those of these numbers are to fail.
    pub fn new(failing: List<u64>) -> NumberedCalls
        ensures { result ≡ record { failing = failing; made = 0 } }
    {
        NumberedCalls { failing, made: 0 }
    }

    /// Makes one more call, and tells whether it is to fail.
    pub fn next_fails(&mut self) -> bool
        ensures fails { IsTrue result ↔ NextFails self.old }
        ensures made { self.new ≡ calls_after self.old }
    {
        let fails = self.failing.as_slice().contains(&self.made);
        self.made = self.made.saturating_add(1);
        fails
    }
}
