//! The step of the check register.
ghost use Rattle.std.specs.Prelude.{◌≡◌};
ghost use Rattle.sss.specs.Cipher.{check_step};

use crate::coefficient::Coefficient;
use crate::register::CheckRegister;

impl CheckRegister {
    /// Takes the word `m`: the words shift, and m ⊕ A(c[0]) ⊕ c[4] ⊕ c[15] enters, all as they were before.
    #[tactic(auto, unfolding(crate::specs::Cipher::check_step))]
    pub fn step<C: Coefficient>(&mut self, a: &C, m: u16)
        ensures { self.new ≡ check_step (C.image a.now) self.old m }
    {
        let entering = m ^ a.multiply(self.at(0)) ^ self.at(4) ^ self.at(15);
        self.push(entering);
    }
}
