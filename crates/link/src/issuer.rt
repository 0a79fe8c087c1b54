//! Nonces: each message of a run has a number of its own, which is issued once.
ghost use Rattle.std.specs.Prelude.{◌≡◌};
ghost use Rattle.link.specs.Issuing.{Draws, nonce_bytes};

use sss::Fault;

/// Issues the message numbers of one run, 0 to 65,535, once each and in order.
#[derive(Drop)]
pub struct Issuer {
    run: u32,
    issued: u32,
}

/// The nonce of one message. Only an issuer makes one, it cannot be copied, and beginning a message uses it up.
#[derive(Drop)]
pub struct Nonce {
    run: u32,
    message: u16,
}

impl Issuer {
    /// The issuer of a run, with no number issued yet.
    pub fn new(run: u32) -> Self
        ensures run { result.run ≡ run }
        ensures none { result.issued ≡ 0 }
    {
        Issuer { run, issued: 0 }
    }

    /// The issuer of a run that goes on where another left off, with so many numbers issued.
    pub fn resumed(run: u32, issued: u32) -> Self
        ensures run { result.run ≡ run }
        ensures issued { result.issued ≡ issued }
    {
        Issuer { run, issued }
    }

    /// How many numbers are issued.
    pub fn issued(&self) -> u32
        ensures { result ≡ self.now.issued }
    {
        self.issued
    }

    /// The nonce of the next message number. Where all 65,536 are issued it refuses, and nothing is changed.
    pub fn draw(&mut self) -> Result<Nonce, Fault>
        ensures { Draws self.old result self.new }
    {
        let Ok(message) = u16::try_from(self.issued) else {
            return Err(Fault::Exhausted);
        };
        self.issued += 1;
        Ok(Nonce {
            run: self.run,
            message,
        })
    }
}

impl Nonce {
    /// The six bytes of the nonce: the run number, then the message number, low bytes first.
    #[tactic(auto, unfolding(crate::specs::Issuing::nonce_bytes))]
    pub fn bytes(&self) -> [u8; 6]
        ensures { result ≡ nonce_bytes self.now }
    {
        let [a, b, c, d] = self.run.to_le_bytes();
        let [e, f] = self.message.to_le_bytes();
        [a, b, c, d, e, f]
    }
}
