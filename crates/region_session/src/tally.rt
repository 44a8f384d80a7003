//! What sessions did, all together.

ghost use Rattle.std.specs.Prelude.{◌≡◌};
ghost use Rattle.stage_core.specs.Bases.{raised};

/// How many cells were fetched and run by the sessions that were closed into it, and how many samples they kept when
/// they were closed. A sum above 2^64 - 1 is held at 2^64 - 1.
#[derive(Clone, Copy, Debug, PartialEq, Eq)]
pub struct Tally {
    fetched: u64,
    ran: u64,
    kept: u64,
}

impl Tally {
    ghost use Rattle.region_session.specs.Sessions.{fetched_of, ran_of, kept_of};

    /// Three zeros.
    pub fn new() -> Tally
        ensures fetched { fetched_of result ≡ 0 }
        ensures ran { ran_of result ≡ 0 }
        ensures kept { kept_of result ≡ 0 }
    {
        Tally {
            fetched: 0,
            ran: 0,
            kept: 0,
        }
    }

    /// The number of cells fetched.
    pub fn fetched(&self) -> u64
        ensures { result ≡ fetched_of self.now }
    {
        self.fetched
    }

    /// The number of cells run.
    pub fn ran(&self) -> u64
        ensures { result ≡ ran_of self.now }
    {
        self.ran
    }

    /// The number of samples kept.
    pub fn kept(&self) -> u64
        ensures { result ≡ kept_of self.now }
    {
        self.kept
    }

    /// Raises the three numbers, at most to 2^64 - 1.
    pub(crate) fn raise(&mut self, fetched: u64, ran: u64, kept: u64)
        ensures fetched { fetched_of self.new ≡ raised (fetched_of self.old) fetched }
        ensures ran { ran_of self.new ≡ raised (ran_of self.old) ran }
        ensures kept { kept_of self.new ≡ raised (kept_of self.old) kept }
        ensures nothing { fetched ≡ 0 → ran ≡ 0 → kept ≡ 0 → self.new ≡ self.old }
    {
        self.fetched = self.fetched.saturating_add(fetched);
        self.ran = self.ran.saturating_add(ran);
        self.kept = self.kept.saturating_add(kept);
    }
}
