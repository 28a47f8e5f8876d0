//! What opening subtables and making filters may cost: an allowance of work and of bytes, and the draws from it.
ghost use Rattle.std.specs.Prelude.{◌≡◌, ◌-◌, [], ◌∷◌, is_ok, if◌then◌else◌, nat_le};
ghost use Rattle.answers.specs.declared.refusal.Refusal.TheVariants.{Exhausted};
ghost use Rattle.opentype.specs.Draws.{Drew, of_bytes, of_work};
ghost use Rattle.digest.specs.Allowances.{Drawn, allowance_of};

use answers::Refusal;

/// A draw was above what is left of its counter.
#[derive(Clone, Copy, Debug, PartialEq, Eq)]
pub struct Exhausted;

impl From<Exhausted> for Refusal {
    ghost from_gives = { λ _ r. r ≡ Exhausted };

    fn from(_fault: Exhausted) -> Refusal {
        Refusal::Exhausted
    }
}

/// What is left of an allowance of work and of bytes. It can be neither copied nor dropped, so that no draw is forgotten:
/// `end` takes it apart.
pub struct Budget {
    work: u64,
    bytes: u64,
}

impl Budget {
    /// An allowance.
    pub fn new(work: u64, bytes: u64) -> Self
        ensures work { result.work ≡ work }
        ensures bytes { result.bytes ≡ bytes }
    {
        Self { work, bytes }
    }

    /// Draws on the work: one for each entry or rule that is visited.
    pub fn work(&mut self, visits: u64) -> Result<(), Exhausted>
        ensures drew { Drew (of_work visits ∷ []) (allowance_of self.old) (allowance_of self.new) (is_ok result) }
        ensures drawn { Drawn (of_work visits) (allowance_of self.old) (allowance_of self.new) (is_ok result) }
    {
        Self::take(&mut self.work, visits)
    }

    /// Draws on the bytes.
    pub fn bytes(&mut self, amount: u64) -> Result<(), Exhausted>
        ensures drew { Drew (of_bytes amount ∷ []) (allowance_of self.old) (allowance_of self.new) (is_ok result) }
        ensures drawn { Drawn (of_bytes amount) (allowance_of self.old) (allowance_of self.new) (is_ok result) }
    {
        Self::take(&mut self.bytes, amount)
    }

    /// The work that is left.
    pub fn work_left(&self) -> u64
        ensures value { result ≡ self.now.work }
    {
        self.work
    }

    /// The bytes that are left.
    pub fn bytes_left(&self) -> u64
        ensures value { result ≡ self.now.bytes }
    {
        self.bytes
    }

    /// Ends the allowance, and tells the work and the bytes that are left of it.
    pub fn end(self) -> (u64, u64)
        ensures value { result ≡ (self.work, self.bytes) }
    {
        let Budget { work, bytes } = self;
        (work, bytes)
    }

    /// Takes an amount from a counter, unless it is above what is left of it.
    fn take(counter: &mut u64, amount: u64) -> Result<(), Exhausted>
        ensures answer { is_ok result ≡ nat_le amount counter.old }
        ensures left { counter.new ≡ (if nat_le amount counter.old then counter.old - amount else counter.old) }
    {
        *counter = counter.checked_sub(amount).ok_or(Exhausted)?;
        Ok(())
    }
}
