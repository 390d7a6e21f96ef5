// How many numbers were drawn, issued and voided.
ghost use Rattle.std.specs.Prelude.{◌≡◌};
ghost use Rattle.till.specs.Counting.{no_counts, drawn, after_draw, after_issue, after_void};

use refusal::Refusal;

// Each count stops at 4,294,967,295.
#[derive(Clone, Copy)]
pub struct Counts {
    // As each number is drawn in its turn, this is also the last number drawn.
    draws: u32,
    issues: u32,
    voids: u32,
}

impl Counts {
    pub(crate) fn none() -> Counts
        ensures { result ≡ no_counts }
    {
        Counts {
            draws: 0,
            issues: 0,
            voids: 0,
        }
    }

    pub fn draws(&self) -> u32
        ensures { result ≡ self.now.draws }
    {
        self.draws
    }

    pub fn issues(&self) -> u32
        ensures { result ≡ self.now.issues }
    {
        self.issues
    }

    pub fn voids(&self) -> u32
        ensures { result ≡ self.now.voids }
    {
        self.voids
    }

    // Counts a draw, and answers its number.
    #[tactic(auto, unfolding(crate::specs::Counting::drawn))]
    pub(crate) fn draw(&mut self) -> Result<u32, Refusal>
        ensures answer { result ≡ drawn self.old.draws }
        ensures after { self.new ≡ after_draw self.old }
    {
        self.draws = self.draws.checked_add(1).ok_or(Refusal::NoMoreNumbers)?;
        Ok(self.draws)
    }

    // A method for each count, as for each getter: one for both would ask its caller which.
    pub(crate) fn issue(&mut self)
        ensures { self.new ≡ after_issue self.old }
    {
        self.issues = self.issues.saturating_add(1);
    }

    pub(crate) fn void(&mut self)
        ensures { self.new ≡ after_void self.old }
    {
        self.voids = self.voids.saturating_add(1);
    }
}
