// Numbered rules in a fixed order. A check function asks one rule after another: `require` and `?` hand back the first that is broken, and no later
// rule is asked. A rule that asks for what earlier rules give thus stands behind them.
ghost use Rattle.std.specs.Prelude.{◌≡◌};
ghost use Rattle.base.specs.Refusals.{number_of, required, code_of};

// Why a call is refused. The discriminant is the number that is answered.
#[derive(Clone, Copy, Debug, PartialEq, Eq)]
pub enum Refusal {
    Kind = 1,
    Field = 2,
    Channels = 3,
    MapSize = 4,
    KernelSide = 5,
    Stride = 6,
    Padding = 7,
    Output = 8,
    Crop = 9,
    MapLength = 10,
    KernelLength = 11,
    OutputLength = 12,
    ScratchLength = 13,
    Peak = 14,
    ValueAbove = 15,
    Load = 16,
    Index = 17,
    WordCount = 18,
    Residues = 19,
    Levels = 20,
    StepCount = 21,
    Links = 22,
    Added = 23,
    BlankChannel = 24,
    ValueBelow = 25,
    Filter = 26,
    JoinedSide = 27,
    JoinedWeight = 28,
    NoWindow = 29,
}

impl Refusal {
    // The number that is answered.
    pub fn number(self) -> usize
        ensures { result ≡ number_of self }
    {
        self as usize
    }
}

// One rule: what is answered where it does not hold.
#[tactic(auto, unfolding(crate::specs::Refusals::required))]
pub fn require(refusal: Refusal, holds: bool) -> Result<(), Refusal>
    ensures { result ≡ required refusal holds }
{
    if holds { Ok(()) } else { Err(refusal) }
}

// The number of the first rule that is broken, or 0.
pub fn code_of(checked: Result<(), Refusal>) -> usize
    ensures { result ≡ code_of checked }
{
    match checked {
        Ok(()) => 0,
        Err(refusal) => refusal.number(),
    }
}
