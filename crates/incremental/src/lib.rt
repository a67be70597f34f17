// What a check finds and what it answers, and the lines of a plan of checks over a prefix. What such a plan is, and what holds of every plan,
// is in specs/ and proofs/.
#![tactic(auto)]

ghost use Rattle.std.specs.Prelude.{◌≡◌, ◌≤◌, ◌<◌, length, take, MatchResult};
ghost use Rattle.incremental.specs.Decision.{refusal, check, given, decision_of};
ghost use Rattle.incremental.specs.declared.Stop.TheVariants.{Refused, Wanted};

// What a check finds: the index of the first thing at fault and the file offset of its field.
#[derive(Clone, Copy, Debug, PartialEq, Eq)]
pub struct Fault {
    pub index: usize,
    pub offset: usize,
}

// The check's number, the index of what failed it, and the file offset of the field at fault.
#[derive(Clone, Copy, Debug, PartialEq, Eq)]
pub struct Refusal {
    pub number: u32,
    pub index: usize,
    pub offset: usize,
}

// Why the checks on a prefix don't accept it: a refusal, or that so many bytes have to be there.
#[derive(Clone, Copy, Debug, PartialEq, Eq)]
pub enum Stop {
    Refused(Refusal),
    Wanted(usize),
}

impl From<Refusal> for Stop {
    ghost from_gives = { λ r s. s ≡ Refused r };

    fn from(refusal: Refusal) -> Stop {
        Stop::Refused(refusal)
    }
}

// Every refusal is made here.
pub fn refuse(number: u32, index: usize, offset: usize) -> Refusal
    ensures { result ≡ refusal number index offset }
{
    Refusal {
        number,
        index,
        offset,
    }
}

// The first k bytes of a file, or the wish for them.
pub fn reach(file: &[u8], k: usize) -> Result<&[u8], Stop>
    ensures { MatchResult result (λ b. (k ≤ length file.now) × (b.now ≡ take k file.now)) (λ s. (length file.now < k) × (s ≡ Wanted k)) }
{
    if file.len() < k {
        return Err(Stop::Wanted(k));
    }
    Ok(&file[..k])
}

// A check by its number: the fault that it found is refused.
pub fn check(number: u32, fault: Option<Fault>) -> Result<(), Refusal>
    ensures { decision_of result ≡ check number fault }
{
    match fault {
        Some(f) => Err(refuse(number, f.index, f.offset)),
        None => Ok(()),
    }
}

// A check that hands on what it looks for; where there is none, the field at `offset` is at fault.
pub fn given<T: Copy + Drop>(number: u32, offset: usize, found: Option<T>) -> Result<T, Refusal>
    ensures { decision_of result ≡ given number offset found }
{
    match found {
        Some(x) => Ok(x),
        None => Err(refuse(number, 0, offset)),
    }
}
