// Why a call is refused.
ghost use Rattle.std.specs.Prelude.{[], ◌∷◌, ◌≡◌};
ghost use Rattle.state.specs.Answers.{number, one_number_of, refusal_of};
ghost use Rattle.state.specs.Refusal.{pair_conditions, refusal};
ghost use Rattle.state.specs.Inside.Earlier.{earlier};

// 01's and 02's refusals, with their numbers. A call tests what they stand for in their order, but for 13, which comes after 5, 14, which comes before 4,
// and 15, which comes before 12.
#[derive(Clone, Copy, Debug, PartialEq, Eq, PartialOrd, Ord)]
pub enum Refusal {
    // The number of nodes is 0 or above MAX_NODES.
    NodeCount = 1,
    // A buffer has another length than the number of nodes requires.
    Length = 2,
    // The scratch is too short.
    Scratch = 3,
    // A node's number is not below the number of nodes.
    Node = 4,
    // The two nodes are the same.
    SameNode = 5,
    // The edge to add is there.
    EdgePresent = 6,
    // The edge to remove is not there.
    EdgeAbsent = 7,
    // The number of entries is 0 or above the number of nodes.
    EntryCount = 8,
    // A snapshot, or a script, is malformed.
    Malformed = 9,
    // A snapshot is of another number of nodes.
    OtherCount = 10,
    // Before the call a node has more than LIMIT edges.
    CrowdedBefore = 11,
    // After the call a node would have more than LIMIT edges.
    CrowdedAfter = 12,
    // A record's hours end where they begin, or before.
    NoHours = 13,
    // A survey is not a whole number of records.
    PartRecord = 14,
    // Both editors have spoken on a pair and left it different.
    Conflict = 15,
}

impl From<Refusal> for u64 {
    ghost from_gives = { λ r n. n ≡ number r };

    fn from(refusal: Refusal) -> u64 {
        refusal as u64
    }
}

// Refusals 4 and 5 of a pair.
pub fn check_pair(n: usize, a: usize, b: usize) -> Result<(), Refusal>
    ensures { refusal_of result ≡ refusal (pair_conditions n ((a, b) ∷ [])) }
{
    if n <= a || n <= b {
        return Err(Refusal::Node);
    }
    if a == b {
        return Err(Refusal::SameNode);
    }
    Ok(())
}

// Of two answers the refusal that has the lower number; accepted where both are.
pub fn earlier(x: Result<(), Refusal>, y: Result<(), Refusal>) -> Result<(), Refusal>
    ensures { refusal_of result ≡ earlier (refusal_of x) (refusal_of y) }
{
    match (x, y) {
        (Err(a), Err(b)) => Err(a.min(b)),
        (Ok(()), _) => y,
        (_, Ok(())) => x,
    }
}

// An answer as the number of its refusal, and 0 where the call is accepted.
pub fn number_of(answer: Result<(), Refusal>) -> u64
    ensures { result ≡ refusal_of answer }
{
    match answer {
        Ok(()) => 0,
        Err(refusal) => u64::from(refusal),
    }
}

// An answer to C as one number: its value, or 2^64 less the refusal number.
pub fn one_number(answer: Result<u64, Refusal>) -> u64
    ensures { result ≡ one_number_of answer }
{
    match answer {
        Ok(value) => value,
        Err(refusal) => u64::MAX - (u64::from(refusal) - 1),
    }
}
