// What the store answers: the refusals and a type for what each kind of call gives, with the papers' numbers and alerts for every case.
#![tactic(auto)]

ghost use Rattle.std.specs.Prelude.{◌≡◌, MatchResult};
ghost use Rattle.tack_extension.specs.Answers.{alert_of, alert_of_two};
ghost use Rattle.pin_answers.specs.Numbers.{refusal_number, verdict_number, done_number};

// The refusals, by their numbers. 17 is edition one's alone, 24 edition two's.
#[derive(Clone, Copy, Debug, PartialEq, Eq)]
pub enum Refusal {
    AreaLength = 10,
    Damaged = 11,
    NameMalformed = 12,
    ClockAboveLimit = 13,
    ClockBeforeLatest = 14,
    HandshakeUnfinished = 15,
    ExtensionMalformed = 16,
    BreakIncorrect = 17,
    KeyNoPoint = 18,
    GenerationBelowOwn = 19,
    TargetUnequal = 20,
    SignatureIncorrect = 21,
    Revoked = 22,
    Expired = 23,
    OneKeyTwice = 24,
    OtherEdition = 27,
}

#[derive(Clone, Copy, Debug, PartialEq, Eq)]
pub enum Verdict {
    Unpinned = 0,
    Confirmed = 1,
    Contradicted = 2,
}

// A connection that was judged. `no_room`: it wanted a record and there was no room for it.
#[derive(Clone, Copy, Debug, PartialEq, Eq)]
pub struct Judged {
    pub verdict: Verdict,
    pub no_room: bool,
}

pub type Judgement = Result<Judged, Refusal>;

#[derive(Clone, Copy, Debug, PartialEq, Eq)]
pub enum Deletion {
    Deleted = 3,
    NotRecorded = 4,
}

// The end of a pin, and the minutes from the clock to it: negative where it lies before.
#[derive(Clone, Copy, Debug, PartialEq, Eq)]
pub struct End {
    pub end: u32,
    pub minutes_left: i64,
}

// What a name's record says.
#[derive(Clone, Copy, Debug, PartialEq, Eq)]
pub struct Inspection {
    pub floor: u8,
    pub initial: u32,
    pub end: Option<End>,
}

impl From<Refusal> for u8 {
    ghost from_gives = { λ r n. n ≡ refusal_number r };

    fn from(refusal: Refusal) -> u8 {
        refusal as u8
    }
}

impl From<Verdict> for u8 {
    ghost from_gives = { λ v n. n ≡ verdict_number v };

    fn from(verdict: Verdict) -> u8 {
        verdict as u8
    }
}

impl From<Judged> for u8 {
    ghost from_gives = { λ j n. n ≡ verdict_number j.verdict };

    fn from(judged: Judged) -> u8 {
        u8::from(judged.verdict)
    }
}

impl From<Deletion> for u8 {
    ghost from_gives = { λ d n. n ≡ done_number d };

    fn from(deletion: Deletion) -> u8 {
        deletion as u8
    }
}

// The number of an answer: that of what was done, or of the refusal.
pub fn number_of<T: Into<u8>>(answer: Result<T, Refusal>) -> u8
    ensures { MatchResult answer (λ done. T.converts done result) (λ r. result ≡ refusal_number r) }
{
    match answer {
        Ok(done) => done.into(),
        Err(refusal) => u8::from(refusal),
    }
}

// The TLS alert of a number; 0 where there is none.
#[tactic(auto, using(std::proofs::lemmas::Bool::Decides::nat_tests), unfolding(tack_extension::specs::Answers::alert_of))]
pub fn alert_of(number: u8) -> u8
    ensures { result ≡ alert_of number }
{
    match number {
        2 => 49,
        16 | 19 => 50,
        17 | 18 | 21 => 51,
        20 => 47,
        22 => 44,
        23 => 45,
        _ => 0,
    }
}

// The TLS alert of a number in edition two.
#[tactic(auto, using(std::proofs::lemmas::Bool::Decides::nat_tests), unfolding(tack_extension::specs::Answers::alert_of_two))]
pub fn alert_of_two(number: u8) -> u8
    ensures { result ≡ alert_of_two number }
{
    match number {
        16 | 18..=21 | 24 => 42,
        _ => alert_of(number),
    }
}
