// Records steer a working: definitions in specs/, theorems in proofs/. The crates above have the code. Both speak of a record.
#![tactic(auto)]

ghost use Rattle.std.specs.Prelude.{◌≡◌, ◌≤◌, get_or, MatchResult};
ghost use Rattle.refusals.specs.declared.Refusal.TheVariants.{BadRecord};
ghost use Rattle.records.specs.Records.{record_of};
ghost use Rattle.records.specs.Choices.{recorded};

use refusals::Refusal;

// A record of two bytes. Kind 0 chooses a joint, 1 sets a mark, 2 returns to it; any other is refused when its turn comes, so a record has a byte
// for its kind, as the definitions have.
#[derive(Clone, Copy)]
pub struct Record {
    pub kind: u8,
    pub number: u8,
}

impl From<[u8; 2]> for Record {
    ghost from_gives = { λ bytes r. r ≡ record_of (get_or bytes 0 0) (get_or bytes 1 0) };

    fn from(bytes: [u8; 2]) -> Record {
        let [kind, number] = bytes;
        Record { kind, number }
    }
}

// What a record says: a joint is chosen, a mark is set, or returned to.
#[derive(Clone, Copy)]
pub enum Choice {
    Step(u8),
    Set(u8),
    Return(u8),
}

impl TryFrom<Record> for Choice {
    type Error = Refusal;

    // a kind above 2 says nothing
    ghost try_from_gives = { λ r said. MatchResult said (λ c. recorded c ≡ r) (λ e. (e ≡ BadRecord) × (3 ≤ r.kind)) };

    fn try_from(record: Record) -> Result<Choice, Refusal> {
        match record.kind {
            0 => Ok(Choice::Step(record.number)),
            1 => Ok(Choice::Set(record.number)),
            2 => Ok(Choice::Return(record.number)),
            _ => Err(Refusal::BadRecord),
        }
    }
}
