// A history that the promise speaks of, worked by hand.
ghost use Rattle.std.specs.Prelude.{◌≡◌, [], ◌∷◌, map};
ghost use Rattle.kind.specs.Meaning.{LawfulKind};
ghost use Rattle.disk.specs.Blank.{WithoutRecords};
ghost use Rattle.history.specs.History.{labels};
ghost use Rattle.worked.specs.Worked.{one_by_one, start, worked, WorkedHistory, TornInside};

// The last identifier of the history; before it 1 was given, and nothing else.
fn last_given() -> u64
    ensures { map (λ i. i.0) (labels 2 worked) ≡ result ∷ 1 ∷ [] }
{
    2
}

// A lawful kind on a disk without records, two requests, a power cut in the second's reservation, and a request: these calls
// make the history. It answers the last identifier.
pub fn worked_history() -> u64
    ensures lawful { LawfulKind one_by_one }
    ensures without { WithoutRecords start }
    ensures reached { WorkedHistory }
    ensures torn { TornInside }
    ensures given { map (λ i. i.0) (labels 2 worked) ≡ result ∷ 1 ∷ [] }
{
    last_given()
}
