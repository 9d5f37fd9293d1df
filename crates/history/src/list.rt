// Lists of calls that stay as they are: the answers are a list of their own.
ghost use Rattle.std.specs.Prelude.{◌≡◌, List, MatchResult};
ghost use Rattle.history.specs.History.{Event};
ghost use Rattle.history.specs.Promise.{Reached};
ghost use Rattle.history.specs.Lists.{ServedList, BrokeOff, RanList, RanInPart};

use crate::calls::{Answer, Call, make};
use disk::Disk;
use kind::Kind;
use server::Server;
use std::alloc::{AllocError, Global};

// Makes the calls in their order, and gives their answers. Where memory for the answers fails it breaks off, after the calls that
// were made by then.
pub fn serve_list<D: Disk, K: Kind>(
    heap: Global,
    server: &mut Server<D, K>,
    calls: &[Call],
) -> Result<Vec<Answer>, AllocError>
    ensures kind { server.new.kind ≡ server.old.kind }
    ensures promise { let k = K.numbering server.old.kind in
        (first : D) (past : List Event) →
        Reached D.moves D.meaning k first past server.old.state server.old.disk →
        let state = server.new.state in
        let disk = server.new.disk in
        MatchResult result
        (λ made. ServedList D.moves D.meaning k first past calls.now made.items state disk)
        (λ _. BrokeOff D.moves D.meaning k first past calls.now state disk) }
{
    let mut answers = Vec::new(heap);
    for call in calls {
        answers.push(make(server, *call))?;
    }
    Ok(answers)
}

// What a list of calls came to: the server after them, and their answers.
#[derive(Drop)]
pub struct Outcome<D: Disk, K: Kind> {
    pub server: Server<D, K>,
    pub answers: Result<Vec<Answer>, AllocError>,
}

// Puts a server together on a disk of any size, makes the calls in their order, and gives the server back, also where memory for
// the answers fails.
pub fn run_list<D: Disk, K: Kind>(heap: Global, disk: D, kind: K, calls: &[Call]) -> Outcome<D, K>
    ensures kind { result.server.kind ≡ kind }
    ensures promise { let k = K.numbering kind in
        let state = result.server.state in
        let after = result.server.disk in
        MatchResult result.answers
        (λ made. RanList D.moves D.meaning k disk calls.now made.items state after)
        (λ _. RanInPart D.moves D.meaning k disk calls.now state after) }
{
    let mut server = Server::new(disk, kind);
    let answers = serve_list(heap, &mut server, calls);
    Outcome { server, answers }
}
