// Calls on a server, one after the other, and what none of them can make false.
ghost use Rattle.std.specs.Prelude.{◌≡◌, List, map};
ghost use Rattle.history.specs.History.{Event};
ghost use Rattle.history.specs.Promise.{Reached, EveryHistoryObeys};
ghost use Rattle.history.specs.Made.{Takes, Made, Served, Ran};

use disk::{Disk, SizedDisk};
use kind::Kind;
use record::{Identifier, Reading, Sequence};
use server::{Server, ServerFault};

// A call: a request of a series at a clock's reading, or a power cut with its tear and its new supply.
#[derive(Clone, Copy, PartialEq, Eq, Debug)]
pub enum Call {
    Give { series: u8, reading: Reading },
    Cut { tear: u64, supply: u64 },
}

// What a call answered.
#[derive(Clone, Copy, PartialEq, Eq, Debug)]
pub enum Answer {
    Give(Result<Identifier, ServerFault>),
    Cut(Result<Sequence, ServerFault>),
}

// Makes one call: it extends a history by what the server's own call promises, and every such history that began on a disk without
// records obeys the laws.
#[tactic(auto, using(crate::proofs::Obeys::every_history_obeys, crate::proofs::Serves::request_made, crate::proofs::Serves::cut_made))]
pub fn make<D: Disk, K: Kind>(server: &mut Server<D, K>, call: Call) -> Answer
    ensures kind { server.new.kind ≡ server.old.kind }
    ensures extends { let k = K.numbering server.old.kind in
        (first : D) (past : List Event) →
        Reached D.moves D.meaning k first past server.old.state server.old.disk →
        Made D.moves D.meaning k first past call result server.new.state server.new.disk }
    ensures takes { let k = K.numbering server.old.kind in
        Takes D.moves D.meaning k server.old.state server.old.disk call server.new.disk }
    ensures promise { EveryHistoryObeys D.moves D.meaning }
{
    match call {
        Call::Give { series, reading } => Answer::Give(server.give(series, reading)),
        Call::Cut { tear, supply } => Answer::Cut(server.cut(tear, supply)),
    }
}

// One turn of a list: a call, and what it answered, once it was made.
#[derive(Clone, Copy, PartialEq, Eq, Debug)]
pub struct Turn {
    pub call: Call,
    pub answer: Option<Answer>,
}

// Makes the calls of the turns in their order, and writes each answer beside its call.
pub fn serve<D: Disk, K: Kind>(server: &mut Server<D, K>, turns: &mut [Turn])
    ensures kind { server.new.kind ≡ server.old.kind }
    ensures calls { map (λ turn. turn.call) turns.new ≡ map (λ turn. turn.call) turns.old }
    ensures promise { let k = K.numbering server.old.kind in
        (first : D) (past : List Event) →
        Reached D.moves D.meaning k first past server.old.state server.old.disk →
        Served D.moves D.meaning k first past turns.old turns.new server.new.state server.new.disk }
{
    // A loop, since each call changes the server: of what a closure changes a chain tells nothing.
    for turn in turns {
        turn.answer = Some(make(server, turn.call));
    }
}

// Puts a server together on a disk, makes the calls of the turns in their order, and gives the server back.
pub fn run<D: SizedDisk, K: Kind>(disk: D, kind: K, turns: &mut [Turn]) -> Server<D, K>
    ensures kind { result.kind ≡ kind }
    ensures promise { let k = K.numbering kind in
        Ran D.moves D.meaning k disk turns.old turns.new result.state result.disk }
{
    let mut server = Server::new(disk, kind);
    serve(&mut server, turns);
    server
}
