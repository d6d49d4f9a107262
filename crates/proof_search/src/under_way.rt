//! A search under way.
ghost use Rattle.std.specs.Prelude.{◌≡◌, [], Some};

use crate::distances::Distances;
use crate::lemmas::Lemmas;
use diff_graph::Lit;
use std::alloc::Global;

/// Which scouts were sent from a start: to where the position of an operation is far below another one, and to where it
/// is far above it.
#[derive(Clone, Copy)]
pub struct Sent {
    pub below: bool,
    pub above: bool,
}

impl Sent {
    /// No scout.
    pub fn none() -> Sent {
        Sent {
            below: false,
            above: false,
        }
    }
}

/// A lemma that is being shown: its start's node, what it assumes so far, what followed where it was begun and from
/// what was assumed around it since, how many parts waited and how many answers were given when it was begun, whether
/// it is a scout, and which scouts were sent from the start.
#[derive(Drop)]
pub struct LemmaLevel<N: Copy> {
    pub node: N,
    pub literals: Vec<Lit>,
    pub outer: Distances,
    pub waiting: usize,
    pub answers: usize,
    pub scout: bool,
    pub sent: Sent,
}

/// A part for no that waits: its node, how many answers it shares with the open place, and its own answer after these.
#[derive(Clone, Copy)]
pub struct WaitingPart<N> {
    pub node: N,
    pub answers: usize,
    pub answer: Lit,
}

/// A search under way: the node of the open place, or none where that was closed; the lemmas that are being shown, the
/// innermost one last; the parts that wait, and what followed from the answers of each and from what the innermost
/// level assumed when the question was asked; the answers to the questions that were open both ways; what follows from
/// what the innermost level assumes and from the answers since it was begun; the lemmas that were shown, how many
/// questions were asked, and room for what followed within each level where an end fails, which so takes memory once;
/// whether the open place is the start of a scout, and which scouts were sent from there before.
#[derive(Drop)]
pub struct Search<N: Copy> {
    pub at: Option<N>,
    pub levels: Vec<LemmaLevel<N>>,
    pub waiting: Vec<WaitingPart<N>>,
    pub followed: Vec<Distances>,
    pub answers: Vec<Lit>,
    pub facts: Distances,
    pub lemmas: Lemmas<N>,
    pub asked: u64,
    pub within: Vec<Distances>,
    pub begun: bool,
    pub sent: Sent,
}

impl<N: Copy> Search<N> {
    /// A search that begins at a node: no lemma is being shown there, and none was.
    pub fn begin(alloc: Global, first: N) -> Search<N>
        ensures open { result.at ≡ Some first }
        ensures levels { result.levels.items ≡ [] }
        ensures waiting { result.waiting.items ≡ [] }
        ensures answers { result.answers.items ≡ [] }
        ensures lemmas { result.lemmas ≡ [] }
        ensures asked { result.asked ≡ 0 }
    {
        Search {
            at: Some(first),
            levels: Vec::new(alloc),
            waiting: Vec::new(alloc),
            followed: Vec::new(alloc),
            answers: Vec::new(alloc),
            facts: Distances::new(),
            lemmas: Lemmas::new(alloc),
            asked: 0,
            within: Vec::new(alloc),
            begun: false,
            sent: Sent::none(),
        }
    }
}
