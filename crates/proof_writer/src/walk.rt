//! The walk of a writer: the places that are still to be written, and which lemmas are.
ghost use Rattle.std.specs.Prelude.{◌≡◌, ◌≤◌, OnOk, IfOk, length};
ghost use Rattle.proof_trees.specs.declared.limits.TheConstants.{MAX_LITERALS};
ghost use Rattle.proof_writer.specs.Counting.{TakesNone, TakesOne};
ghost use Rattle.proof_writer.specs.Nodes.{HasNode, HasNoOthers, HasOneMore, AddsOnlyParts};
ghost use Rattle.proof_writer.specs.Texts.{ExtendsText};

use crate::place::{TreePlace, WriterStep, WriterTask};
use crate::token::{literals_of, put, put_ask, put_cycle};
use crate::written::{LemmaNumbers, Unbegun};
use ask_core::NoMemory;
use diff_graph::{Lit, negate};
use proof_search::{Facts, Lemmas, ServingLemma};
use proof_trees::{Literals, ProofTok};
use std::alloc::Global;

/// A walk under way. The literals at the present place give `facts`, each under its place in the list there; those of
/// the places that wait give `behind`, the next one's last. `cycles` has the numbers of the cycles that wait, the next
/// one's last, and `cycle` is where those of one are put.
#[derive(Drop)]
pub struct PlanWalk<N: Copy> {
    pub present: Option<TreePlace<N>>,
    pub waiting: Vec<WriterTask<N>>,
    pub facts: Facts,
    pub behind: Vec<Facts>,
    pub numbers: LemmaNumbers,
    pub unbegun: Unbegun,
    pub left: u64,
    pub cycle: Vec<u32>,
    pub cycles: Vec<u32>,
}

impl<N: Copy> PlanWalk<N> {
    /// A walk of at most so many questions from a node, with so many lemmas.
    pub fn begin(
        alloc: Global,
        first: N,
        lemmas: usize,
        questions: u64,
    ) -> Result<PlanWalk<N>, NoMemory>
        ensures nodes { IfOk result (λ w. (n : N) → HasNode n w → first ≡ n) }
        ensures left { IfOk result (λ w. w.left ≡ questions) }
    {
        Ok(PlanWalk {
            present: Some(TreePlace {
                node: first,
                length: 0,
                begun: false,
            }),
            waiting: Vec::new(alloc),
            facts: Facts::new(),
            behind: Vec::new(alloc),
            numbers: LemmaNumbers::new(alloc, lemmas)?,
            unbegun: Unbegun::new(alloc, lemmas)?,
            left: questions,
            cycle: Vec::new(alloc),
            cycles: Vec::new(alloc),
        })
    }

    /// Goes on with what waits, where no place is present.
    pub fn next(&mut self, out: &mut Vec<u8>) -> Result<WriterStep, NoMemory>
        ensures front { ExtendsText out.old.items out.new.items }
        ensures nodes { OnOk result (HasNoOthers self.old self.new) }
        ensures left { IfOk result (λ step. TakesNone step self.old.left self.new.left) }
    {
        match self.waiting.pop() {
            None => Ok(WriterStep::Done),
            Some(WriterTask::Cycle(count)) => {
                put_last_cycle(&mut self.cycles, count, out)?;
                Ok(WriterStep::More)
            }
            Some(WriterTask::Learn(place)) => {
                self.numbers.end(place);
                Ok(WriterStep::More)
            }
            Some(WriterTask::Part(place)) => {
                if !take_last(&mut self.behind, &mut self.facts) {
                    return Ok(WriterStep::Stuck);
                }
                self.present = Some(place);
                Ok(WriterStep::More)
            }
        }
    }

    /// Writes that the plan holds at the present place.
    pub fn hold(&mut self, out: &mut Vec<u8>) -> Result<WriterStep, NoMemory>
        ensures front { ExtendsText out.old.items out.new.items }
        ensures nodes { OnOk result (HasNoOthers self.old self.new) }
        ensures left { IfOk result (λ step. TakesNone step self.old.left self.new.left) }
    {
        put(ProofTok::Holds, out)?;
        self.present = None;
        Ok(WriterStep::More)
    }

    /// Writes a question at the present place, whose list has so many literals.
    pub fn ask(
        &mut self,
        number: u32,
        lit: Lit,
        yes: N,
        no: N,
        out: &mut Vec<u8>,
    ) -> Result<WriterStep, NoMemory>
        ensures front { ExtendsText out.old.items out.new.items }
        ensures nodes { OnOk result (AddsOnlyParts yes no self.old self.new) }
        ensures left { IfOk result (λ step. TakesOne step self.old.left self.new.left) }
    {
        if self.left == 0 {
            return Ok(WriterStep::Spent);
        }
        self.left -= 1;
        put_ask(out)?;
        let on_yes = part(yes, number);
        let on_no = part(no, number);
        let negation = negate(lit);

        // Where one answer is excluded, the other one follows and adds nothing to the facts.
        if self.facts.write_why_excluded(&mut self.cycle, lit, number)? {
            put_cycle(&self.cycle, out)?;
            self.present = Some(on_no);
            return Ok(WriterStep::More);
        }
        if self
            .facts
            .write_why_excluded(&mut self.cycle, negation, number)?
        {
            self.cycles.extend_from_slice(&self.cycle)?;
            self.waiting.push(WriterTask::Cycle(self.cycle.len()))?;
            self.present = Some(on_yes);
            return Ok(WriterStep::More);
        }
        self.split(lit, number)?;
        self.waiting.push(WriterTask::Part(on_no))?;
        self.present = Some(on_yes);
        Ok(WriterStep::More)
    }

    // The facts of both answers: those of yes are next, and those of no wait.
    fn split(&mut self, lit: Lit, number: u32) -> Result<(), NoMemory>
        ensures present { OnOk result (self.new.present ≡ self.old.present) }
        ensures waiting { OnOk result (self.new.waiting.items ≡ self.old.waiting.items) }
        ensures left { OnOk result (self.new.left ≡ self.old.left) }
    {
        self.behind.push(self.facts)?;
        add_to_last(&mut self.behind, negate(lit), number);
        self.facts.try_add(lit, number);
        Ok(())
    }

    /// Begins the lemma at a place of the list, at the present place: its tree is next, and the place waits.
    pub fn learn(
        &mut self,
        lemmas: &Lemmas<N>,
        lemma: usize,
        at: TreePlace<N>,
        out: &mut Vec<u8>,
    ) -> Result<WriterStep, NoMemory>
        ensures front { ExtendsText out.old.items out.new.items }
        ensures nodes { OnOk result (HasOneMore at.node self.old self.new) }
        ensures left { IfOk result (λ step. TakesNone step self.old.left self.new.left) }
    {
        let Some(literals) = literals_at(lemmas, lemma) else {
            return Ok(WriterStep::Stuck);
        };
        let facts = facts_of(literals.as_slice());
        let length = literals.as_slice().len() as u32;
        put(ProofTok::Lemma(literals), out)?;
        self.unbegun.begin(lemma);
        self.behind.push(self.facts)?;
        self.waiting.push(WriterTask::Part(at))?;
        self.waiting.push(WriterTask::Learn(lemma))?;
        self.facts = facts;
        self.present = Some(TreePlace {
            node: at.node,
            length,
            begun: true,
        });
        Ok(WriterStep::More)
    }

    /// Cites a lemma that is written and serves at the present place, whose list has so many literals: a cycle for
    /// each literal of the lemma and for each condition.
    pub fn cite(
        &mut self,
        lemmas: &Lemmas<N>,
        found: &ServingLemma,
        length: u32,
        out: &mut Vec<u8>,
    ) -> Result<WriterStep, NoMemory>
        ensures front { ExtendsText out.old.items out.new.items }
        ensures nodes { OnOk result (HasNoOthers self.old self.new) }
        ensures left { IfOk result (λ step. TakesNone step self.old.left self.new.left) }
    {
        let Some(number) = self.numbers.number(found.place) else {
            return Ok(WriterStep::Stuck);
        };
        let Some(lemma) = lemmas.get(found.place) else {
            return Ok(WriterStep::Stuck);
        };
        put(ProofTok::Cite(number), out)?;
        if !self.put_cycles(lemma.literals.as_slice(), length, out)? {
            return Ok(WriterStep::Stuck);
        }
        if !self.put_cycles(found.conditions.as_slice(), length, out)? {
            return Ok(WriterStep::Stuck);
        }
        self.present = None;
        Ok(WriterStep::More)
    }

    // Writes for each literal the cycle that shows that it follows, where it does.
    fn put_cycles(
        &mut self,
        literals: &[Lit],
        number: u32,
        out: &mut Vec<u8>,
    ) -> Result<bool, NoMemory>
        ensures front { ExtendsText out.old.items out.new.items }
        ensures present { OnOk result (self.new.present ≡ self.old.present) }
        ensures waiting { OnOk result (self.new.waiting.items ≡ self.old.waiting.items) }
        ensures left { OnOk result (self.new.left ≡ self.old.left) }
    {
        'literals: for literal in literals {
            if !self
                .facts
                .write_why_excluded(&mut self.cycle, negate(*literal), number)?
            {
                return Ok(false);
            }
            put_cycle(&self.cycle, out)?;
        }
        Ok(true)
    }
}

// Appends the last cycle of those that wait, of so many numbers, which does not wait then.
fn put_last_cycle(cycles: &mut Vec<u32>, count: usize, out: &mut Vec<u8>) -> Result<(), NoMemory>
    ensures { ExtendsText out.old.items out.new.items }
{
    let first = cycles.len().saturating_sub(count);
    put_cycle(&cycles[first..], out)?;
    cycles.truncate(first);
    Ok(())
}

// Takes the facts that stand last, in place of those that are given. False where there are none.
fn take_last(behind: &mut Vec<Facts>, facts: &mut Facts) -> bool {
    let Some(last) = behind.last() else {
        return false;
    };
    *facts = *last;
    behind.truncate(behind.len().saturating_sub(1));
    true
}

// Adds a literal to the facts that stand last, under a number.
fn add_to_last(behind: &mut [Facts], lit: Lit, number: u32) {
    if let Some(facts) = behind.last_mut() {
        facts.try_add(lit, number);
    }
}

// The literals of the lemma at a place of the list, if it has few enough.
fn literals_at<N: Copy>(lemmas: &Lemmas<N>, place: usize) -> Option<Literals> {
    literals_of(lemmas.get(place)?.literals.as_slice())
}

// A part of a question, at a place whose list has so many literals.
fn part<N: Copy>(node: N, number: u32) -> TreePlace<N>
    ensures { result.node ≡ node }
{
    TreePlace {
        node,
        length: number.saturating_add(1),
        begun: false,
    }
}

// What the literals of a lemma give, each under its place.
fn facts_of(literals: &[Lit]) -> Facts
    requires { length literals.now ≤ MAX_LITERALS }
{
    let mut facts = Facts::new();
    for place in 0..literals.len() {
        facts.try_add(literals[place], place as u32);
    }
    facts
}
