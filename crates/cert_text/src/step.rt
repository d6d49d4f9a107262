//! What one byte makes of the front of a part.
ghost use Rattle.std.specs.Prelude.{◌≡◌, ℕ, ◌+◌, ◌^◌, ◌<◌, ◌≤◌, List, [], ◌∷◌, ◌++◌, length, drop};
ghost use Rattle.fn_rules.specs.declared.function.ObName.{ObName};
ghost use Rattle.cert_text.specs.Cycles.{IsBegunCycle, cycle_text};
ghost use Rattle.cert_text.specs.Places.{Line, Start, names_of};
ghost use Rattle.cert_text.specs.Stages.{IsLineSound, IsSoundFront, KnowsLength, LineStepsTo, PartStepsTo, begun_text};
ghost use Rattle.cert_text.specs.Stages.{branches_of, place_of};

use crate::cycle::{Cycle, CycleStep};
use crate::line::{Fit, LineBytes, end_line, header_fit, ob_line};
use crate::stage::Stage;
use crate::{Part, Tok};
use fn_rules::{Level, ObName};
use std::alloc::Global;

/// What came of the part that is being read. A part of one byte never comes in part.
#[derive(Drop)]
pub enum PartFront {
    Line(LineBytes),
    Cycle(Cycle),
}

/// What a byte makes of it.
#[derive(Drop)]
pub enum PartStep {
    /// More of a part.
    More(PartFront),

    /// A whole part, and the stage behind it.
    Whole(Part, Stage),

    /// The front of no part.
    Wrong,
}

impl PartFront {
    /// How many bytes came.
    pub fn len(&self) -> u64
        requires { KnowsLength self.now }
        ensures { result ≡ length (begun_text self.now) }
    {
        match self {
            PartFront::Line(line) => line.as_slice().len() as u64,
            PartFront::Cycle(cycle) => cycle.len,
        }
    }
}

fn header_step(
    alloc: Global,
    tp1: &[ObName],
    tp2: &[ObName],
    mut begun: LineBytes,
    byte: u8,
) -> PartStep
    requires sound { IsLineSound (Start tp1.now tp2.now) begun }
    ensures { PartStepsTo tp1.now tp2.now Stage.Header begun byte result }
{
    begun.push(byte);
    match header_fit(alloc, tp1, Level::Tp1, &begun) {
        Fit::Whole => return PartStep::Whole(Part::Header(Level::Tp1), Stage::Line(Level::Tp1, 0)),
        Fit::Front => return PartStep::More(PartFront::Line(begun)),
        Fit::Other => (),
    }
    match header_fit(alloc, tp2, Level::Tp2, &begun) {
        Fit::Whole => PartStep::Whole(Part::Header(Level::Tp2), Stage::Line(Level::Tp2, 0)),
        Fit::Front => PartStep::More(PartFront::Line(begun)),
        Fit::Other => PartStep::Wrong,
    }
}

// What the bytes are of a line, where only this part may stand.
fn line_step(line: &LineBytes, came: LineBytes, part: Part, next: Stage) -> PartStep
    ensures { LineStepsTo line.now came part next result }
{
    match line.fit(&came) {
        Fit::Whole => PartStep::Whole(part, next),
        Fit::Front => PartStep::More(PartFront::Line(came)),
        Fit::Other => PartStep::Wrong,
    }
}

fn next_line_step(
    alloc: Global,
    names: &[ObName],
    level: Level,
    came: u32,
    mut begun: LineBytes,
    byte: u8,
) -> PartStep
    requires few { length names.now < 2 ^ 32 }
    requires sound { IsLineSound (Line came (drop came names.now)) begun }
    ensures { (tp1 tp2 : List ObName) → names_of tp1 tp2 level ≡ names.now
        → PartStepsTo tp1 tp2 (Stage.Line level came) begun byte result }
{
    begun.push(byte);
    match names.get(came as usize) {
        Some(name) => {
            let line = ob_line(alloc, *name);
            line_step(
                &line,
                begun,
                Part::Ob(came),
                Stage::Tree(level, came + 1, 1),
            )
        }
        None => {
            let line = end_line(alloc);
            line_step(&line, begun, Part::End, Stage::Over)
        }
    }
}

// A byte behind a whole token of a tree, or behind the line before the tree.
fn tree_step(alloc: Global, level: Level, came: u32, branches: u64, byte: u8) -> PartStep
    requires few { branches < 2 ^ 63 }
    ensures { (tp1 tp2 : List ObName) → PartStepsTo tp1 tp2 (Stage.Tree level came branches) [] byte result }
{
    if branches == 0 {
        return match byte {
            b'\n' => PartStep::Whole(Part::LineEnd, Stage::Line(level, came)),
            _ => PartStep::Wrong,
        };
    }
    match byte {
        b'?' => PartStep::Whole(Part::Tok(Tok::Ask), Stage::Tree(level, came, branches + 1)),
        b'.' => PartStep::Whole(
            Part::Tok(Tok::Holds),
            Stage::Tree(level, came, branches - 1),
        ),
        b'x' => PartStep::More(PartFront::Cycle(Cycle::new(alloc))),
        _ => PartStep::Wrong,
    }
}

fn cycle_step(cycle: Cycle, level: Level, came: u32, branches: u64, byte: u8) -> PartStep
    requires sound { IsBegunCycle cycle }
    requires len { cycle.len < 2 ^ 63 }
    requires still_open { 0 < branches }
    ensures { (tp1 tp2 : List ObName) → PartStepsTo tp1 tp2 (Stage.Tree level came branches)
        (cycle_text cycle.picks cycle.number) byte result }
{
    match cycle.step(byte) {
        CycleStep::More(cycle) => PartStep::More(PartFront::Cycle(cycle)),
        CycleStep::Whole(picks) => PartStep::Whole(
            Part::Tok(Tok::Cycle(picks)),
            Stage::Tree(level, came, branches - 1),
        ),
        CycleStep::Wrong => PartStep::Wrong,
    }
}

/// What a byte makes of what came.
pub fn part_step(
    alloc: Global,
    tp1: &[ObName],
    tp2: &[ObName],
    stage: Stage,
    begun: PartFront,
    byte: u8,
) -> PartStep
    requires few_tp1 { length tp1.now < 2 ^ 32 }
    requires few_tp2 { length tp2.now < 2 ^ 32 }
    requires branches { branches_of stage < 2 ^ 63 }
    requires sound { IsSoundFront (place_of tp1.now tp2.now stage) begun }
    requires len { length (begun_text begun) < 2 ^ 63 }
    ensures { PartStepsTo tp1.now tp2.now stage (begun_text begun) byte result }
{
    match (stage, begun) {
        (Stage::Header, PartFront::Line(line)) => header_step(alloc, tp1, tp2, line, byte),
        (Stage::Line(level, came), PartFront::Line(line)) => {
            let names = match level {
                Level::Tp1 => tp1,
                Level::Tp2 => tp2,
            };
            next_line_step(alloc, names, level, came, line, byte)
        }
        (Stage::Tree(level, came, branches), PartFront::Line(_)) => tree_step(
            alloc, level, came, branches, byte,
        ),
        (Stage::Tree(level, came, branches), PartFront::Cycle(cycle)) => cycle_step(
            cycle, level, came, branches, byte,
        ),
        _ => PartStep::Wrong,
    }
}
