//! What the reader has read, and what each token that can go on makes of it.

ghost use Rattle.std.specs.Prelude.{◌≡◌, IfOk, OnOk, map, option_map, Ok, None, [], ◌<◌, ◌≤◌, length};
ghost use Rattle.fn_rules.specs.Formulas.{formula_of};
ghost use Rattle.fn_rules.specs.Building.{block_of};
ghost use Rattle.fn_tokens.specs.Meaning.{res_of, signed, to_formulas};
ghost use Rattle.fn_text.specs.Reader.{negate, join, choose, conjunction, disjunction, blocks_of, left_for, told};
ghost use Rattle.fn_text.specs.Reader.{moved, turn, ended};
ghost use Rattle.fn_text.specs.Reader.{read_from, first_state};
ghost use Rattle.fn_tokens.specs.Controls.{depth_of};
ghost use Rattle.fn_tokens.specs.Moves.{HasRoom};
ghost use Rattle.fn_text.specs.Made.{state_of, plain_nesting_of, GivesView};

use crate::NoMemory;
use crate::behind::go_behind;
use crate::stop::TextError;
use fn_rules::{Atom, Block, Case, Cmp, Guard, Head, MAX_ATOMS, Res, Side, Sort};
use fn_tokens::{
    Control, FaultKind, FrontComparison, FrontOffset, Lexer, Placed, Sign, TextFault, TokenMove,
    Want, Written,
};
use ot_model::Kind;
use std::alloc::Global;
use std::mem;

/// What was read in parentheses that are still open.
#[derive(Drop)]
pub(crate) struct Nesting {
    outside: u64,
    nots: u64,
    any: Option<Guard>,
    all: Option<Guard>,
}

/// What was read.
#[derive(Drop)]
pub(crate) struct FunctionReader {
    control: Control,

    /// What stands before the last `or` of the innermost parentheses.
    any: Option<Guard>,

    /// What stands behind that and before the last `and`.
    all: Option<Guard>,

    /// The last operand, without the `not` before it.
    last: Guard,

    /// The parentheses that are open, but for the innermost ones, from the outside in.
    outer: Vec<Nesting>,

    /// The guard of the case whose result is read.
    guard: Guard,

    /// The cases of the last block, and the blocks before it.
    cases: Vec<Case>,
    done: Vec<Block>,
}

/// A guard behind so many `not`.
fn negated(alloc: Global, nots: u64, guard: Guard) -> Result<Guard, NoMemory>
    ensures { IfOk result (λ g. formula_of g ≡ negate to_formulas nots (formula_of guard)) }
{
    let mut negated = guard;
    for _i in 0..nots {
        negated = Guard::Not(Box::new(alloc, negated)?);
    }
    Ok(negated)
}

/// A guard behind what stands before an `and`.
fn joined(alloc: Global, all: Option<Guard>, guard: Guard) -> Result<Guard, NoMemory>
    ensures { IfOk result (λ g. formula_of g ≡ join to_formulas (option_map formula_of all) (formula_of guard)) }
{
    match all {
        None => Ok(guard),
        Some(left) => Ok(Guard::And(Box::new(alloc, left)?, Box::new(alloc, guard)?)),
    }
}

/// A guard behind what stands before an `or`.
fn chosen(alloc: Global, any: Option<Guard>, guard: Guard) -> Result<Guard, NoMemory>
    ensures { IfOk result (λ g. formula_of g ≡ choose to_formulas (option_map formula_of any) (formula_of guard)) }
{
    match any {
        None => Ok(guard),
        Some(left) => Ok(Guard::Or(Box::new(alloc, left)?, Box::new(alloc, guard)?)),
    }
}

fn offset(sign: Sign, number: u8) -> i32
    ensures { result ≡ signed sign number }
{
    match sign {
        Sign::Plus => i32::from(number),
        Sign::Minus => -i32::from(number),
    }
}

fn res(written: Written) -> Res
    ensures { result ≡ res_of written }
{
    match written {
        Written::Nop => Res::Nop,
        Written::At(base) => Res::Keep { base, k: 0 },
        Written::Moved(base, sign, number) => Res::Keep {
            base,
            k: offset(sign, number),
        },
    }
}

impl FunctionReader {
    /// The conjunction that ends with the last operand, which is taken out.
    fn take_conjunction(&mut self, alloc: Global) -> Result<Guard, NoMemory>
        ensures value { IfOk result (λ g. formula_of g ≡ conjunction to_formulas (state_of self.old)) }
        ensures left { OnOk result (state_of self.new ≡ record (state_of self.old)
            { all = None; last = formula_of Guard.True }) }
    {
        let all = self.all.take();
        let last = mem::replace(&mut self.last, Guard::True);
        let operand = negated(alloc, self.control.nots, last)?;
        joined(alloc, all, operand)
    }

    /// All that was read in the innermost parentheses, which is taken out.
    fn take_disjunction(&mut self, alloc: Global) -> Result<Guard, NoMemory>
        ensures value { IfOk result (λ g. formula_of g ≡ disjunction to_formulas (state_of self.old)) }
        ensures left { OnOk result (state_of self.new ≡ record (state_of self.old)
            { any = None; all = None; last = formula_of Guard.True }) }
    {
        let conjunction = self.take_conjunction(alloc)?;
        let any = self.any.take();
        chosen(alloc, any, conjunction)
    }

    pub(crate) fn new(alloc: Global) -> FunctionReader
        ensures { state_of result ≡ first_state to_formulas }
    {
        FunctionReader {
            control: Control::FIRST,
            any: None,
            all: None,
            last: Guard::True,
            outer: Vec::new(alloc),
            guard: Guard::True,
            cases: Vec::new(alloc),
            done: Vec::new(alloc),
        }
    }

    /// Only the control keeps something of the token.
    #[inline(always)]
    fn tell(&mut self, move_: TokenMove)
        requires { HasRoom self.old.control move_ }
        ensures { state_of self.new ≡ told (state_of self.old) move_ }
    {
        go_behind(&mut self.control, move_);
    }

    /// Puts the block that was begun to those that are done.
    fn close_block(&mut self, alloc: Global) -> Result<(), NoMemory>
        ensures { OnOk result (state_of self.new ≡ record (state_of self.old)
            { cases = []; done = blocks_of to_formulas (state_of self.old) }) }
    {
        let cases = mem::replace(&mut self.cases, Vec::new(alloc));
        if self.control.begun {
            self.done.push(Block {
                first: self.control.first,
                second: self.control.second,
                cases,
            })?;
        }
        Ok(())
    }

    fn begin_block(&mut self, alloc: Global, first: Kind, second: Kind) -> Result<(), NoMemory>
        ensures { OnOk result (state_of self.new ≡ moved to_formulas (state_of self.old)
            (TokenMove.BeginBlock first second)) }
    {
        self.close_block(alloc)?;
        self.tell(TokenMove::BeginBlock(first, second));
        Ok(())
    }

    fn open(&mut self) -> Result<(), NoMemory>
        requires { depth_of self.old.control < 32 }
        ensures { OnOk result (state_of self.new ≡ moved to_formulas (state_of self.old) TokenMove.Open) }
    {
        let nesting = Nesting {
            outside: self.control.outside,
            nots: self.control.nots,
            any: self.any.take(),
            all: self.all.take(),
        };
        self.outer.push(nesting)?;
        self.tell(TokenMove::Open);
        Ok(())
    }

    fn always(&mut self)
        requires { self.old.control.atoms < 16 }
        ensures { state_of self.new ≡ moved to_formulas (state_of self.old) TokenMove.Always }
    {
        self.last = Guard::True;
        self.tell(TokenMove::Always);
    }

    fn compare(&mut self, sort: Sort, left: Side, cmp: Cmp)
        ensures { state_of self.new ≡ moved to_formulas (state_of self.old) (TokenMove.Compare sort left cmp) }
    {
        self.last = Guard::Atom(Atom {
            sort,
            left,
            cmp,
            k: 0,
        });
        self.tell(TokenMove::Compare(sort, left, cmp));
    }

    fn shift(&mut self, left: Side, cmp: Cmp, sign: Sign, number: u8)
        ensures { state_of self.new ≡ moved to_formulas (state_of self.old) (TokenMove.Shift left cmp sign number) }
    {
        self.last = Guard::Atom(Atom {
            sort: Sort::Pos,
            left,
            cmp,
            k: offset(sign, number),
        });
        self.tell(TokenMove::Shift(left, cmp, sign, number));
    }

    fn and(&mut self, alloc: Global) -> Result<(), NoMemory>
        ensures { OnOk result (state_of self.new ≡ moved to_formulas (state_of self.old) TokenMove.And) }
    {
        let conjunction = self.take_conjunction(alloc)?;
        self.all = Some(conjunction);
        self.tell(TokenMove::And);
        Ok(())
    }

    fn or(&mut self, alloc: Global) -> Result<(), NoMemory>
        ensures { OnOk result (state_of self.new ≡ moved to_formulas (state_of self.old) TokenMove.Or) }
    {
        let disjunction = self.take_disjunction(alloc)?;
        self.any = Some(disjunction);
        self.tell(TokenMove::Or);
        Ok(())
    }

    /// What stands around the parentheses that are closed goes on.
    fn leave(&mut self, nesting: Nesting)
        ensures { state_of self.new
            ≡ left_for (state_of self.old) (plain_nesting_of nesting) (state_of self.old).outer }
    {
        let Nesting {
            outside,
            nots,
            any,
            all,
        } = nesting;
        self.any = any;
        self.all = all;
        self.control = Control {
            want: Want::Operator,
            outside,
            nots,
            ..self.control
        };
    }

    fn close(&mut self, alloc: Global) -> Result<(), NoMemory>
        ensures { OnOk result (state_of self.new ≡ moved to_formulas (state_of self.old) TokenMove.Close) }
    {
        match self.outer.pop() {
            None => self.tell(TokenMove::Close),
            Some(nesting) => {
                let disjunction = self.take_disjunction(alloc)?;
                self.last = disjunction;
                self.leave(nesting);
            }
        }
        Ok(())
    }

    fn colon(&mut self, alloc: Global) -> Result<(), NoMemory>
        ensures { OnOk result (state_of self.new ≡ moved to_formulas (state_of self.old) TokenMove.Colon) }
    {
        let guard = self.take_disjunction(alloc)?;
        self.guard = guard;
        self.tell(TokenMove::Colon);
        Ok(())
    }

    fn end_case(&mut self, written: Written) -> Result<(), NoMemory>
        ensures { OnOk result (state_of self.new ≡ moved to_formulas (state_of self.old) (TokenMove.EndCase written)) }
    {
        let guard = mem::replace(&mut self.guard, Guard::True);
        self.cases.push(Case {
            guard,
            res: res(written),
        })?;
        self.tell(TokenMove::EndCase(written));
        Ok(())
    }

    fn end(&mut self, alloc: Global) -> Result<(), NoMemory>
        ensures { OnOk result (state_of self.new ≡ moved to_formulas (state_of self.old) TokenMove.End) }
    {
        self.close_block(alloc)?;
        self.tell(TokenMove::End);
        Ok(())
    }

    /// Does what a token does that can go on.
    fn apply(&mut self, alloc: Global, move_: TokenMove) -> Result<(), NoMemory>
        requires { HasRoom self.old.control move_ }
        ensures { OnOk result (state_of self.new ≡ moved to_formulas (state_of self.old) move_) }
    {
        match move_ {
            TokenMove::BeginBlock(first, second) => return self.begin_block(alloc, first, second),
            TokenMove::Open => return self.open(),
            TokenMove::Always => self.always(),
            TokenMove::Compare(sort, left, cmp) => self.compare(sort, left, cmp),
            TokenMove::Shift(left, cmp, sign, number) => self.shift(left, cmp, sign, number),
            TokenMove::And => return self.and(alloc),
            TokenMove::Or => return self.or(alloc),
            TokenMove::Close => return self.close(alloc),
            TokenMove::Colon => return self.colon(alloc),
            TokenMove::EndCase(written) => return self.end_case(written),
            TokenMove::End => return self.end(alloc),
            TokenMove::Skip(_)
            | TokenMove::SetLanguage(_)
            | TokenMove::SetMode(_)
            | TokenMove::Declare(_)
            | TokenMove::AssumeSites
            | TokenMove::AssumeChars
            | TokenMove::BlockWord(..)
            | TokenMove::BeginCase
            | TokenMove::Negate
            | TokenMove::BeginAtom(..) => self.tell(move_),
        }
        Ok(())
    }

    /// What is kept of the tokens that were read.
    pub(crate) fn control(&self) -> Control
        ensures { result ≡ (state_of self.now).control }
    {
        self.control
    }

    /// Reads one token.
    pub(crate) fn turn(&mut self, alloc: Global, at: &Placed) -> Result<(), TextError>
        ensures { GivesView (λ _. state_of self.new) result (turn to_formulas (state_of self.old) at.now) }
    {
        match self.control.move_for(at) {
            None => Err(TextError::Fault(self.control.fault(at))),
            Some(move_) => Ok(self.apply(alloc, move_)?),
        }
    }

    /// Reads an offset that comes next, where one may come and it is told at once.
    #[inline(always)]
    fn shift_next(&mut self, tokens: &mut Lexer<'_>)
        ensures same { read_from to_formulas (state_of self.new) tokens.new
            ≡ read_from to_formulas (state_of self.old) tokens.old }
        ensures shorter { length tokens.new ≤ length tokens.old }
    {
        match self.control.want {
            Want::Offset(left, cmp) => {
                if let Some(FrontOffset { sign, number }) = tokens.offset() {
                    self.shift(left, cmp, sign, number);
                }
            }
            _ => {}
        }
    }

    /// Reads a comparison that comes next, with its offset, where an operand may come and it is told at once.
    #[inline(always)]
    fn compare_next(&mut self, tokens: &mut Lexer<'_>)
        ensures same { read_from to_formulas (state_of self.new) tokens.new
            ≡ read_from to_formulas (state_of self.old) tokens.old }
        ensures shorter { length tokens.new ≤ length tokens.old }
    {
        match self.control.want {
            Want::Operand if self.control.atoms < MAX_ATOMS => {
                if let Some(FrontComparison { sort, left, cmp }) = tokens.comparison() {
                    self.control.atoms += 1;
                    self.compare(sort, left, cmp);
                    self.shift_next(tokens);
                }
            }
            _ => {}
        }
    }

    /// The head and the blocks, once the file has ended.
    fn ended(self) -> Result<(Head, Vec<Block>), TextError>
        ensures { GivesView (λ x. (x.0, map block_of x.1.items)) result (ended (state_of self) self.control.want) }
    {
        let FunctionReader { control, done, .. } = self;
        match control.want {
            Want::Nothing => Ok((control.head, done)),
            _ => Err(TextError::Fault(TextFault {
                line: 1,
                column: 1,
                kind: FaultKind::Expected,
            })),
        }
    }
}

/// The head and the blocks that tokens give, or the first token that cannot go on.
pub(crate) fn read_tokens(alloc: Global, tokens: Lexer<'_>) -> Result<(Head, Vec<Block>), TextError>
    ensures { GivesView (λ x. (x.0, map block_of x.1.items)) result
        (read_from to_formulas (first_state to_formulas) tokens.entry) }
{
    let mut tokens = tokens;
    let mut reader = FunctionReader::new(alloc);
    while let Some(at) = tokens.next() {
        reader.turn(alloc, &at)?;
        reader.compare_next(&mut tokens);
    }
    reader.ended()
}
