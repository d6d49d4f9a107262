//! The numbers of a negative cycle, one after another.
ghost use Rattle.std.specs.Prelude.{◌≡◌, None, slice_index_or};
ghost use Rattle.diff_tables.specs.Steps.{numbers_along};

use cert_text::CycleNumbers;
use diff_tables::Hop;

/// The numbers of the literals on the chain that a row of a table keeps from one name to another, at most so many.
#[derive(Drop)]
pub struct Chain<'a> {
    row: &'a [Option<Hop>],
    from: u8,
    to: u8,
    most: usize,
}

impl<'a> Chain<'a> {
    #[inline(always)]
    pub fn new(row: &'a [Option<Hop>], from: u8, to: u8, most: usize) -> Chain<'a>
        ensures { ⟦<Chain<'a> as CycleNumbers>⟧.left result
            ≡ numbers_along (λ x. slice_index_or row.now x None) most from to }
    {
        Chain {
            row,
            from,
            to,
            most,
        }
    }
}

impl CycleNumbers for Chain<'_> {
    ghost left = { λ c. numbers_along (λ x. slice_index_or c.row.now x None) c.most c.from c.to };

    #[inline(always)]
    fn next(&mut self) -> Option<u32> {
        if self.most == 0 || self.from == self.to {
            return None;
        }
        let hop = (*self.row.get(self.from as usize)?)?;
        self.most -= 1;
        self.from = hop.second;
        Some(hop.number)
    }
}
